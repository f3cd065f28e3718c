//! A file (C11 6.9).

ghost use Rattle.std.specs.Prelude.{◌≡◌, ℕ, ◌≢◌, ◌-◌, ◌++◌, ◌∷◌, [], List, length, map, drop, Some, None, IfOk, IfErr, OnOk, MatchOption};
ghost use Rattle.c_tokens.specs.declared.tokens.Token.{Token};
ghost use Rattle.parse_meaning.specs.File.{Derives};
ghost use Rattle.parse_meaning.specs.Terminals.{has, lexeme};
ghost use Rattle.parse_reading.specs.Reading.{Read};
ghost use Rattle.parse_reading.specs.ReadingFile as spec;
ghost use Rattle.fc_base.specs.Answers.{Answers};
ghost use Rattle.parse_externals.specs.Externals.{external_of};
ghost use Rattle.parse_decl.specs.IsRead.{IsRead};

use c_tokens::Token;
use c_tree::{External, FileTree, HEIGHT_LIMIT};
use fc_base::{Fault, NoMemory, Place, Rule, Text};
use parse_externals::{NamedExternal, external};
use parse_limits::{deep_bracket, left_out_keyword};
use parse_tokens::{ParseFault, Tokens, TypeNames};
use sqlite_items::Items;
use std::alloc::Global;
use tree_drops::{ExternalItems, both};

/// The place of the first token.
fn first_place(rest: &[Token]) -> Option<Place>
    ensures { MatchOption result (rest.now ≡ []) (λ place. (o : Token) × (s : List Token) × (rest.now ≡ o ∷ s) × (place ≡ o.place)) }
{
    match rest.first() {
        Some(token) => Some(token.place),
        None => None,
    }
}

/// The first external declaration, and the tokens behind it.
fn first<'a>(
    alloc: Global,
    rest: &'a [Token],
    types: &TypeNames,
) -> Result<(NamedExternal, &'a [Token]), ParseFault>
    ensures found { IfOk result (λ p. (r : Read spec.NamedExternal) × (spec.external (HEIGHT_LIMIT - 1) (map (lexeme types.now) rest.now) ≡ Some r) × (external_of p.0 ≡ r.tree) × (p.1.now ≡ drop (length rest.now - length r.rest) rest.now)) }
    ensures refused { IfErr result (λ e. e ≢ ParseFault.NoMemory → spec.external (HEIGHT_LIMIT - 1) (map (lexeme types.now) rest.now) ≡ None) }
{
    let mut tokens = Tokens::new(rest, types);
    let found = external(alloc, &mut tokens, HEIGHT_LIMIT - 1)?;
    let left = tokens.left();
    Ok((found.tree, &rest[rest.len().saturating_sub(left)..]))
}

/// Adds the names to those of types.
fn grow(alloc: Global, types: &mut TypeNames, names: &[Text]) -> Result<(), NoMemory>
    ensures { OnOk result ((name : List ℕ) → has types.new name ≡ has (types.old ++ names.now) name) }
{
    for name in names {
        types.push(Text::from_bytes(alloc, name.bytes())?)?;
    }
    Ok(())
}

/// The external declarations of a file, or the first that is none.
fn declarations(alloc: Global, tokens: &[Token]) -> Result<Items<External>, Fault>
    ensures { IsRead (spec.file (HEIGHT_LIMIT - 1) (length tokens.now) [] tokens.now) result }
{
    let mut rest = tokens;
    let mut types = TypeNames::new(alloc);
    let mut found = ExternalItems::new(alloc);
    for _turn in 0..tokens.len() {
        let Some(place) = first_place(rest) else {
            return Ok(found.finish());
        };
        match first(alloc, rest, &types) {
            Err(ParseFault::NoMemory) => return Err(Fault::NoMemory),
            Err(ParseFault::NoDerivation) => return Err(Fault::refused(Rule::Syntax, place)),
            Ok((declaration, behind)) => {
                let NamedExternal { tree, names } = declaration;
                let grown = grow(alloc, &mut types, names.as_slice());
                let (tree, ()) = both(tree, grown)?;
                found.push(tree)?;
                rest = behind;
            }
        }
    }
    match first_place(rest) {
        None => Ok(found.finish()),
        Some(place) => Err(Fault::refused(Rule::Syntax, place)),
    }
}

/// The tree of a file, or the first rule that it breaks: a keyword that the grammar leaves out, too many open brackets,
/// or an external declaration without a derivation whose tree is not too high.
pub fn parse(alloc: Global, tokens: &[Token]) -> Result<FileTree, Fault>
    ensures { Answers (λ tree. tree) result (Derives tokens.now) }
{
    if let Some(place) = left_out_keyword(tokens) {
        return Err(Fault::refused(Rule::LeftOutKeyword, place));
    }
    if let Some(place) = deep_bracket(tokens) {
        return Err(Fault::refused(Rule::LimitDepth, place));
    }
    let externals = declarations(alloc, tokens)?;
    Ok(FileTree { externals })
}
