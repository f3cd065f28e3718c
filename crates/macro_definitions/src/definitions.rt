//! The definition that a `define` line makes (C11 6.10.3).

ghost use Rattle.std.specs.Prelude.{◌≡◌, IfOk, option_map, map, find, true, not, ◌++◌, ◌∷◌, []};
ghost use Rattle.std.specs.List.{list_any, position};
ghost use Rattle.macro_meaning.specs.Macros.{same_name};
ghost use Rattle.macro_meaning.specs.Definitions.{macro_name, some_parameters, parameters_of, distinct, opens_at_once, defined_as, definition, named_part, body_part, meaning, is_operator};
ghost use Rattle.macro_items.specs.Views.{names, body_part_view, body_part_views, meaning_view};
ghost use Rattle.macro_definitions.specs.Views.{definition_view, parameters_view, with_rest};

use c_tokens::{Punct, Token, TokenKind};
use indexmap::IndexSet;
use macro_items::{BodyPart, Macro, closes, is_comma, opens};
use macro_lines::{after, is_defined_word, name_of};
use std::alloc::{AllocError, Global};

/// A macro's name, its parameters where it has a list of them, and the tokens of its replacement list.
#[derive(Drop)]
pub struct Definition<'a> {
    pub name: &'a [u8],
    pub parameters: Option<IndexSet<&'a [u8]>>,
    pub body: &'a [Token],
}

/// The parameters of a macro, and the tokens after their closing bracket.
#[derive(Drop)]
pub struct Parameters<'a> {
    pub names: IndexSet<&'a [u8]>,
    pub rest: &'a [Token],
}

/// A name that a macro may have: any but `defined`.
fn macro_name(kind: &TokenKind) -> Option<&[u8]>
    ensures { option_map (λ n. n.now) result ≡ macro_name kind.now }
{
    match kind {
        TokenKind::Name(name) => {
            if is_defined_word(name.bytes()) {
                None
            } else {
                Some(name.bytes())
            }
        }
        _ => None,
    }
}

/// Adds a parameter, and tells whether its name is new.
fn add_parameter<'a>(
    parameters: &mut IndexSet<&'a [u8]>,
    name: &'a [u8],
) -> Result<bool, AllocError>
    ensures new { IfOk result (λ is_new. is_new ≡ not (list_any (same_name name.now) (names parameters.old.keys))) }
    ensures added { IfOk result (λ is_new. is_new ≡ true → names parameters.new.keys ≡ names parameters.old.keys ++ name.now ∷ []) }
{
    let is_new = parameters.insert(name)?;
    Ok(is_new)
}

/// Puts different names with commas between them into an empty set, and gives the tokens after the closing bracket
/// behind the last of them.
fn read_parameters<'a>(
    parameters: &mut IndexSet<&'a [u8]>,
    mut tokens: &'a [Token],
) -> Result<Option<&'a [Token]>, AllocError>
    requires { names parameters.old.keys ≡ [] }
    ensures { IfOk result (λ o. option_map (with_rest (names parameters.new.keys)) o ≡ distinct (some_parameters tokens.entry.now)) }
{
    while tokens.len() >= 2 {
        let Some(name) = name_of(&tokens[0].kind) else {
            return Ok(None);
        };
        if !add_parameter(parameters, name)? {
            return Ok(None);
        }
        let separator = &tokens[1].kind;
        let rest = after(tokens, 2);
        if closes(separator) {
            return Ok(Some(rest));
        }
        if !is_comma(separator) {
            return Ok(None);
        }
        tokens = rest;
    }
    Ok(None)
}

/// Different names with commas between them and a closing bracket behind the last.
fn some_parameters(alloc: Global, tokens: &[Token]) -> Result<Option<Parameters<'_>>, AllocError>
    ensures { IfOk result (λ o. option_map parameters_view o ≡ distinct (some_parameters tokens.now)) }
{
    let mut names = IndexSet::new(alloc);
    match read_parameters(&mut names, tokens)? {
        Some(rest) => Ok(Some(Parameters { names, rest })),
        None => Ok(None),
    }
}

/// The parameters after the opening bracket, none where a name stands twice.
fn parameters_of(alloc: Global, tokens: &[Token]) -> Result<Option<Parameters<'_>>, AllocError>
    ensures { IfOk result (λ o. option_map parameters_view o ≡ distinct (parameters_of tokens.now)) }
{
    if tokens.is_empty() {
        return Ok(None);
    }
    if closes(&tokens[0].kind) {
        return Ok(Some(Parameters {
            names: IndexSet::new(alloc),
            rest: after(tokens, 1),
        }));
    }
    some_parameters(alloc, tokens)
}

fn opens_at_once(token: &Token) -> bool
    ensures { result ≡ opens_at_once token.now }
{
    opens(&token.kind) && !token.spaced
}

/// The macro has parameters where an opening bracket follows its name at once.
fn defined_as<'a>(
    alloc: Global,
    name: &'a [u8],
    tokens: &'a [Token],
) -> Result<Option<Definition<'a>>, AllocError>
    ensures { IfOk result (λ o. option_map definition_view o ≡ defined_as name.now tokens.now) }
{
    if tokens.is_empty() || !opens_at_once(&tokens[0]) {
        return Ok(Some(Definition {
            name,
            parameters: None,
            body: tokens,
        }));
    }
    match parameters_of(alloc, after(tokens, 1))? {
        None => Ok(None),
        Some(parameters) => Ok(Some(Definition {
            name,
            parameters: Some(parameters.names),
            body: parameters.rest,
        })),
    }
}

/// The definition of the tokens after `define`: none where they begin with no name, or with `defined`, or have a bad
/// or repeated parameter.
pub fn definition_of(alloc: Global, line: &[Token]) -> Result<Option<Definition<'_>>, AllocError>
    ensures { IfOk result (λ o. option_map definition_view o ≡ definition line.now) }
{
    if line.is_empty() {
        return Ok(None);
    }
    match macro_name(&line[0].kind) {
        None => Ok(None),
        Some(name) => defined_as(alloc, name, after(line, 1)),
    }
}

fn position_of(parameters: &IndexSet<&[u8]>, name: &[u8]) -> Option<usize>
    ensures { result ≡ position (same_name name.now) (names parameters.now.keys) }
{
    parameters.get_index_of(name)
}

fn named_part<'a>(
    parameters: &IndexSet<&'a [u8]>,
    kind: &'a TokenKind,
    spaced: bool,
) -> BodyPart<'a>
    ensures { body_part_view result ≡ named_part (names parameters.now.keys) kind.now spaced }
{
    match kind {
        TokenKind::Name(name) => match position_of(parameters, name.bytes()) {
            Some(k) => BodyPart::Parameter(k),
            None => BodyPart::Plain(kind, spaced),
        },
        _ => BodyPart::Plain(kind, spaced),
    }
}

fn body_part<'a>(parameters: &Option<IndexSet<&'a [u8]>>, token: &'a Token) -> BodyPart<'a>
    ensures { body_part_view result ≡ body_part (option_map (λ s. names s.keys) parameters.now) token.now }
{
    match parameters {
        None => BodyPart::Plain(&token.kind, token.spaced),
        Some(list) => named_part(list, &token.kind, token.spaced),
    }
}

fn body_parts<'a>(
    alloc: Global,
    parameters: &Option<IndexSet<&'a [u8]>>,
    tokens: &'a [Token],
) -> Result<Vec<BodyPart<'a>>, AllocError>
    ensures { IfOk result (λ v. body_part_views v.items ≡ map (body_part (option_map (λ s. names s.keys) parameters.now)) tokens.now) }
{
    let mut body = Vec::new(alloc);
    for token in tokens {
        body.push(body_part(parameters, token))?;
    }
    Ok(body)
}

/// What a macro of these parameters and this replacement list stands for.
pub fn meaning<'a>(
    alloc: Global,
    parameters: Option<IndexSet<&'a [u8]>>,
    tokens: &'a [Token],
) -> Result<Macro<'a>, AllocError>
    ensures { IfOk result (λ m. meaning_view m ≡ meaning (option_map (λ s. names s.keys) parameters.entry) tokens.now) }
{
    let body = body_parts(alloc, &parameters, tokens)?;
    Ok(Macro { parameters, body })
}

/// The first `#` or `##`.
pub fn operator(tokens: &[Token]) -> Option<&Token>
    ensures { option_map (λ t. t.now) result ≡ find (λ t. is_operator t.kind) tokens.now }
{
    for token in tokens {
        if is_operator(&token.kind) {
            return Some(token);
        }
    }
    None
}

fn is_operator(kind: &TokenKind) -> bool
    ensures { result ≡ is_operator kind.now }
{
    match kind {
        TokenKind::Punct(Punct::Hash) | TokenKind::Punct(Punct::HashHash) => true,
        _ => false,
    }
}
