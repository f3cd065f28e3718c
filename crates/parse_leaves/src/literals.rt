//! String literals.

ghost use Rattle.std.specs.Prelude.{◌≡◌, ◌∷◌, [], IfOk, MatchOption};
ghost use Rattle.parse_meaning.specs.declared.terminals.Terminal.TheVariants as k;
ghost use Rattle.parse_meaning.specs.Terminals.{at, text_of};
ghost use Rattle.parse_reading.specs.Reading as spec;
ghost use Rattle.parse_leaves.specs.Runs.{strings_behind};

use c_tokens::Token;
use fc_base::{NoMemory, Text};
use parse_meaning::Terminal;
use parse_tokens::{Tokens, text_of};
use std::alloc::Global;

/// Takes a string literal, if one comes next.
fn take_string<'a>(tokens: &mut Tokens<'a>) -> Option<&'a Token>
    ensures { MatchOption result ((strings_behind tokens.old ≡ ([], tokens.old)) × (tokens.new ≡ tokens.old)) (λ o. tokens.old ≡ at k.Str o.now ∷ tokens.new) }
{
    match tokens.peek() {
        Some(Terminal::Str) => match tokens.next() {
            Some((_, token)) => Some(token),
            None => None,
        },
        _ => None,
    }
}

/// The bytes of all string literals that stand side by side, of which the first has been taken (C11 6.4.5,
/// paragraph 5).
pub fn strings(alloc: Global, tokens: &mut Tokens<'_>, first: &Token) -> Result<Text, NoMemory>
    ensures { IfOk result (λ text. spec.strings first.now tokens.old ≡ (text, tokens.new)) }
{
    let mut bytes = Vec::from_slice(alloc, text_of(first))?;
    while let Some(token) = take_string(tokens) {
        bytes.extend_from_slice(text_of(token))?;
    }
    Text::from_bytes(alloc, &bytes)
}
