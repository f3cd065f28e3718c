//! The two rules that look at the whole file before the grammar applies.

ghost use Rattle.std.specs.Prelude.{◌≡◌, ℕ, List, ◌∷◌};
ghost use Rattle.std.specs.List.{list_any};
ghost use Rattle.std.specs.Str.{bytes_eq};
ghost use Rattle.parse_meaning.specs.Terminals.{has, left_out_keywords};
ghost use Rattle.parse_meaning.specs.File.{bracket, first_deep, first_left_out, is_left_out};
ghost use Rattle.parse_limits.specs.Brackets.{bracket_of};

use c_tokens::{Punct, Token, TokenKind};
use fc_base::Place;

/// The most brackets that are open at once.
const BRACKET_LIMIT: usize = 200;

fn is_among(words: &[&str], name: &[u8]) -> bool
    ensures { result ≡ list_any (λ word. bytes_eq word.now name.now) words.now }
{
    words.iter().any(|word| word.as_bytes() == name)
}

/// The keywords of C11 6.4.1 that the grammar leaves out and that begin with the byte.
fn left_out_from(first: u8) -> &'static [&'static str]
    ensures { (rest : List ℕ) → list_any (λ word. bytes_eq word.now (first ∷ rest)) result.now ≡ has left_out_keywords (first ∷ rest) }
{
    match first {
        b'_' => &[
            "_Bool",
            "_Complex",
            "_Imaginary",
            "_Atomic",
            "_Thread_local",
            "_Generic",
            "_Alignas",
            "_Alignof",
            "_Static_assert",
            "_Noreturn",
        ],
        b'a' => &["auto"],
        b'd' => &["double"],
        b'f' => &["float"],
        b'g' => &["goto"],
        b'r' => &["register"],
        b'v' => &["volatile"],
        _ => &[],
    }
}

fn is_left_out_keyword(name: &[u8]) -> bool
    ensures { result ≡ has left_out_keywords name.now }
{
    match name {
        [first, ..] => is_among(left_out_from(*first), name),
        [] => false,
    }
}

fn is_left_out(kind: &TokenKind) -> bool
    ensures { result ≡ is_left_out kind.now }
{
    match kind {
        TokenKind::Name(name) => is_left_out_keyword(name.bytes()),
        _ => false,
    }
}

/// The place of the first keyword that is left out.
pub fn left_out_keyword(tokens: &[Token]) -> Option<Place>
    ensures { result ≡ first_left_out tokens.now }
{
    for token in tokens {
        if is_left_out(&token.kind) {
            return Some(token.place);
        }
    }
    None
}

/// How a token changes the number of open brackets.
#[derive(Clone, Copy)]
enum Change {
    Opens,
    Closes,
    Neither,
}

fn change_by(kind: &TokenKind) -> Change
    ensures { bracket_of result ≡ bracket kind.now }
{
    match kind {
        TokenKind::Punct(Punct::LeftParen | Punct::LeftBracket | Punct::LeftBrace) => Change::Opens,
        TokenKind::Punct(Punct::RightParen | Punct::RightBracket | Punct::RightBrace) => {
            Change::Closes
        }
        _ => Change::Neither,
    }
}

/// The place of the first bracket with which too many are open.
pub fn deep_bracket(tokens: &[Token]) -> Option<Place>
    ensures { result ≡ first_deep 0 tokens.now }
{
    let mut open = 0usize;
    for token in tokens {
        match change_by(&token.kind) {
            Change::Opens => {
                if open == BRACKET_LIMIT {
                    return Some(token.place);
                }
                open += 1;
            }
            Change::Closes => open = open.saturating_sub(1),
            Change::Neither => {}
        }
    }
    None
}
