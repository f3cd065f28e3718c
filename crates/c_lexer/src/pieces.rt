//! The longest piece at the front of a text.

ghost use Rattle.std.specs.Prelude.{◌≡◌, ◌<◌, ◌^◌, Some, length, IfOk};
ghost use Rattle.c_tokens.specs.Pieces.{is_prefixed};
ghost use Rattle.c_lexer.specs.Fronts.{begins_literal, first_operator, first_word, first_number, first_dot, first_slash, first_other, first_piece};

use crate::bytes::{
    Class, begins_name, comment_length, is_quote, is_space, line_length, number_length, rest_from,
    run_length,
};
use crate::literals::{constant, header, string};
use crate::numbers::number;
use crate::puncts::punctuator;
use c_tokens::{Piece, TokenKind};
use fc_base::{NoMemory, Rule, Text};
use std::alloc::Global;

/// A prefix L, u, U or u8 and a quote.
fn is_prefixed(text: &[u8]) -> bool
    ensures { result ≡ is_prefixed text.now }
{
    match text {
        [a, quote] => (*a == b'L' || *a == b'u' || *a == b'U') && is_quote(*quote),
        [a, e, quote] => *a == b'u' && *e == b'8' && is_quote(*quote),
        _ => false,
    }
}

/// Whether a quote stands behind these bytes that makes them a prefix.
fn begins_literal(size: usize, bytes: &[u8]) -> bool
    requires { length bytes.now < 2 ^ 63 }
    ensures { result ≡ begins_literal size bytes.now }
{
    size < bytes.len() && is_prefixed(&bytes[..size + 1])
}

/// An identifier, or the front of a prefixed literal.
#[tactic(auto, unfolding(crate::specs::Fronts::first_word))]
fn word(alloc: Global, bytes: &[u8]) -> Result<(usize, Piece), NoMemory>
    requires length { 0 < length bytes.now }
    requires bound { length bytes.now < 2 ^ 63 }
    ensures { IfOk result (λ r. Some r ≡ first_word bytes.now) }
{
    let size = run_length(Class::Word, rest_from(bytes, 1)) + 1;
    if begins_literal(size, bytes) {
        return Ok((size + 1, Piece::Refused(Rule::LeftOutLiteral, 0)));
    }
    let name = Text::from_bytes(alloc, &bytes[..size])?;
    Ok((size, Piece::Token(TokenKind::Name(name))))
}

/// A preprocessing number that begins with a digit.
#[tactic(auto, unfolding(crate::specs::Fronts::first_number))]
fn digits(bytes: &[u8]) -> (usize, Piece)
    requires length { 0 < length bytes.now }
    requires bound { length bytes.now < 2 ^ 63 }
    ensures { Some result ≡ first_number bytes.now }
{
    let size = number_length(bytes[0], rest_from(bytes, 1)) + 1;
    (size, number(&bytes[..size]))
}

fn operator(bytes: &[u8]) -> Option<(usize, Piece)>
    ensures { result ≡ first_operator bytes.now }
{
    let (size, punct) = punctuator(bytes)?;
    Some((size, Piece::Token(TokenKind::Punct(punct))))
}

/// A preprocessing number or punctuator that begins with a dot.
#[tactic(auto, unfolding(crate::specs::Fronts::first_dot))]
fn dot(bytes: &[u8]) -> Option<(usize, Piece)>
    requires length { 0 < length bytes.now }
    requires bound { length bytes.now < 2 ^ 63 }
    ensures { result ≡ first_dot bytes.now }
{
    if bytes.len() > 1 && bytes[1].is_ascii_digit() {
        let size = number_length(bytes[1], rest_from(bytes, 2)) + 2;
        return Some((size, number(&bytes[..size])));
    }
    operator(bytes)
}

/// A comment or operator that begins with a slash.
#[tactic(auto, unfolding(crate::specs::Fronts::first_slash))]
fn slash(bytes: &[u8]) -> Option<(usize, Piece)>
    requires length { 0 < length bytes.now }
    requires bound { length bytes.now < 2 ^ 63 }
    ensures { result ≡ first_slash bytes.now }
{
    match bytes {
        [_, b'/', rest @ ..] => Some((line_length(rest) + 2, Piece::Space)),
        [_, b'*', rest @ ..] => {
            let (size, is_closed) = comment_length(rest);
            let piece = if is_closed {
                Piece::Space
            } else {
                Piece::Refused(Rule::OpenComment, 0)
            };
            Some((size + 2, piece))
        }
        _ => operator(bytes),
    }
}

/// What begins with another byte than white space, a letter or a digit.
#[tactic(auto, unfolding(crate::specs::Fronts::first_other))]
fn other(
    alloc: Global,
    bytes: &[u8],
    after_include: bool,
) -> Result<Option<(usize, Piece)>, NoMemory>
    requires length { 0 < length bytes.now }
    requires bound { length bytes.now < 2 ^ 63 }
    ensures { IfOk result (λ r. r ≡ first_other after_include bytes.now) }
{
    match bytes[0] {
        b'.' => Ok(dot(bytes)),
        b'/' => Ok(slash(bytes)),
        b'"' => {
            let front = string(alloc, rest_from(bytes, 1))?;
            Ok(Some(front))
        }
        b'\'' => Ok(Some(constant(rest_from(bytes, 1)))),
        b'<' if after_include => {
            let front = header(alloc, rest_from(bytes, 1))?;
            Ok(Some(front))
        }
        _ => Ok(operator(bytes)),
    }
}

/// The longest piece at the front, with its length. After `#` and `include` a `<` opens a header name.
#[tactic(auto, unfolding(crate::specs::Fronts::first_piece))]
pub fn piece(
    alloc: Global,
    bytes: &[u8],
    after_include: bool,
) -> Result<Option<(usize, Piece)>, NoMemory>
    requires { length bytes.now < 2 ^ 63 }
    ensures { IfOk result (λ r. r ≡ first_piece after_include bytes.now) }
{
    if bytes.is_empty() {
        return Ok(None);
    }
    let b = bytes[0];
    if is_space(b) {
        Ok(Some((1, Piece::Space)))
    } else if b == b'\n' {
        Ok(Some((1, Piece::Newline)))
    } else if begins_name(b) {
        let front = word(alloc, bytes)?;
        Ok(Some(front))
    } else if b.is_ascii_digit() {
        Ok(Some(digits(bytes)))
    } else {
        other(alloc, bytes, after_include)
    }
}
