//! Character constants, string literals and header names (C11 6.4.4.4, 6.4.5 and 6.4.7).

ghost use Rattle.std.specs.Prelude.{◌≡◌, ◌<◌, ◌^◌, true, false, length, IfOk};
ghost use Rattle.std.specs.Str.{byte};
ghost use Rattle.c_tokens.specs.Literals.{characters, values, string_of, constant_of, string, constant, header};
ghost use Rattle.c_lexer.specs.Runs.{literal_front};

use crate::bytes::{literal_length, rest_from};
use crate::escapes::character;
use c_tokens::{Piece, TokenKind};
use fc_base::{NoMemory, Rule, Text};
use std::alloc::Global;

/// The string of the characters of a body, or its first bad escape sequence.
fn string_of(alloc: Global, body: &[u8]) -> Result<Piece, NoMemory>
    ensures { IfOk result (λ piece. piece ≡ string_of (values (characters 1 0 body.now))) }
{
    let mut bytes = Vec::new(alloc);
    let mut at = 0;
    while at < body.len() {
        let (size, value) = character(rest_from(body, at));
        let Some(b) = value else {
            return Ok(Piece::Refused(Rule::BadEscape, at + 1));
        };
        bytes.push(b)?;
        at += size;
    }
    let text = Text::from_bytes(alloc, &bytes)?;
    Ok(Piece::Token(TokenKind::Str(text)))
}

/// The constant of a body of one character.
fn constant_of(body: &[u8]) -> Piece
    ensures { result ≡ constant_of (characters 1 0 body.now) }
{
    if body.is_empty() {
        return Piece::Refused(Rule::LeftOutLiteral, 0);
    }
    let (size, value) = character(body);
    if size < body.len() {
        return Piece::Refused(Rule::LeftOutLiteral, 0);
    }
    match value {
        Some(b) => Piece::Token(TokenKind::CharConst(b)),
        None => Piece::Refused(Rule::BadEscape, 1),
    }
}

/// The string literal that begins before these bytes, with its length.
pub fn string(alloc: Global, bytes: &[u8]) -> Result<(usize, Piece), NoMemory>
    requires { length bytes.now < 2 ^ 63 }
    ensures { IfOk result (λ r. r ≡ literal_front (byte "\"") true string bytes.now) }
{
    let (size, is_closed) = literal_length(b'"', true, bytes);
    if !is_closed {
        return Ok((size + 1, Piece::Refused(Rule::OpenText, 0)));
    }
    let piece = string_of(alloc, &bytes[..size - 1])?;
    Ok((size + 1, piece))
}

/// The character constant that begins before these bytes, with its length.
pub fn constant(bytes: &[u8]) -> (usize, Piece)
    requires { length bytes.now < 2 ^ 63 }
    ensures { result ≡ literal_front (byte "'") true constant bytes.now }
{
    let (size, is_closed) = literal_length(b'\'', true, bytes);
    if !is_closed {
        return (size + 1, Piece::Refused(Rule::OpenText, 0));
    }
    (size + 1, constant_of(&bytes[..size - 1]))
}

/// The header name that begins before these bytes, with its length.
pub fn header(alloc: Global, bytes: &[u8]) -> Result<(usize, Piece), NoMemory>
    requires { length bytes.now < 2 ^ 63 }
    ensures { IfOk result (λ r. r ≡ literal_front (byte ">") false header bytes.now) }
{
    let (size, is_closed) = literal_length(b'>', false, bytes);
    if !is_closed {
        return Ok((size + 1, Piece::Refused(Rule::OpenText, 0)));
    }
    let name = Text::from_bytes(alloc, &bytes[..size - 1])?;
    Ok((size + 1, Piece::Token(TokenKind::HeaderName(name))))
}
