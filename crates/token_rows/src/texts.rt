//! Tokens and faults as texts.

use c_lexer::tokens;
use c_tokens::{NumberKind, Token, TokenKind};
use fc_base::{Fault, Refusal};
use std::alloc::{AllocError, Global};

fn push_bytes(out: &mut String, bytes: &[u8]) -> Result<(), AllocError> {
    for b in bytes {
        out.push(char::from(*b))?;
    }
    Ok(())
}

/// The bytes between two characters.
fn push_between(
    out: &mut String,
    before: char,
    bytes: &[u8],
    behind: char,
) -> Result<(), AllocError> {
    out.push(before)?;
    push_bytes(out, bytes)?;
    out.push(behind)
}

/// The number with `d` where it is decimal, `u`, and how many letters l it has.
fn push_number(out: &mut String, value: u64, kind: NumberKind) -> Result<(), AllocError> {
    let decimal = if kind.decimal { "d" } else { "" };
    let unsigned = if kind.unsigned { "u" } else { "" };
    write!(out, "{value}{decimal}{unsigned}{}", kind.longs)
}

/// The kind as a text, an inclusion as its line's tokens.
pub fn push_kind(out: &mut String, kind: &TokenKind) -> Result<(), AllocError> {
    match kind {
        TokenKind::Name(name) => push_bytes(out, name.bytes()),
        TokenKind::Number { value, kind } => push_number(out, *value, *kind),
        TokenKind::CharConst(b) => write!(out, "'{b}'"),
        TokenKind::Str(text) => push_between(out, '"', text.bytes(), '"'),
        TokenKind::Punct(punct) => out.push_str(punct.spelling()),
        TokenKind::HeaderName(name) => push_between(out, '<', name.bytes(), '>'),
        TokenKind::Header(header) => write!(out, "# include <{}>", header.name()),
    }
}

/// The token's place, `^` where it starts its line and `_` where it is spaced.
pub fn push_place(out: &mut String, token: &Token) -> Result<(), AllocError> {
    let start = if token.starts_line { "^" } else { "" };
    let space = if token.spaced { "_" } else { "" };
    let place = token.place;
    write!(out, " {}:{}{start}{space}\n", place.line, place.col)
}

/// The rule that is broken, with its place.
pub fn push_fault(out: &mut String, fault: Fault) -> Result<(), AllocError> {
    match fault {
        Fault::Refused(Refusal { rule, place }) => {
            write!(out, "{} {}:{}", rule.name(), place.line, place.col)
        }
        Fault::NoMemory => out.push_str("no memory"),
    }
}

/// The tokens of a source that is not too long.
pub fn lexed(alloc: Global, source: &[u8]) -> Result<Vec<Token>, Fault> {
    if source.len() < 4_294_967_295 {
        tokens(alloc, source)
    } else {
        Ok(Vec::new(alloc))
    }
}
