//! How a token is spelled.

ghost use Rattle.std.specs.Prelude.{◌≡◌, ◌+◌, ◌++◌, ◌∷◌, ◌<◌, ◌≤◌, [], map, IfOk, OnOk};
ghost use Rattle.std.specs.Int.Digits.{digits_of};
ghost use Rattle.c_tokens.specs.Pieces.{IsLexedKind, Spells};
ghost use Rattle.c_tokens.specs.Puncts.{include_line};
ghost use Rattle.c_tokens.specs.Spelling.{octal_digit, digits_text, suffix_text, number_text, escaped, quoted, spelling_of};

use crate::tokens::{NumberKind, Token, TokenKind};
use c_headers::HeaderId;
use fc_base::{NoMemory, Text};
use itoa::Buffer;
use std::alloc::{AllocError, Global};

/// The octal digits of the value, none for 0.
fn octal_digits(alloc: Global, mut value: u64) -> Result<Vec<u8>, AllocError>
    ensures { IfOk result (λ v. v.items ≡ map octal_digit (digits_of 8 value)) }
{
    let mut digits = Vec::new(alloc);
    while value > 0 {
        digits.push(b'0' + (value % 8) as u8)?;
        value /= 8;
    }
    digits.reverse();
    Ok(digits)
}

/// Decimal digits, or octal ones behind a zero.
fn push_digits(
    alloc: Global,
    out: &mut Vec<u8>,
    value: u64,
    decimal: bool,
) -> Result<(), AllocError>
    ensures { OnOk result (out.new.items ≡ out.old.items ++ digits_text decimal value) }
{
    if decimal {
        let mut buffer = Buffer::new();
        out.extend_from_slice(buffer.format(value).as_bytes())
    } else {
        out.push(b'0')?;
        let digits = octal_digits(alloc, value)?;
        out.extend_from_slice(&digits)
    }
}

fn push_suffix(out: &mut Vec<u8>, kind: NumberKind) -> Result<(), AllocError>
    requires { kind.longs ≤ 2 }
    ensures { OnOk result (out.new.items ≡ out.old.items ++ suffix_text kind.unsigned kind.longs) }
{
    if kind.unsigned {
        out.push(b'u')?;
    }
    out.extend_from_slice(&b"ll"[..usize::from(kind.longs)])
}

fn number(alloc: Global, value: u64, kind: NumberKind) -> Result<Vec<u8>, AllocError>
    requires { kind.longs ≤ 2 }
    ensures { IfOk result (λ v. v.items ≡ number_text value kind) }
{
    let mut out = Vec::new(alloc);
    push_digits(alloc, &mut out, value, kind.decimal)?;
    push_suffix(&mut out, kind)?;
    Ok(out)
}

/// What stands for the byte between quotes.
#[tactic(auto, unfolding(crate::specs::Spelling::escaped))]
fn push_escaped(out: &mut Vec<u8>, b: u8) -> Result<(), AllocError>
    ensures { OnOk result (out.new.items ≡ out.old.items ++ escaped b) }
{
    match b {
        b'"' | b'\'' | b'\\' => out.extend_from_slice(&[b'\\', b]),
        b' '..=b'~' => out.extend_from_slice(&[b]),
        _ => out.extend_from_slice(&[b'\\', b'0' + b / 64, b'0' + b / 8 % 8, b'0' + b % 8]),
    }
}

fn quoted(alloc: Global, quote: u8, bytes: &[u8]) -> Result<Vec<u8>, AllocError>
    ensures { IfOk result (λ v. v.items ≡ quoted quote bytes.now) }
{
    let mut out = Vec::new(alloc);
    out.push(quote)?;
    for b in bytes {
        push_escaped(&mut out, *b)?;
    }
    out.push(quote)?;
    Ok(out)
}

fn between(alloc: Global, before: &[u8], text: &[u8], after: u8) -> Result<Vec<u8>, AllocError>
    ensures { IfOk result (λ v. v.items ≡ before.now ++ text.now ++ after ∷ []) }
{
    let mut out = Vec::from_slice(alloc, before)?;
    out.extend_from_slice(text)?;
    out.push(after)?;
    Ok(out)
}

/// The line that includes the header.
fn include_line(alloc: Global, header: HeaderId) -> Result<Vec<u8>, AllocError>
    ensures { IfOk result (λ v. v.items ≡ include_line header) }
{
    between(alloc, b"#include <", header.name().as_bytes(), b'>')
}

fn string(alloc: Global, bytes: &[u8]) -> Result<Vec<u8>, AllocError>
    ensures spells { IfOk result (λ v. Spells v.items (TokenKind.Str bytes.now)) }
    ensures exactly { IfOk result (λ v. v.items ≡ spelling_of (TokenKind.Str bytes.now)) }
{
    quoted(alloc, b'"', bytes)
}

fn constant(alloc: Global, b: u8) -> Result<Vec<u8>, AllocError>
    ensures spells { IfOk result (λ v. Spells v.items (TokenKind.CharConst b)) }
    ensures exactly { IfOk result (λ v. v.items ≡ spelling_of (TokenKind.CharConst b)) }
{
    quoted(alloc, b'\'', &[b])
}

fn spelling_bytes(alloc: Global, kind: &TokenKind) -> Result<Vec<u8>, AllocError>
    requires { IsLexedKind kind.now }
    ensures spells { IfOk result (λ v. Spells v.items kind.now) }
    ensures exactly { IfOk result (λ v. v.items ≡ spelling_of kind.now) }
{
    match kind {
        TokenKind::Name(name) => Vec::from_slice(alloc, name.bytes()),
        TokenKind::Number { value, kind } => number(alloc, *value, *kind),
        TokenKind::CharConst(b) => constant(alloc, *b),
        TokenKind::Str(bytes) => string(alloc, bytes.bytes()),
        TokenKind::Punct(punct) => Vec::from_slice(alloc, punct.spelling().as_bytes()),
        TokenKind::HeaderName(name) => between(alloc, b"<", name.bytes(), b'>'),
        TokenKind::Header(header) => include_line(alloc, *header),
    }
}

/// The spelling of the token, which is read as the same kind where the token stands. An inclusion is spelled as its
/// line.
pub fn spelling(alloc: Global, token: &Token) -> Result<Text, NoMemory>
    requires { IsLexedKind token.now.kind }
    ensures spells { IfOk result (λ text. Spells text token.now.kind) }
    ensures exactly { IfOk result (λ text. text ≡ spelling_of token.now.kind) }
{
    let bytes = spelling_bytes(alloc, &token.kind)?;
    Text::from_bytes(alloc, &bytes)
}
