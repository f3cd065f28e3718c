//! Tokens with their spellings (C11 6.4).

ghost use Rattle.c_tokens.specs.Pieces.{IsLexedKind};

use crate::values::assert_same;
use c_tokens::{HeaderId, NumberKind, Punct, Token, TokenKind, spelling};
use fc_base::{NoMemory, Place, Text};
use std::alloc::Global;
use std::process::Abort;
use std::test::Fail;

/// Asserts that a token of the kind is spelled so.
fn assert_spelled(
    rt: &impl Abort,
    alloc: Global,
    kind: TokenKind,
    text: &[u8],
) -> Result<(), NoMemory>
    requires { IsLexedKind kind }
{
    let token = Token {
        kind,
        place: Place { line: 1, col: 1 },
        starts_line: true,
        spaced: false,
    };
    let spelled = spelling(alloc, &token)?;
    assert_same(rt, spelled.bytes(), text);
    Ok(())
}

#[test]
fn spellings_of_words(rt: HostRuntime) -> Result<(), Fail> {
    let alloc = rt.alloc();
    let name = TokenKind::Name(Text::from_bytes(alloc, b"x_1")?);
    assert_spelled(&rt, alloc, name, b"x_1")?;
    let constant = TokenKind::CharConst(b'\'');
    assert_spelled(&rt, alloc, constant, b"'\\''")?;
    let string = TokenKind::Str(Text::from_bytes(alloc, b"a\0")?);
    assert_spelled(&rt, alloc, string, b"\"a\\000\"")?;
    let punct = TokenKind::Punct(Punct::ShiftLeftAssign);
    assert_spelled(&rt, alloc, punct, b"<<=")?;
    let header_name = TokenKind::HeaderName(Text::from_bytes(alloc, b"a.h")?);
    assert_spelled(&rt, alloc, header_name, b"<a.h>")?;
    let header = TokenKind::Header(HeaderId::Stdio);
    assert_spelled(&rt, alloc, header, b"#include <stdio.h>")?;
    Ok(())
}

#[test]
fn spellings_of_numbers(rt: HostRuntime) -> Result<(), Fail> {
    let alloc = rt.alloc();
    let kind = NumberKind {
        decimal: true,
        unsigned: true,
        longs: 2,
    };
    let decimal = TokenKind::Number { value: 10, kind };
    assert_spelled(&rt, alloc, decimal, b"10ull")?;
    let kind = NumberKind {
        decimal: false,
        unsigned: false,
        longs: 0,
    };
    let zero = TokenKind::Number { value: 0, kind };
    assert_spelled(&rt, alloc, zero, b"0")?;
    let octal = TokenKind::Number { value: 255, kind };
    assert_spelled(&rt, alloc, octal, b"0377")?;
    Ok(())
}
