//! Sources, with the tokens or the refusal that C11 and the rules of the subset give them.

use crate::texts::{lexed, push_fault, push_kind, push_place};
use crate::values::assert_same;
use c_tokens::{Token, TokenKind};
use fc_base::{Fault, Place, Refusal, Rule};
use std::alloc::{AllocError, Global};
use std::process::Abort;
use std::test::Fail;

/// The numbers of the bytes of a string literal.
fn push_numbers(out: &mut String, bytes: &[u8]) -> Result<(), AllocError> {
    out.push('"')?;
    for b in bytes {
        write!(out, "{b},")?;
    }
    out.push('"')
}

/// The kind as a text, a string literal as the numbers of its bytes.
fn push_lexed(out: &mut String, kind: &TokenKind) -> Result<(), AllocError> {
    match kind {
        TokenKind::Str(text) => push_numbers(out, text.bytes()),
        _ => push_kind(out, kind),
    }
}

fn push_tokens(out: &mut String, tokens: &[Token]) -> Result<(), AllocError> {
    for token in tokens {
        push_lexed(out, &token.kind)?;
        push_place(out, token)?;
    }
    Ok(())
}

/// The tokens with their places, or the refusal.
fn shown(alloc: Global, source: &[u8]) -> Result<String, AllocError> {
    let mut out = String::new(alloc);
    let pushed = match lexed(alloc, source) {
        Ok(tokens) => push_tokens(&mut out, &tokens),
        Err(fault) => push_fault(&mut out, fault),
    };
    pushed?;
    Ok(out)
}

/// Asserts of each source that it is shown so.
fn assert_shown(rt: &impl Abort, alloc: Global, rows: &[(&[u8], &str)]) -> Result<(), AllocError> {
    for &(source, want) in rows {
        let got = shown(alloc, source)?;
        assert_same(rt, got.as_str(), want);
    }
    Ok(())
}

const TOKENS: &[(&[u8], &str)] = &[
    (b"", ""),
    (b"a+++b", "a 1:1^\n++ 1:2\n+ 1:4\nb 1:5\n"),
    (b"a---b", "a 1:1^\n-- 1:2\n- 1:4\nb 1:5\n"),
    (b"<<=...->", "<<= 1:1^\n... 1:4\n-> 1:7\n"),
    (b".. ##", ". 1:1^\n. 1:2\n## 1:4_\n"),
    (b"a/**/b/*\n*/c//d\n e", "a 1:1^\nb 1:6_\nc 2:3_\ne 3:2^_\n"),
    (b"re\\\nturn x", "return 1:1^\nx 2:6_\n"),
    (b"+\\\n= 1", "+= 1:1^\n1d0 2:3_\n"),
    (b"/* *\\\n/ a", "a 2:3^_\n"),
    (b"'\\\\\nn' '\\\\\n\\'", "'10' 1:1^\n'92' 2:4_\n"),
    (
        b"'\\0' '\\377' '\\x7f' '\"' '\xff'",
        "'0' 1:1^\n'255' 1:6_\n'127' 1:13_\n'34' 1:20_\n'255' 1:24_\n",
    ),
    (b"\"a\\n\\\"\\1234//\"", "\"97,10,34,83,52,47,47,\" 1:1^\n"),
    (b"\"\" \"\x80\0\"", "\"\" 1:1^\n\"128,0,\" 1:4_\n"),
    (
        b"0 7u 07L 0xFll 9ULL 3LLu",
        "00 1:1^\n7du0 1:3_\n71 1:6_\n152 1:10_\n9du2 1:16_\n3du2 1:21_\n",
    ),
    (
        b"18446744073709551615 0x0ffffffffffffffff",
        "18446744073709551615d0 1:1^\n184467440737095516150 1:22_\n",
    ),
    (
        b" # /**/ include <a b\\>x<y",
        "# 1:2^_\ninclude 1:9_\n<a b\\> 1:17_\nx 1:23\n< 1:24\ny 1:25\n",
    ),
    (
        b"#include <>\n<a>",
        "# 1:1^\ninclude 1:2\n<> 1:10_\n< 2:1^_\na 2:2\n> 2:3\n",
    ),
    (
        b"x #include <a>",
        "x 1:1^\n# 1:3_\ninclude 1:4\n< 1:12_\na 1:13\n> 1:14\n",
    ),
    (
        b"#include \"a.h\"",
        "# 1:1^\ninclude 1:2\n\"97,46,104,\" 1:10_\n",
    ),
    (b"u8 L\x0b\x0c\tU1", "u8 1:1^\nL 1:4_\nU1 1:8_\n"),
    (b"\"\\0001\"", "\"0,49,\" 1:1^\n"),
    (b"//a\\\nb\nc", "c 3:1^_\n"),
    (b"#\\\ninclude <a>", "# 1:1^\ninclude 2:1\n<a> 2:9_\n"),
    (b"/*\n*/#include <a>", "# 2:3^_\ninclude 2:4\n<a> 2:12_\n"),
    (
        b"#define include <a>",
        "# 1:1^\ndefine 1:2\ninclude 1:9_\n< 1:17_\na 1:18\n> 1:19\n",
    ),
    (
        b"#include <a//b'c>",
        "# 1:1^\ninclude 1:2\n<a//b'c> 1:10_\n",
    ),
    (b"1uLL 0XFuL", "1du2 1:1^\n15u1 1:6_\n"),
    (b"%:<::>", "% 1:1^\n: 1:2\n< 1:3\n: 1:4\n: 1:5\n> 1:6\n"),
    (b"u8 'x'", "u8 1:1^\n'120' 1:4_\n"),
    (b"\"\\x000000000000000000000041\"", "\"65,\" 1:1^\n"),
    (b"/", "/ 1:1^\n"),
    (b".", ". 1:1^\n"),
    (b"a/b", "a 1:1^\n/ 1:2\nb 1:3\n"),
    (b"/*\r\0\x01*/a", "a 1:8^_\n"),
    (b"xL'a'", "xL 1:1^\n'97' 1:3\n"),
    (b"#include /*\n*/ <a>", "# 1:1^\ninclude 1:2\n<a> 2:4_\n"),
    (b"\\\n\\\n\na", "a 4:1^_\n"),
    (b"1+x", "1d0 1:1^\n+ 1:2\nx 1:3\n"),
    (
        b"\"\\?\\a\\b\\f\\n\\r\\t\\v\\'\"",
        "\"63,7,8,12,10,13,9,11,39,\" 1:1^\n",
    ),
];

#[test]
fn rows_of_tokens(rt: HostRuntime) -> Result<(), Fail> {
    Ok(assert_shown(&rt, rt.alloc(), TOKENS)?)
}

const REFUSALS: &[(&[u8], &str)] = &[
    (b"'\\400'", "bad-escape 1:2"),
    (b"\"ab\\q\"", "bad-escape 1:4"),
    (b"\"\\x\" \"\\8\"", "bad-escape 1:2"),
    (b"'\\x100'", "bad-escape 1:2"),
    (b"'\\\\\nq'", "bad-escape 1:2"),
    (b"18446744073709551616", "big-number 1:1"),
    (b"0x10000000000000000u", "big-number 1:1"),
    (b"02000000000000000000000", "big-number 1:1"),
    (b"\"a\n", "open-text 1:1"),
    (b"\"\\q\n\"", "open-text 1:1"),
    (b"'a\\'", "open-text 1:1"),
    (b"\"a\\\\\n\n", "open-text 1:1"),
    (b"#include <a\n>", "open-text 1:10"),
    (b"int main(void) { return 'ab'; }", "left-out-literal 1:25"),
    (b"1.5", "left-out-literal 1:1"),
    (b" .5", "left-out-literal 1:2"),
    (b"1..2", "left-out-literal 1:1"),
    (b"0xe+1", "left-out-literal 1:1"),
    (b"0x", "left-out-literal 1:1"),
    (b"08", "left-out-literal 1:1"),
    (b"0b1", "left-out-literal 1:1"),
    (b"1lul", "left-out-literal 1:1"),
    (b"1lL", "left-out-literal 1:1"),
    (b"99999999999999999999x", "left-out-literal 1:1"),
    (b"L'x'", "left-out-literal 1:1"),
    (b"u8\"a\"", "left-out-literal 1:1"),
    (b"U\"a", "left-out-literal 1:1"),
    (b"x ''", "left-out-literal 1:3"),
    (b"'\\q1'", "left-out-literal 1:1"),
    (b"/* x", "open-comment 1:1"),
    (b"a /\\\n* x *\\\n", "open-comment 1:3"),
    (b"/*/", "open-comment 1:1"),
    (b"a\0", "bad-byte 1:2"),
    (b"a\n\x80", "bad-byte 2:1"),
    (b"a @", "bad-byte 1:3"),
    (b"$ '", "bad-byte 1:1"),
    (b"a\\", "bad-byte 1:2"),
    (b"a;\r\n", "bad-byte 1:3"),
    (b"\\u0041", "bad-byte 1:1"),
    (b"1 '' @ \"", "left-out-literal 1:3"),
    (b"\"a\\\nb\\q\"", "bad-escape 2:2"),
    (b"'\\0001'", "left-out-literal 1:1"),
    (b"1Ll", "left-out-literal 1:1"),
    (b"0xu", "left-out-literal 1:1"),
    (b"u8'x'", "left-out-literal 1:1"),
    (b"\"\\xfffffffffffffffffffff\"", "bad-escape 1:2"),
    (b"'", "open-text 1:1"),
    (b"\"a", "open-text 1:1"),
    (b"#if 0\ndon't\n#endif", "open-text 2:4"),
    (b"1e+x", "left-out-literal 1:1"),
    (b"'\\'", "open-text 1:1"),
];

#[test]
fn rows_of_refusals(rt: HostRuntime) -> Result<(), Fail> {
    Ok(assert_shown(&rt, rt.alloc(), REFUSALS)?)
}

/// How many tokens so many semicolons are, or the refusal.
fn counted(alloc: Global, semicolons: usize) -> Result<usize, Fault> {
    let source = vec![in alloc; b';'; semicolons]?;
    Ok(lexed(alloc, &source)?.len())
}

#[test]
fn one_token_over_the_limit(rt: HostRuntime) {
    assert_same(&rt, counted(rt.alloc(), 1_000_000), Ok(1_000_000));
    let place = Place {
        line: 1,
        col: 1_000_001,
    };
    let over = Err(Fault::Refused(Refusal {
        rule: Rule::LimitTokens,
        place,
    }));
    assert_same(&rt, counted(rt.alloc(), 1_000_001), over);
}
