//! Sources with their form or refusal, worked out by hand from C11 6.4 to 6.10 and from the rules of the subset.

use crate::values::assert_same;
use c_front::{Form, read_form_of};
use fc_base::{Fault, Level, NoMemory, Place, Refusal};
use std::alloc::{AllocError, Global};
use std::process::Abort;
use std::test::Fail;

/// The form's numbers and the place of its call.
fn push_form(out: &mut String, form: &Form) -> Result<(), AllocError> {
    let Place { line, col } = form.call;
    write!(out, "{} {} {}", form.size, form.byte, form.count)?;
    write!(out, " {} {line}:{col}", form.result)
}

/// The rule that is broken, and where.
fn push_refusal(out: &mut String, refusal: Refusal) -> Result<(), AllocError> {
    let Refusal { rule, place } = refusal;
    write!(out, "{} {}:{}", rule.name(), place.line, place.col)
}

/// The form or the refusal.
fn push_outcome(out: &mut String, outcome: &Result<Form, Fault>) -> Result<(), AllocError> {
    match outcome {
        Ok(form) => push_form(out, form),
        Err(Fault::Refused(refusal)) => push_refusal(out, *refusal),
        Err(Fault::NoMemory) => out.push_str("no memory"),
    }
}

/// What a source that is not too long comes to.
fn push_source(
    out: &mut String,
    alloc: Global,
    source: &[u8],
    level: Level,
) -> Result<(), AllocError> {
    if source.len() < 4_294_967_295 {
        push_outcome(out, &read_form_of(alloc, source, level))
    } else {
        Ok(())
    }
}

/// Asserts that the source comes to this.
fn assert_read(
    rt: &impl Abort,
    alloc: Global,
    source: &[u8],
    level: Level,
    want: &str,
) -> Result<(), NoMemory> {
    let mut out = String::new(alloc);
    push_source(&mut out, alloc, source, level)?;
    assert_same(rt, out.as_str(), want);
    Ok(())
}

const AT_LEVEL_THREE: &[(&[u8], &str)] = &[
    // the form, however it is laid out
    (
        b"#include <string.h>\nint main(void) { char b[8]; memset(b, 65, 8); return 3; }\n",
        "8 65 8 3 2:29",
    ),
    (
        b"#include <string.h>\nint main(void) { char b[1]; memset(b, 255, 9); return 255; }",
        "1 255 9 255 2:29",
    ),
    (
        b"#include <string.h>\nint main(void){char b[4096];memset(b,0,65535);return 0;}",
        "4096 0 65535 0 2:29",
    ),
    (
        b"#include <string.h>\nint main(void) { char  b[8]; memset(b, 65, 8); return 3; }",
        "8 65 8 3 2:30",
    ),
    (
        b"\n\n#include<string.h>\n\tint\nmain ( void\n) { char b [ 8 ] ;\nmemset ( b , 65 , 8 ) ; return 3 ; }\n\n",
        "8 65 8 3 7:1",
    ),
    (
        b"#inc\\\nlude <string.h>\nint main(void) { char b[1\\\n6]; mem\\\nset(b, 65, 8); return 3; }",
        "16 65 8 3 4:5",
    ),
    (
        b"/* a */#include <string.h> // b\nint main(void) { char b[8]; /*\n*/memset(b, 65, 8); return 3; }//",
        "8 65 8 3 3:3",
    ),
    (
        b"#include <string.h>\nint main(void) { char b[8]; memset(b, 0x0, 00); return 000; }",
        "8 0 0 0 2:29",
    ),
    // macros that come to it, and directives
    (
        b"#include <string.h>\n#define SIZE 8\n#define SET memset(b, 65, SIZE)\nint main(void) { char b[SIZE]; SET; return 3; }",
        "8 65 8 3 4:32",
    ),
    (
        b"#include <string.h>\n#define CALL(f, n) f(b, 65, n)\nint main(void) { char b[8]; CALL(memset, 8); return 3; }",
        "8 65 8 3 3:34",
    ),
    (
        b"#include <string.h>\n#include <string.h>\nint main(void) { char b[8]; memset(b, 65, 8); return 3; }",
        "8 65 8 3 3:29",
    ),
    (
        b"#include <string.h>\nint main(void) { char b[8]; memset(b, 65, 8); return _FORTIFY_SOURCE; }",
        "8 65 8 3 2:29",
    ),
    (
        b"#include <string.h>\nint main(void) { char b[8]; memset(b, 65,\n#if _FORTIFY_SOURCE == 3\n8\n#else\n9\n#endif\n); return 3; }",
        "8 65 8 3 2:29",
    ),
    (
        b"#if 0\n#include <stdio.h>\n#endif\n#include <string.h>\n#\nint main(void) { char b[8]; memset(b, 65, 8); return 3; }",
        "8 65 8 3 6:29",
    ),
    // other tokens
    (b"", "not-this-form 1:1"),
    (
        b"int main(void) { char b[8]; memset(b, 65, 8); return 3; }",
        "not-this-form 1:1",
    ),
    (
        b"#include <strings.h>\nint main(void) { char b[8]; memset(b, 65, 8); return 3; }",
        "not-this-form 1:1",
    ),
    (
        b"#include <string.h>\n#include <stddef.h>\nint main(void) { char b[8]; memset(b, 65, 8); return 3; }",
        "not-this-form 1:1",
    ),
    (
        b"int main(void) { char b[8]; memset(b, 65, 8); return 3; }\n#include <string.h>\n",
        "not-this-form 1:1",
    ),
    (
        b"#include <string.h>\nint main() { char b[8]; memset(b, 65, 8); return 3; }",
        "not-this-form 1:1",
    ),
    (
        b"#include <string.h>\nint main(void) { char b[8]; memset(c, 65, 8); return 3; }",
        "not-this-form 1:1",
    ),
    (
        b"#include <string.h>\nint main(void) { char b[8]; memcpy(b, 65, 8); return 3; }",
        "not-this-form 1:1",
    ),
    (
        b"#include <string.h>\nint main(void) { char b[8]; memset(b, 65, 8); return 3;; }",
        "not-this-form 1:1",
    ),
    (
        b"#include <string.h>\nint main(void) { char b[]; memset(b, 65, 8); return 3; }",
        "not-this-form 1:1",
    ),
    (
        b"#include <string.h>\nint main(void) { char b[8]; memset(b, 'A', 8); return 3; }",
        "not-this-form 1:1",
    ),
    (
        b"#include <string.h>\nint main(void) { char b[8]; memset(b, +65, 8); return 3; }",
        "not-this-form 1:1",
    ),
    // other numbers
    (
        b"#include <string.h>\nint main(void) { char b[0]; memset(b, 65, 8); return 3; }",
        "not-this-form 1:1",
    ),
    (
        b"#include <string.h>\nint main(void) { char b[4097]; memset(b, 65, 8); return 3; }",
        "not-this-form 1:1",
    ),
    (
        b"#include <string.h>\nint main(void) { char b[8]; memset(b, 256, 8); return 3; }",
        "not-this-form 1:1",
    ),
    (
        b"#include <string.h>\nint main(void) { char b[8]; memset(b, 65, 65536); return 3; }",
        "not-this-form 1:1",
    ),
    (
        b"#include <string.h>\nint main(void) { char b[8]; memset(b, 65, 4294967304); return 3; }",
        "not-this-form 1:1",
    ),
    (
        b"#include <string.h>\nint main(void) { char b[8]; memset(b, 65, 8); return 256; }",
        "not-this-form 1:1",
    ),
    (
        b"#include <string.h>\nint main(void) { char b[0x8]; memset(b, 65, 8); return 3; }",
        "not-this-form 1:1",
    ),
    (
        b"#include <string.h>\nint main(void) { char b[8]; memset(b, 0101, 8); return 3; }",
        "not-this-form 1:1",
    ),
    (
        b"#include <string.h>\nint main(void) { char b[8]; memset(b, 65, 8u); return 3; }",
        "not-this-form 1:1",
    ),
    (
        b"#include <string.h>\nint main(void) { char b[8]; memset(b, 65, 8); return 3ll; }",
        "not-this-form 1:1",
    ),
    // other declarations, and no token at all
    (b"int x, *y; char z[3];", "not-this-form 1:1"),
    (b"/* a */\n#define goto", "not-this-form 1:1"),
    (b"#if 0\ngoto x;\n#endif\n", "not-this-form 1:1"),
    // what is refused before
    (
        b"#include <string.h>\nint main(void) { char b[08]; memset(b, 65, 8); return 3; }",
        "left-out-literal 2:25",
    ),
    (
        b"#include <string.h>\r\nint main(void) { char b[8]; memset(b, 65, 8); return 3; }",
        "bad-byte 1:20",
    ),
    (b"\xff\xfe", "bad-byte 1:1"),
    (b"int x; '\\400'", "bad-escape 1:9"),
    (
        b"#include \"string.h\"\nint main(void) { char b[8]; memset(b, 65, 8); return 3; }",
        "unknown-header 1:1",
    ),
    (
        b"#include <string.h>\n#define memset(a) a\nint main(void) { char b[8]; memset(b, 65, 8); return 3; }",
        "macro-arguments 3:29",
    ),
    (
        b"#if 1\n#include <string.h>\nint main(void) { char b[8]; memset(b, 65, 8); return 3; }",
        "open-conditional 1:1",
    ),
    (b"#error x\nint x;", "unknown-directive 1:1"),
    (b"#error x\n\"a\n", "open-text 2:1"),
];

#[test]
fn sources_at_level_three(rt: HostRuntime) -> Result<(), Fail> {
    for &(source, want) in AT_LEVEL_THREE {
        assert_read(&rt, rt.alloc(), source, Level::Three, want)?;
    }
    Ok(())
}

const REFUSED: &[(&[u8], &str)] = &[
    (b"goto x;\n#error x\n'ab'", "left-out-literal 3:1"),
    (b"goto x;\n#error x\n", "unknown-directive 2:1"),
    (b"return 0 }\ngoto x;", "left-out-keyword 2:1"),
    (b"return 0 }", "syntax 1:1"),
    // keywords that are left out
    (b"int main(void) {\n  goto x;\n}\n", "left-out-keyword 2:3"),
    (
        b"#define jump goto\nint main(void) { jump x; }",
        "left-out-keyword 2:18",
    ),
    (
        b"int main(void) { return 0; }\nvolatile int x; float y;",
        "left-out-keyword 2:1",
    ),
    // external declarations without a derivation
    (b";", "syntax 1:1"),
    (b"int x", "syntax 1:1"),
    (b"int x;\nint main(void) { return 0 }", "syntax 2:1"),
    (b"int x; float_t y; goto_t z;", "syntax 1:8"),
    (b"typedef int T; T f(T T) { return T; }", "syntax 1:16"),
    (
        b"typedef int T; T f(T t) { return t; }",
        "not-this-form 1:1",
    ),
    (b"size_t n;\n#include <string.h>", "syntax 1:1"),
    (b"#include <string.h>\nsize_t n;", "not-this-form 1:1"),
    // the names of types that a header brings
    (
        b"#include <string.h>\n#include <stdio.h>\n#include <stdlib.h>\nsize_t a; ssize_t b;",
        "syntax 4:11",
    ),
    (b"#include <stdio.h>\nsize_t n;", "not-this-form 1:1"),
    (b"#include <stdlib.h>\nsize_t n;", "not-this-form 1:1"),
    (b"#include <strings.h>\nsize_t n;", "syntax 2:1"),
    (
        b"#include <unistd.h>\nsize_t a; ssize_t b;",
        "not-this-form 1:1",
    ),
    (
        b"#include <stdint.h>\nint8_t a; int16_t b; int32_t c; int64_t d; uint8_t e; uint16_t f; uint32_t g; uint64_t h;",
        "not-this-form 1:1",
    ),
    (
        b"int main(void) {\n#include <string.h>\nreturn 0; }",
        "syntax 1:1",
    ),
    (
        b"#include <string.h>\nint main(void) { char b[8]; memset(b, 65, 8); return 3;",
        "syntax 2:1",
    ),
];

/// The whole file is lexed before it is preprocessed, preprocessed before it is parsed, and parsed before it is read.
#[test]
fn the_first_phase_that_refuses(rt: HostRuntime) -> Result<(), Fail> {
    for &(source, want) in REFUSED {
        assert_read(&rt, rt.alloc(), source, Level::Three, want)?;
    }
    Ok(())
}

fn push_repeated(source: &mut Vec<u8>, byte: u8, times: usize) -> Result<(), NoMemory> {
    for _ in 0..times {
        source.push(byte)?;
    }
    Ok(())
}

/// A function that returns 0 in so many brackets.
fn push_bracketed(source: &mut Vec<u8>, times: usize) -> Result<(), NoMemory> {
    source.extend_from_slice(b"int main(void) { return ")?;
    push_repeated(source, b'(', times)?;
    source.push(b'0')?;
    push_repeated(source, b')', times)?;
    source.extend_from_slice(b"; }")?;
    Ok(())
}

/// Asserts what that function comes to.
fn assert_bracketed(
    rt: &impl Abort,
    alloc: Global,
    times: usize,
    want: &str,
) -> Result<(), NoMemory> {
    let mut source = Vec::new(alloc);
    push_bracketed(&mut source, times)?;
    assert_read(rt, alloc, &source, Level::Three, want)
}

const BRACKETED: &[(usize, &str)] = &[(199, "not-this-form 1:1"), (200, "limit-depth 1:224")];

/// So many opening brackets between two texts.
fn push_opened(
    source: &mut Vec<u8>,
    before: &[u8],
    times: usize,
    behind: &[u8],
) -> Result<(), NoMemory> {
    source.extend_from_slice(before)?;
    push_repeated(source, b'(', times)?;
    source.extend_from_slice(behind)?;
    Ok(())
}

/// Asserts what these come to.
fn assert_opened(
    rt: &impl Abort,
    alloc: Global,
    &(before, times, behind, want): &(&[u8], usize, &[u8], &str),
) -> Result<(), NoMemory> {
    let mut source = Vec::new(alloc);
    push_opened(&mut source, before, times, behind)?;
    assert_read(rt, alloc, &source, Level::Three, want)
}

const OPENED: &[(&[u8], usize, &[u8], &str)] = &[
    (b"", 201, b" goto", "left-out-keyword 1:203"),
    (b";", 201, b"", "limit-depth 1:202"),
    (b";", 200, b"", "syntax 1:1"),
];

#[test]
fn brackets_at_their_limit(rt: HostRuntime) -> Result<(), Fail> {
    for &(times, want) in BRACKETED {
        assert_bracketed(&rt, rt.alloc(), times, want)?;
    }
    for row in OPENED {
        assert_opened(&rt, rt.alloc(), row)?;
    }
    Ok(())
}

const AT_LEVEL_ZERO: &[(&[u8], &str)] = &[
    (
        b"#include <string.h>\nint main(void) { char b[8]; memset(b, 65, 8); return _FORTIFY_SOURCE; }",
        "8 65 8 0 2:29",
    ),
    (
        b"#include <string.h>\nint main(void) { char b[8]; memset(b, 65,\n#if _FORTIFY_SOURCE == 3\n8\n#else\n9\n#endif\n); return 3; }",
        "8 65 9 3 2:29",
    ),
];

#[test]
fn sources_at_level_zero(rt: HostRuntime) -> Result<(), Fail> {
    for &(source, want) in AT_LEVEL_ZERO {
        assert_read(&rt, rt.alloc(), source, Level::Zero, want)?;
    }
    Ok(())
}
