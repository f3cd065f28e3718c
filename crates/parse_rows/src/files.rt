//! Rows of whole files (C11 6.9), and the limits on brackets and on heights.

use crate::sources::{assert_joined, assert_rows, assert_shown, repeated, shown};
use fc_base::NoMemory;
use std::alloc::{AllocError, Global};
use std::process::Abort;
use std::test::Fail;

/// Names of types (C11 6.7.8), external declarations and files (C11 6.9).
const FILES: &[(&str, &str)] = &[
    ("", ""),
    ("\n  \n", ""),
    ("int a; int b;", "Int a; Int b; "),
    (
        "int f(void) { return 0; } int a;",
        "Int f function(void) {return 0; }; Int a; ",
    ),
    (
        "int (*f(int a))[2] { return a; }",
        "Int f function(1) pointer1 array2 {return a; }; ",
    ),
    (
        "<stddef.h>\nsize_t a; ptrdiff_t b;",
        "header; size_t a; ptrdiff_t b; ",
    ),
    ("int b; size_t a;", "syntax 1:8"),
    (
        "typedef int T, *U;\nT a; U b; unsigned c;",
        "typedef Int T, U pointer1; T a; U b; Unsigned c; ",
    ),
    (
        "typedef int f(void); f a;",
        "typedef Int f function(void); f a; ",
    ),
    (
        "typedef int T; typedef T U; U a;",
        "typedef Int T; typedef T U; U a; ",
    ),
    (
        "typedef int T; int f(void) { T a; b * c; T * d; }",
        "typedef Int T; Int f function(void) {T a; ..; T d pointer1; }; ",
    ),
    ("typedef int T; struct T a;", "typedef Int T; Struct T a; "),
    ("typedef int T; T f(T T) { return T; }", "syntax 1:16"),
    ("typedef int T; int T;", "syntax 1:16"),
    ("typedef int T; unsigned T;", "syntax 1:16"),
    ("typedef int T; T long a;", "syntax 1:16"),
    ("int T; T a;", "syntax 1:8"),
    // the first refusal, at the first token of its declaration
    ("int x;\nint main(void) { return 0 }", "syntax 2:1"),
    ("int x;\n  int main(void) { return 0; }\n }", "syntax 3:2"),
    ("int x; ; int y;", "syntax 1:8"),
    ("int x; int", "syntax 1:8"),
    ("int f(a) int a; { }", "syntax 1:1"),
    ("int main(void) {\n    goto x;\n}", "left-out-keyword 2:5"),
    ("int x\n  float y;", "left-out-keyword 2:3"),
];

/// The keywords of C11 6.4.1 that the grammar leaves out.
const LEFT_OUT: &[&str] = &[
    "_Alignas",
    "_Alignof",
    "_Atomic",
    "_Bool",
    "_Complex",
    "_Generic",
    "_Imaginary",
    "_Noreturn",
    "_Static_assert",
    "_Thread_local",
    "auto",
    "double",
    "float",
    "goto",
    "register",
    "volatile",
];

#[test]
fn trees_of_files(rt: HostRuntime) -> Result<(), Fail> {
    Ok(assert_rows(&rt, rt.alloc(), FILES)?)
}

#[test]
fn keywords_left_out(rt: HostRuntime) -> Result<(), Fail> {
    let alloc = rt.alloc();
    for &word in LEFT_OUT {
        assert_joined(&rt, alloc, &["int a; ", word], &["left-out-keyword 1:8"])?;
    }
    Ok(())
}

/// Texts before and behind `0` in so many brackets.
const BRACKETS: &[(&str, u32, &str, &str)] = &[
    // 24 bytes stand before the first of them, and the brace among those is open too
    (
        "int main(void) { return ",
        199,
        "; }",
        "Int main function(void) {return 0; }; ",
    ),
    ("int main(void) { return ", 200, "; }", "limit-depth 1:224"),
    ("int a = ", 200, ";", "Int a = 0; "),
    ("int a = ", 201, ";", "limit-depth 1:209"),
    // a bracket that closes none takes none away
    ("} int a = ", 200, ";", "syntax 1:1"),
    ("} int a = ", 201, ";", "limit-depth 1:211"),
    // brackets come before the grammar, and keywords before both
    ("int\nint a = ", 201, ";", "limit-depth 2:209"),
    ("int\nint a = ", 201, " goto;", "left-out-keyword 2:413"),
];

/// `0` in so many brackets.
fn bracketed(alloc: Global, start: &str, times: u32, end: &str) -> Result<String, AllocError> {
    let open = repeated(alloc, start, "(", times, "0")?;
    repeated(alloc, open.as_str(), ")", times, end)
}

/// Asserts the tree or the refusal of that.
fn assert_bracketed(
    rt: &impl Abort,
    alloc: Global,
    start: &str,
    times: u32,
    end: &str,
    tree: &str,
) -> Result<(), NoMemory> {
    let text = bracketed(alloc, start, times, end)?;
    assert_shown(rt, alloc, text.as_str(), tree)
}

#[test]
fn brackets(rt: HostRuntime) -> Result<(), Fail> {
    let alloc = rt.alloc();
    for &(start, times, end, tree) in BRACKETS {
        assert_bracketed(&rt, alloc, start, times, end, tree)?;
    }
    Ok(())
}

/// Texts whose middle may stand so often and no oftener, but for those of 1,000: a tree is at most 400 nodes high.
const HEIGHTS: &[(&str, &str, u32, &str)] = &[
    // 397 terms are 397 high, and stand in a return, a block and a function
    ("int main(void) { return 0", " + 0", 396, "; }"),
    // 0 is 1 high, and stands in a return, a block and a function
    ("int main(void) { return ", "- ", 396, "0; }"),
    // the last statement is 1 high, and the first stands in a block and a function
    ("int main(void) { ", "if (a) ; else ", 397, "; }"),
    ("int main(void) { ", "while (a) ", 397, "; }"),
    // the name is 1 high, and the declarator stands in a declaration
    ("int a", "[1]", 398, ";"),
    ("int f(int a", "[1]", 397, ");"),
    // operands that stand beside one another
    ("int a[] = {0", ", 0", 1000, "};"),
    ("int a", ", a", 1000, ";"),
];

/// Asserts that the first declaration is one of an int.
fn assert_int(rt: &impl Abort, alloc: Global, source: &str) -> Result<(), NoMemory> {
    assert!(rt; shown(alloc, source)?.starts_with("Int "));
    Ok(())
}

/// Asserts that a declaration of an int may have its middle so many times.
fn assert_high(
    rt: &impl Abort,
    alloc: Global,
    start: &str,
    middle: &str,
    times: u32,
    end: &str,
) -> Result<(), NoMemory> {
    let text = repeated(alloc, start, middle, times, end)?;
    assert_int(rt, alloc, text.as_str())
}

/// Asserts that it may not.
fn assert_too_high(
    rt: &impl Abort,
    alloc: Global,
    start: &str,
    middle: &str,
    times: u32,
    end: &str,
) -> Result<(), NoMemory> {
    let text = repeated(alloc, start, middle, times, end)?;
    assert_shown(rt, alloc, text.as_str(), "syntax 1:1")
}

#[test]
fn heights(rt: HostRuntime) -> Result<(), Fail> {
    let alloc = rt.alloc();
    for &(start, middle, most, end) in HEIGHTS {
        assert_high(&rt, alloc, start, middle, most, end)?;
        if most < 1000 {
            assert_too_high(&rt, alloc, start, middle, most + 1, end)?;
        }
    }
    assert_too_high(&rt, alloc, "int main(void) { return 0", " + 0", 399, "; }")?;
    Ok(())
}
