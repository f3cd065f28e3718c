//! Sources, with the tokens or the refusal that C11 6.10 and the rules of this preprocessor give them.

use crate::texts::{lexed, push_fault, push_kind, push_place};
use crate::values::assert_same;
use c_macros::expand;
use c_tokens::Token;
use fc_base::{Fault, Level};
use std::alloc::{AllocError, Global};
use std::process::Abort;
use std::test::Fail;

/// The kinds with a space behind each.
fn push_kinds(out: &mut String, tokens: &[Token]) -> Result<(), AllocError> {
    for token in tokens {
        push_kind(out, &token.kind)?;
        out.push(' ')?;
    }
    Ok(())
}

/// Each token with its place.
fn push_placed(out: &mut String, tokens: &[Token]) -> Result<(), AllocError> {
    for token in tokens {
        push_kind(out, &token.kind)?;
        push_place(out, token)?;
    }
    Ok(())
}

fn expanded(alloc: Global, source: &[u8], level: Level) -> Result<Vec<Token>, Fault> {
    let list = lexed(alloc, source)?;
    expand(alloc, &list, level)
}

/// The kinds of the tokens, or the refusal.
fn kinds(alloc: Global, outcome: Result<Vec<Token>, Fault>) -> Result<String, AllocError> {
    let mut out = String::new(alloc);
    let pushed = match outcome {
        Ok(tokens) => push_kinds(&mut out, &tokens),
        Err(fault) => push_fault(&mut out, fault),
    };
    pushed?;
    Ok(out)
}

/// The tokens with their places, or the refusal.
fn placed(alloc: Global, outcome: Result<Vec<Token>, Fault>) -> Result<String, AllocError> {
    let mut out = String::new(alloc);
    let pushed = match outcome {
        Ok(tokens) => push_placed(&mut out, &tokens),
        Err(fault) => push_fault(&mut out, fault),
    };
    pushed?;
    Ok(out)
}

/// Asserts that these are the kinds that the source expands to, or its refusal.
fn assert_shown(
    rt: &impl Abort,
    alloc: Global,
    source: &[u8],
    want: &str,
) -> Result<(), AllocError> {
    let got = kinds(alloc, expanded(alloc, source, Level::Three))?;
    assert_same(rt, got.as_str(), want);
    Ok(())
}

/// Asserts of each source that it expands to the tokens of the text beside it, which has no directives.
fn assert_expanded(
    rt: &impl Abort,
    alloc: Global,
    rows: &[(&[u8], &[u8])],
) -> Result<(), AllocError> {
    for &(source, text) in rows {
        let want = kinds(alloc, lexed(alloc, text))?;
        assert_shown(rt, alloc, source, want.as_str())?;
    }
    Ok(())
}

const LISTS: &[(&[u8], &[u8])] = &[
    (b"", b""),
    (
        b"int foo = 2;\n#define foo (4 + foo)\nint main(void) { return foo; }",
        b"int foo = 2; int main(void) { return (4 + foo); }",
    ),
    // The third example of C11 6.10.3.5, without the operators of replacement lists.
    (
        b"#define x 3\n#define f(a) f(x * (a))\n#undef x\n#define x 2\n#define g f\n#define z z[0]\n#define h g(~\n#define m(a) a(w)\n#define w 0,1\n#define t(a) a\n#define p() int\n#define q(x) x\nf(y+1) + f(f(z)) % t(t(g)(0) + t)(1);\ng(x+(3,4)-w) | h 5) & m\n(f)^m(m);\np() i[q()] = { q(1) };",
        b"f(2 * (y+1)) + f(2 * (f(2 * (z[0])))) % f(2 * (0)) + t(1);\nf(2 * (2+(3,4)-0,1)) | f(2 * (~ 5)) & f(2 * (0,1))^m(0,1);\nint i[] = { 1 };",
    ),
    // The result is looked at again, with the rest of the list behind it.
    (b"#define a b\n#define b 1\na", b"1"),
    (b"#define f(x) [x]\n#define g f\ng(1) g", b"[1] f"),
    (b"#define f(x) [x]\n#define g 7 f\ng\n(1)", b"7 [1]"),
    (b"#define f(x) [x]\n#define o (\nf o 1) f(o)", b"f ( 1) [(]"),
    (b"#define f(x) [x]\n#define t(x) x\nt(f)(1)", b"[1]"),
    (
        b"#define f(x) x + g\n#define g(x) x * f\nf(1)(2)(3)(4)",
        b"1 + 2 * 3 + 4 * f",
    ),
    // A name is not replaced within its own replacement, and is free again behind it.
    (b"#define a a 1\na a", b"a 1 a 1"),
    (b"#define a b\n#define b a\na b", b"a b"),
    (b"#define a a b\n#define b a\na", b"a a"),
    (b"#define a b c\n#define b c a\n#define c b\na", b"b a c a"),
    (
        b"#define f(x) g(x) x\n#define g(x) f(x)\nf(1) g(2)",
        b"f(1) 1 g(2) 2",
    ),
    (b"#define f(a) a*g\n#define g(a) f(a)\nf(2)(9)", b"2*9*g"),
    // Preprocessors differ here (C11 6.10.3.4p4): of a call that ends behind the replacement list it began in, only the names that are
    // hidden in its closing bracket too stay hidden.
    (b"#define f(x) x g\n#define g f(f(2)\ng )", b"2 g f(f(2)"),
    (b"#define f(x) x f\nf(1)(2)", b"1 f(2)"),
    (b"#define f(x) f\nf(1)(2) f(3)", b"f(2) f"),
    // A name that was not replaced stays so where it is looked at again.
    (b"#define a b\n#define b c a\n#define t(x) x\nt(a)", b"c a"),
    (
        b"#define t(x) x\n#define f(x) x + t(x)\nf(f(1)) f(f)(2)",
        b"1 + 1 + 1 + 1 f + f(2)",
    ),
    (b"#define t(x) x\nt(t(1)) t(t)(1)", b"1 t(1)"),
    // A macro with parameters and without brackets behind it.
    (b"#define f(x) x\nf f\n(1) f", b"f 1 f"),
    (b"#define f(x) x\nf\n#\n(1)", b"f (1)"),
    (b"#define f(x) x\n#define E\nf E (1)", b"f (1)"),
    (b"#define a (x) x\na(1)", b"(x) x(1)"),
    // Arguments.
    (
        b"#define f(x, y) y x\nf((1, 2), 3) f((1, (2, 3)), (4))",
        b"3 (1, 2) (4) (1, (2, 3))",
    ),
    (
        b"#define f(x, y) [x|y]\nf(,1) f(1,) f(,) f([1,2)",
        b"[|1] [1|] [|] [[1|2]",
    ),
    (
        b"#define f(x) [x]\n#define p() 1\n#define E\nf() f( ) f(E) f(()) p() p( )",
        b"[] [] [] [()] 1 1",
    ),
    (
        b"#define c 1,2\n#define f(x) [x]\nf(c) f((c))",
        b"[1,2] [(1,2)]",
    ),
    (b"#define k(x) 1\nk(k(2, 3)) k(k)", b"1 1"),
    (
        b"#define f(x) x x\n#define a b\n#define b a\nf(a) f(f(b))",
        b"a a b b b b",
    ),
    (
        b"#define f(a, b) b a b\n#define x 1\nf(x\n, \"s\" 'c')",
        b"\"s\" 'c' 1 \"s\" 'c'",
    ),
    (b"#define f(if, int) int if\nf(1, 2) if", b"2 1 if"),
    (b"#define f(f) f\nf(1) f(f) f(f(2))", b"1 f 2"),
    // Definitions that are the same, by the sixth example of C11 6.10.3.5 and by values.
    (
        b"#define OBJ_LIKE      (1-1)\n#define OBJ_LIKE /* white space */ (1-1) /* other */\n#define FUNC_LIKE(a)   ( a )\n#define FUNC_LIKE( a )( /* note the white space */ \\\na /* other stuff on this line\n*/ )\nOBJ_LIKE FUNC_LIKE(2)",
        b"(1-1) (2)",
    ),
    (b"#define a (1-1)\n#define a ( 1 - 1 )\na", b"(1-1)"),
    (
        b"#define a 0xA 1u \"A\" 'A'\n#define a 012 1U \"\\101\" '\\x41'\na",
        b"0xA 1u \"A\" 'A'",
    ),
    (
        b"#define a 1\n#undef a\na\n#define a 2\na\n#undef b\n#undef defined",
        b"a 2",
    ),
    (
        b"#define f(x) x\n#define g f(1\n#define f(x) x\ng) g 2)",
        b"1 1 2",
    ),
    // What a macro makes is no directive, and no word of one is replaced.
    (
        b"#define E\n1\nE # include <stdio.h>",
        b"1 # include <stdio.h>",
    ),
    (b"#define f(x) x\nf(#define a 1) a", b"#define a 1 a"),
    (b"#define define undef\n#define a 1\na", b"1"),
    (b"#\n # /* none */\n1 # 2", b"1 # 2"),
];

#[test]
fn rows_of_lists(rt: HostRuntime) -> Result<(), Fail> {
    Ok(assert_expanded(&rt, rt.alloc(), LISTS)?)
}

const DIRECTIVES: &[(&[u8], &[u8])] = &[
    (
        b"NULL EOF\n#include <stdio.h>\nNULL EOF",
        b"NULL EOF\n#include <stdio.h>\n((void*)0) (-1)",
    ),
    (
        b"#include <stdlib.h>\nEXIT_SUCCESS EXIT_FAILURE NULL EOF",
        b"#include <stdlib.h>\n0 1 ((void*)0) EOF",
    ),
    (
        b"#include <unistd.h>\nSTDIN_FILENO STDOUT_FILENO STDERR_FILENO NULL",
        b"#include <unistd.h>\n0 1 2 ((void*)0)",
    ),
    (
        b"# include <strings.h>\n#include /**/ <stdint.h>\nNULL\n#include <string.h>\nNULL",
        b"#include <strings.h>\n#include <stdint.h>\nNULL\n#include <string.h>\n((void*)0)",
    ),
    (
        b"#include <stddef.h>\n#include <stddef.h>\nNULL",
        b"#include <stddef.h>\n((void*)0)",
    ),
    (
        b"#include <stddef.h>\n#undef NULL\n#include <stddef.h>\nNULL",
        b"#include <stddef.h>\nNULL",
    ),
    (
        b"#include <stddef.h>\n#undef NULL\n#include <stdio.h>\nNULL",
        b"#include <stddef.h>\n#include <stdio.h>\n((void*)0)",
    ),
    // A macro of the file's with the header's tokens.
    (
        b"#define NULL ((void*)0)\n#include <stddef.h>\nNULL",
        b"#include <stddef.h>\n((void*)0)",
    ),
    (
        b"#define EXIT_SUCCESS 0\n#define EXIT_FAILURE 1\n#include <stdlib.h>",
        b"#include <stdlib.h>",
    ),
    (
        b"#define STDIN_FILENO 00\n#include <unistd.h>\nSTDIN_FILENO",
        b"#include <unistd.h>\n0",
    ),
    (
        b"#include <stdio.h>\n#define EOF (-1)\n#define NULL ( ( void * ) 0 )",
        b"#include <stdio.h>",
    ),
    (b"#define _FORTIFY_SOURCE 3\n_FORTIFY_SOURCE", b"3"),
    (
        b"#undef _FORTIFY_SOURCE\n#define _FORTIFY_SOURCE 0\n_FORTIFY_SOURCE",
        b"0",
    ),
    // Conditionals.
    (
        b"#if 1\na\n#else\nb\n#endif\n#if 0\na\n#else\nb\n#endif",
        b"a b",
    ),
    (b"#if 0\na\n#elif 1\nb\n#elif 1\nc\n#else\nd\n#endif", b"b"),
    (
        b"#if 0\na\n#elif 0\nb\n#else\nd\n#endif\n#if 0\na\n#endif",
        b"d",
    ),
    (b"#if 1\na\n#elif (\nb\n#elif 1/0\nc\n#endif", b"a"),
    (
        b"#define a\n#ifdef a\n1\n#endif\n#ifndef a\n2\n#endif\n#ifdef b\n3\n#endif\n#ifndef b\n4\n#endif",
        b"1 4",
    ),
    (
        b"#if 1\n#if 0\na\n#elif 1\nb\n#endif\nc\n#else\n#if 1\nd\n#endif\n#endif",
        b"b c",
    ),
    (
        b"#ifdef a\n#if 1\nb\n#else\nc\n#endif\nd\n#else\ne\n#endif 1 2",
        b"e",
    ),
    // In a skipped group only conditionals are looked at, and not their lines.
    (
        b"#if 0\n#error x\n#define a (\n#define 1\n#if (\n#elif (\n#else (\n#endif (\n#ifdef\n#endif\n#include \"x\"\n#foo\n#undef\na(\n#elif 1\na\n#endif",
        b"a",
    ),
    (
        b"#define b 1\n#if 1\n#else\n#undef b\n#include <stdio.h>\n#endif\nb EOF",
        b"1 EOF",
    ),
    (b"#define f(x) x\n#if 0\nf(1\n#endif\nf(2)", b"2"),
];

/// Headers with their macros, and conditionals.
#[test]
fn rows_of_directives(rt: HostRuntime) -> Result<(), Fail> {
    Ok(assert_expanded(&rt, rt.alloc(), DIRECTIVES)?)
}

const YES: &str = "yes ";

const NO: &str = "no ";

const BAD: &str = "bad-condition 4:1";

const CONDITIONS: &[(&str, &str)] = &[
    ("1", YES),
    ("0", NO),
    ("'\\0'", NO),
    ("", BAD),
    ("(1", BAD),
    ("1)", BAD),
    ("1 2", BAD),
    ("1 ? 2", BAD),
    ("1 = 1", BAD),
    ("id++", BAD),
    ("\"a\"", BAD),
    // Each operator.
    ("+1", YES),
    ("- 1", YES),
    ("!0", YES),
    ("!5", NO),
    ("~0 == -1", YES),
    ("- -1 == 1 && !!3 == 1", YES),
    ("2*3 == 6", YES),
    ("-7/2 == -3 && 7/-2 == -3", YES),
    ("-7%3 == -1 && 7%-3 == 1", YES),
    ("5-3-2", NO),
    ("24/4/2 == 3", YES),
    ("1 + 2*3 == 7", YES),
    ("1<<4 == 16 && 256>>4>>2 == 4", YES),
    ("-1>>1 == -1", YES),
    ("1 < 2 && 2 <= 2 && 3 > 2 && 2 >= 2", YES),
    ("2 < 2 || 3 <= 2 || 2 > 2 || 2 >= 3", NO),
    ("1 == 1 && 1 != 2", YES),
    ("1 != 1 || 1 == 2", NO),
    ("3 > 2 > 1", NO),
    ("(6&3) == 2 && (6^3) == 5 && (6|3) == 7", YES),
    ("6 & 3 == 2", NO),
    ("(1 | 2 ^ 3 & 4) == 3", YES),
    ("1 && 0", NO),
    ("0 || 2", YES),
    ("1 || 0 && 0", YES),
    ("1 ? 0 : 1", NO),
    ("0 ? 0 : 1 ? 2 : 0", YES),
    ("1 ? 1 : 0 ? 0 : 0", YES),
    // Division by zero, shifts and commas, evaluated and not.
    ("1/0", BAD),
    ("1%0", BAD),
    ("0 && 1/0", NO),
    ("1 || 1%0", YES),
    ("1 && 1/0", BAD),
    ("1 ? 1 : 1/0", YES),
    ("0 ? 1/0 : 0", NO),
    ("(-9223372036854775807-1)/-1", BAD),
    ("(-9223372036854775807-1)%-1", BAD),
    ("1<<63 < 0", YES),
    ("1<<64", BAD),
    ("1>>-1", BAD),
    ("0 && 1<<64", NO),
    ("1, 2", BAD),
    ("(1, 2)", BAD),
    ("1 || (1, 2)", YES),
    // Unsigned by a suffix and by size, with wrapping.
    ("-1 < 0", YES),
    ("-1 < 0u", NO),
    ("-1 < 0L", YES),
    ("-1 > 9223372036854775807", NO),
    ("-1 > 9223372036854775808", YES),
    ("18446744073709551615 + 1 == 0", YES),
    ("9223372036854775807 + 1 < 0", YES),
    ("0u - 1 > 0", YES),
    ("-1/2u > 1", YES),
    ("-1>>1u == -1", YES),
    ("(1 ? -1 : 0u) > 0", YES),
    ("-(1u < 2u) < 0", YES),
    ("!0u - 2 < 0 && (0u || 1u) - 2 < 0", YES),
    ("'a' == 97 && '\\377' < 0", YES),
    // Names, macros and `defined`.
    ("x", NO),
    ("x == 0 && int == 0", YES),
    ("id", NO),
    ("id(id(3)) == 3", YES),
    ("_FORTIFY_SOURCE == 3", YES),
    ("defined id", YES),
    ("defined(id) && defined ( d )", YES),
    ("defined x", NO),
    ("!defined x && !defined(x)", YES),
    ("defined id(0)", BAD),
    ("defined defined", NO),
    ("d", NO),
    ("d id", BAD),
    ("defined", BAD),
    ("defined 1", BAD),
    ("defined()", BAD),
    ("defined(id", BAD),
    ("0 && defined", BAD),
];

/// Asserts what the group of the condition gives, or its refusal.
fn assert_group(
    rt: &impl Abort,
    alloc: Global,
    condition: &str,
    want: &str,
) -> Result<(), AllocError> {
    let source = [
        "#define id(x) x\n#define d defined\n#\n#if ",
        condition,
        "\nyes\n#else\nno\n#endif",
    ]
    .concat(alloc)?;
    assert_shown(rt, alloc, source.as_bytes(), want)
}

/// Conditions, with what the group gives or the refusal.
#[test]
fn rows_of_conditions(rt: HostRuntime) -> Result<(), Fail> {
    for &(condition, want) in CONDITIONS {
        assert_group(&rt, rt.alloc(), condition, want)?;
    }
    Ok(())
}

const REFUSALS: &[(&[u8], &str)] = &[
    (b"#error x", "unknown-directive 1:1"),
    (b"1\n  #1", "unknown-directive 2:3"),
    (b"#define d define\n#d x 1", "unknown-directive 2:1"),
    (b"#include \"a.h\"", "unknown-header 1:1"),
    (b"#include", "unknown-header 1:1"),
    (b"#include <a.h>", "unknown-header 1:1"),
    (b"#include <stdio.h> x", "unknown-header 1:1"),
    (b"#define h <stdio.h>\n#include h", "unknown-header 2:1"),
    (b"#define", "bad-define 1:1"),
    (b"#define 1 2", "bad-define 1:1"),
    (b"#define defined 1", "bad-define 1:1"),
    (b"#define f(x 1", "bad-define 1:1"),
    (b"#define f(x", "bad-define 1:1"),
    (b"#define f(", "bad-define 1:1"),
    (b"#define f(,) 1", "bad-define 1:1"),
    (b"#define f(x,) 1", "bad-define 1:1"),
    (b"#define f(x x) 1", "bad-define 1:1"),
    (b"#define f(1) 1", "bad-define 1:1"),
    (b"#define f(...) 1", "bad-define 1:1"),
    (b"#define f(x, ...) 1", "bad-define 1:1"),
    (b"#define f(x, y, x) #", "bad-define 1:1"),
    (b"#undef", "bad-define 1:1"),
    (b"#undef 1", "bad-define 1:1"),
    (b"#undef a b", "bad-define 1:1"),
    (b"#ifdef\n#endif", "bad-define 1:1"),
    (b"#ifdef a b\n#endif", "bad-define 1:1"),
    (b"#ifndef 1\n#endif", "bad-define 1:1"),
    (b"#define a 1\n#define a 2", "redefined 2:1"),
    (b"#define a 1\n#define a 1 1", "redefined 2:1"),
    (b"#define a\n#define a #", "redefined 2:1"),
    (b"#define a 10\n#define a 0xA", "redefined 2:1"),
    (b"#define a 1\n#define a 1u", "redefined 2:1"),
    (b"#define a b\n#define a \"b\"", "redefined 2:1"),
    (b"#define a 1\n#define a() 1", "redefined 2:1"),
    (b"#define a(x) 1\n#define a(x, y) 1", "redefined 2:1"),
    // The sixth example of C11 6.10.3.5.
    (
        b"#define OBJ_LIKE (1-1)\n#define OBJ_LIKE (0)",
        "redefined 2:1",
    ),
    (
        b"#define FUNC_LIKE(a) ( a )\n#define FUNC_LIKE(b) ( a )",
        "redefined 2:1",
    ),
    (
        b"#define FUNC_LIKE(a) ( a )\n#define FUNC_LIKE(b) ( b )",
        "redefined 2:1",
    ),
    (b"#define NULL 0\n#include <stddef.h>", "redefined 2:1"),
    (
        b"#define EXIT_FAILURE 2\n #include <stdlib.h>",
        "redefined 2:2",
    ),
    (b"#include <stdio.h>\n#define EOF -1", "redefined 2:1"),
    (b"#define _FORTIFY_SOURCE 2", "redefined 1:1"),
    (b"#define s(x) #x", "left-out-operator 1:14"),
    (b"#define a x ## #", "left-out-operator 1:13"),
    (b"#define f(x) x x\nf(1, 2)", "macro-arguments 2:1"),
    (b"#define f(x, y) x\n1 f(1)", "macro-arguments 2:3"),
    (b"#define f(x, y) x\nf()", "macro-arguments 2:1"),
    (b"#define f(x, y) x\nf([1, 2], 3)", "macro-arguments 2:1"),
    (b"#define p() 1\np(1)", "macro-arguments 2:1"),
    (b"#define p() 1\np(,)", "macro-arguments 2:1"),
    (b"#define f(x) x\nf((1)", "macro-arguments 2:1"),
    (b"#define f(x) x\nf(1\n#undef f\n)", "macro-arguments 2:1"),
    (b"#define f(x) x\n#if f(1\n#endif", "macro-arguments 2:5"),
    (
        b"#define c 1,2\n#define f(x) x\n#define g(x) f(x)\n g(c)",
        "macro-arguments 4:2",
    ),
    (b"#define f(x) x\n#define g f(\n g", "macro-arguments 3:2"),
    (b"#define f(x) x\nf(1 f(2,3)\n, f(", "macro-arguments 2:1"),
    (b"#define f(x) x\nf(1 f(2,3))", "macro-arguments 2:5"),
    (b"#if 1", "open-conditional 1:1"),
    (b"#if 0\n#define a", "open-conditional 1:1"),
    (
        b"\n#if 1\n#if 1\n#endif\n#ifdef x\n#else",
        "open-conditional 2:1",
    ),
    (b"#elif 1", "open-conditional 1:1"),
    (b"#else", "open-conditional 1:1"),
    (b"#if 1\n#endif\n#endif", "open-conditional 3:1"),
    (b"#if 1\n#else\n#elif 1\n#endif", "open-conditional 3:1"),
    (b"#if 0\n#else\n#else\n#endif", "open-conditional 3:1"),
    (
        b"#if 0\n#if 1\n#else\n#elif\n#endif\n#endif",
        "open-conditional 4:1",
    ),
    // The first of two.
    (b"#define f(x) x\n#if 1\nf(", "macro-arguments 3:1"),
    (b"#else\n#error x", "open-conditional 1:1"),
    (b"#error x\n#else", "unknown-directive 1:1"),
];

#[test]
fn rows_of_refusals(rt: HostRuntime) -> Result<(), Fail> {
    for &(source, want) in REFUSALS {
        assert_shown(&rt, rt.alloc(), source, want)?;
    }
    Ok(())
}

const PLACES: &[(Level, &[u8], &str)] = &[
    (
        Level::Zero,
        b"#define two 1  2\n x two y",
        "x 2:2^_\n1d0 2:4_\n2d0 2:4_\ny 2:8_\n",
    ),
    (
        Level::Zero,
        b"#define f(x)[x]+x\nf( 1\n2 )",
        "[ 2:1\n1d0 2:4_\n2d0 3:1^_\n] 2:1\n+ 2:1\n1d0 2:4_\n2d0 3:1^_\n",
    ),
    (
        Level::Zero,
        b"#define g h(a)\n#define h(x)x(\n#define a 1\n+g",
        "+ 4:1^_\n1d0 4:2_\n( 4:2\n",
    ),
    (
        Level::Zero,
        b"#define h(x) x\n#define a 1\nh(h)(a) h( a)",
        "h 3:3\n( 3:5\n1d0 3:6_\n) 3:7\n1d0 3:12_\n",
    ),
    (
        Level::Zero,
        b" #include <stdio.h>\n EOF;",
        "# include <stdio.h> 1:2^_\n( 2:2\n- 2:2\n1d0 2:2\n) 2:2\n; 2:5\n",
    ),
    (Level::Zero, b"_FORTIFY_SOURCE", "00 1:1\n"),
    (Level::Three, b"_FORTIFY_SOURCE", "3d0 1:1\n"),
];

/// Asserts that these are the tokens that the source expands to, with their places.
fn assert_placed(
    rt: &impl Abort,
    alloc: Global,
    level: Level,
    source: &[u8],
    want: &str,
) -> Result<(), AllocError> {
    let got = placed(alloc, expanded(alloc, source, level))?;
    assert_same(rt, got.as_str(), want);
    Ok(())
}

#[test]
fn rows_of_places(rt: HostRuntime) -> Result<(), Fail> {
    for &(level, source, want) in PLACES {
        assert_placed(&rt, rt.alloc(), level, source, want)?;
    }
    Ok(())
}

/// So many texts.
fn push_repeated(out: &mut String, text: &str, times: usize) -> Result<(), AllocError> {
    for _ in 0..times {
        out.push_str(text)?;
    }
    Ok(())
}

/// So many calls of `f`, each the argument of the one before.
fn push_nested(out: &mut String, calls: usize) -> Result<(), AllocError> {
    out.push_str("#define f(x) x\n")?;
    push_repeated(out, "f(", calls)?;
    out.push_str("1")?;
    push_repeated(out, ")", calls)
}

/// Asserts what so many calls in one another are.
fn assert_nested(
    rt: &impl Abort,
    alloc: Global,
    calls: usize,
    want: &str,
) -> Result<(), AllocError> {
    let mut source = String::new(alloc);
    push_nested(&mut source, calls)?;
    assert_shown(rt, alloc, source.as_bytes(), want)
}

/// Macros `m0` to `m19`, each twice as long as the one before, and a line with the last that is wanted.
fn push_doubled(out: &mut String, last: u32) -> Result<(), AllocError> {
    out.push_str("#define m0 0 0\n")?;
    for k in 0..19 {
        write!(out, "#define m{} m{k} m{k}\n", k + 1)?;
    }
    write!(out, "m{last}")
}

fn doubled(alloc: Global, last: u32) -> Result<String, AllocError> {
    let mut source = String::new(alloc);
    push_doubled(&mut source, last)?;
    Ok(source)
}

/// How many tokens that macro is, or the refusal.
fn doubled_count(alloc: Global, last: u32) -> Result<usize, Fault> {
    let source = doubled(alloc, last)?;
    Ok(expanded(alloc, source.as_bytes(), Level::Zero)?.len())
}

/// Asserts what that macro is.
fn assert_doubled(rt: &impl Abort, alloc: Global, last: u32, want: &str) -> Result<(), AllocError> {
    let source = doubled(alloc, last)?;
    assert_shown(rt, alloc, source.as_bytes(), want)
}

#[test]
fn limits(rt: HostRuntime) -> Result<(), Fail> {
    let alloc = rt.alloc();
    assert_nested(&rt, alloc, 200, "1d0 ")?;
    assert_nested(&rt, alloc, 201, "macro-arguments 2:401")?;
    assert_same(&rt, doubled_count(alloc, 17), Ok(262_144));
    assert_doubled(&rt, alloc, 19, "limit-tokens 21:1")?;
    Ok(())
}
