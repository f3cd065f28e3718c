//! Rows of declarations, with the trees that C11 6.7 gives them, and the refusals at their places.

use crate::sources::{assert_joined, assert_rows};
use std::test::Fail;

/// C11 6.7.6
const DECLARATORS: &[(&str, &str)] = &[
    ("int *a[3];", "Int a array3 pointer1; "),
    ("int (*a)[3];", "Int a pointer1 array3; "),
    (
        "int (*f(void))[2];",
        "Int f function(void) pointer1 array2; ",
    ),
    ("char *(*p);", "Char p pointer1 pointer1; "),
    ("char *const *restrict p;", "Char p pointer4; "),
    (
        "int (a), ((b)), c[2][3], d[];",
        "Int a, b, c array2 array3, d array; ",
    ),
    (
        "int f(), g(void), (h)(int, char *);",
        "Int f function(), g function(void), h function(2); ",
    ),
    ("int f(void x, int (*g)(void));", "Int f function(2); "),
    // abstract ones (C11 6.7.7)
    (
        "int f(int *, int [2], int (*)[3], int **[4]);",
        "Int f function(4); ",
    ),
    ("int f(void *);", "Int f function(1); "),
    ("int a[sizeof(int *)];", "Int a array..; "),
    ("int a[sizeof(int x)];", "syntax 1:1"),
    ("int f(int (*)(void));", "syntax 1:1"),
    // none
    ("int *;", "syntax 1:1"),
    ("int (a;", "syntax 1:1"),
    ("int a b;", "syntax 1:1"),
    ("int 3;", "syntax 1:1"),
    ("int f(int,);", "syntax 1:1"),
    ("int f(a);", "syntax 1:1"),
    ("int a[1;", "syntax 1:1"),
];

/// C11 6.7.1 to 6.7.4
const SPECIFIERS: &[(&str, &str)] = &[
    ("typedef int a;", "typedef Int a; "),
    ("extern inline int a;", "extern inline Int a; "),
    (
        "static const unsigned long int long a;",
        "static const Unsigned Long Int Long a; ",
    ),
    ("int const extern a;", "Int const extern a; "),
    ("static extern int a;", "syntax 1:1"),
    ("typedef static int a;", "syntax 1:1"),
    ("int f(static int a, typedef int b);", "syntax 1:1"),
    // structures and unions (C11 6.7.2.1)
    ("struct s;", "Struct s ; "),
    ("union u { int a; };", "Union u{1} ; "),
    (
        "struct { int a, *b[2]; char c; } s, *t;",
        "Struct{2} s, t pointer1; ",
    ),
    (
        "struct s { union { int a; } b; struct s *c; } static d;",
        "Struct s{2} static d; ",
    ),
    ("const struct s a;", "const Struct s a; "),
    ("struct { } s;", "syntax 1:1"),
    ("struct { int; } s;", "syntax 1:1"),
    ("struct { int a } s;", "syntax 1:1"),
    ("struct { int a : 3; } s;", "syntax 1:1"),
    ("struct { int a = 1; } s;", "syntax 1:1"),
    ("struct s { int a; } int b;", "syntax 1:1"),
    ("struct s union u a;", "syntax 1:1"),
    // enumerations (C11 6.7.2.2)
    ("enum e;", "enum e ; "),
    ("enum { A, B = 2, C } a;", "enum{3} a; "),
    ("enum e { A = 1, };", "enum{1} ; "),
    ("enum { } a;", "syntax 1:1"),
    ("enum { A,, B } a;", "syntax 1:1"),
    ("enum { 1 } a;", "syntax 1:1"),
    ("enum e long a;", "syntax 1:1"),
    // no type, and two
    ("const a;", "syntax 1:1"),
    ("static a;", "syntax 1:1"),
    ("a;", "syntax 1:1"),
    ("int struct s a;", "syntax 1:1"),
];

/// The words of basic types that C11 6.7.2 lets stand together, and how they are shown.
const BASIC_TYPES: &[(&str, &str)] = &[
    ("void", "Void"),
    ("char", "Char"),
    ("signed char", "Signed Char"),
    ("unsigned char", "Unsigned Char"),
    ("short", "Short"),
    ("signed short", "Signed Short"),
    ("short int", "Short Int"),
    ("signed short int", "Signed Short Int"),
    ("unsigned short", "Unsigned Short"),
    ("unsigned short int", "Unsigned Short Int"),
    ("int", "Int"),
    ("signed", "Signed"),
    ("signed int", "Signed Int"),
    ("unsigned", "Unsigned"),
    ("unsigned int", "Unsigned Int"),
    ("long", "Long"),
    ("signed long", "Signed Long"),
    ("long int", "Long Int"),
    ("signed long int", "Signed Long Int"),
    ("unsigned long", "Unsigned Long"),
    ("unsigned long int", "Unsigned Long Int"),
    ("long long", "Long Long"),
    ("signed long long", "Signed Long Long"),
    ("long long int", "Long Long Int"),
    ("signed long long int", "Signed Long Long Int"),
    ("unsigned long long", "Unsigned Long Long"),
    ("unsigned long long int", "Unsigned Long Long Int"),
    // in other orders
    ("char signed", "Char Signed"),
    ("char unsigned", "Char Unsigned"),
    ("int short", "Int Short"),
    ("short unsigned int", "Short Unsigned Int"),
    ("int unsigned", "Int Unsigned"),
    ("long signed", "Long Signed"),
    ("int long unsigned", "Int Long Unsigned"),
    ("long int long", "Long Int Long"),
    ("long unsigned long", "Long Unsigned Long"),
    ("long int signed long", "Long Int Signed Long"),
];

/// Some that it does not.
const NO_TYPES: &[&str] = &[
    "void void",
    "void int",
    "unsigned void",
    "char char",
    "char int",
    "long char",
    "char short",
    "short short",
    "short long",
    "int int",
    "long long long",
    "signed signed",
    "unsigned unsigned",
    "signed unsigned",
    "unsigned signed char",
    "signed int unsigned",
    "int short int",
    "long int long int",
];

/// GCC manual, "Attribute Syntax"
const ATTRIBUTES: &[(&str, &str)] = &[
    // among specifiers
    ("__attribute__((a)) int b;", "attributes1 Int b; "),
    (
        "static __attribute__(()) int __attribute__((a, b(), c(1, (2)))) d;",
        "static attributes0 Int attributes3 d; ",
    ),
    ("int __attribute__((const)) a;", "Int attributes1 a; "),
    (
        "struct s { int a; } __attribute__((b)) c;",
        "Struct s{1} attributes1 c; ",
    ),
    ("struct { __attribute__((a)) int b; } c;", "Struct{1} c; "),
    (
        "int f(int __attribute__((a)) b, __attribute__((c)) int);",
        "Int f function(2); ",
    ),
    ("int a[sizeof(int __attribute__((b)))];", "Int a array..; "),
    (
        "int f(void) { __attribute__((a)) int b; }",
        "Int f function(void) {attributes1 Int b; }; ",
    ),
    // behind a declarator
    (
        "int f(void) __attribute__((a, b)) __attribute__((c));",
        "Int f function(void) attributes2 attributes1; ",
    ),
    (
        "int a __attribute__((b)) = 1, *c __attribute__(());",
        "Int a attributes1 = 1, c pointer1 attributes0; ",
    ),
    (
        "int f(void) { int a __attribute__((b)) = 1; }",
        "Int f function(void) {Int a attributes1 = 1; }; ",
    ),
    // elsewhere
    ("int a = 1 __attribute__((b));", "syntax 1:1"),
    ("int * __attribute__((a)) b;", "syntax 1:1"),
    ("int f(int a __attribute__((b)));", "syntax 1:1"),
    ("struct { int a __attribute__((b)); } c;", "syntax 1:1"),
    ("struct __attribute__((a)) s b;", "syntax 1:1"),
    ("int f(void) __attribute__((a)) { }", "syntax 1:1"),
    // none
    ("__attribute__(a) int b;", "syntax 1:1"),
    ("__attribute__((a,, b)) int c;", "syntax 1:1"),
    ("__attribute__((a(])) int b;", "syntax 1:1"),
];

/// C11 6.7.9
const INITIALISERS: &[(&str, &str)] = &[
    ("int a = 1;", "Int a = 1; "),
    ("int a = 1, *b = c, d;", "Int a = 1, b pointer1 = c, d; "),
    ("int a = b = 1, c = (1, 2);", "Int a = .., c = ..; "),
    ("int a[2] = {1, b};", "Int a array2 = {1 b }; "),
    ("int a[2] = {1, b,};", "Int a array2 = {1 b }; "),
    ("int a = {1};", "Int a = {1 }; "),
    (
        "int a[2][2] = {{1, 2}, {3,}, 4};",
        "Int a array2 array2 = {{1 2 } {3 } 4 }; ",
    ),
    ("int a = {};", "syntax 1:1"),
    ("int a = {,};", "syntax 1:1"),
    ("int a = {1,,};", "syntax 1:1"),
    ("int a = {1 2};", "syntax 1:1"),
    ("int a = {1;", "syntax 1:1"),
    ("int a = ;", "syntax 1:1"),
    ("int a = 1, 2;", "syntax 1:1"),
    ("int a = 1,;", "syntax 1:1"),
    ("struct s a = {.b = 1};", "syntax 1:1"),
    ("int a[1] = {[0] = 1};", "syntax 1:1"),
];

#[test]
fn trees_of_declarations(rt: HostRuntime) -> Result<(), Fail> {
    let alloc = rt.alloc();
    assert_rows(&rt, alloc, DECLARATORS)?;
    assert_rows(&rt, alloc, SPECIFIERS)?;
    assert_rows(&rt, alloc, ATTRIBUTES)?;
    assert_rows(&rt, alloc, INITIALISERS)?;
    Ok(())
}

#[test]
fn basic_types(rt: HostRuntime) -> Result<(), Fail> {
    let alloc = rt.alloc();
    for &(words, tree) in BASIC_TYPES {
        assert_joined(&rt, alloc, &[words, " a;"], &[tree, " a; "])?;
    }
    for &words in NO_TYPES {
        assert_joined(&rt, alloc, &[words, " a;"], &["syntax 1:1"])?;
    }
    Ok(())
}
