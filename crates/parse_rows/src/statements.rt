//! Rows of statements, with the trees that C11 6.8 gives them, and the refusals.

use crate::sources::assert_joined;
use std::test::Fail;

/// Bodies of `int f(void)`, and how they are shown. The empty text is for a refusal (C11 6.8).
const BODIES: &[(&str, &str)] = &[
    ("{ }", "{}"),
    ("{ ; a; { { } b; } }", "{_; a; {{}; b; }; }"),
    ("{ a }", ""),
    ("{", ""),
    // C11 6.8.4.1
    ("{ if (a) b; else c; }", "{(if a b else c); }"),
    ("{ if (a) if (b) c; else d; }", "{(if a (if b c else d)); }"),
    (
        "{ if (a) { if (b) c; } else d; }",
        "{(if a {(if b c); } else d); }",
    ),
    (
        "{ if (a) if (b) c; else d; else e; }",
        "{(if a (if b c else d) else e); }",
    ),
    (
        "{ if (a) while (b) if (c) d; else e; }",
        "{(if a (while b (if c d else e))); }",
    ),
    (
        "{ if (a) b; else if (c) d; else e; }",
        "{(if a b else (if c d else e)); }",
    ),
    ("{ else a; }", ""),
    ("{ if (a) b; else c; else d; }", ""),
    ("{ if () a; }", ""),
    ("{ if (a) int b; }", ""),
    // C11 6.8.4.2
    (
        "{ switch (a) { case 1: case 2: b; { int c; } default: ; } }",
        "{switch a{case 1; case 2; b; {Int c; }; default; _; }; }",
    ),
    ("{ switch (a) { } }", "{switch a{}; }"),
    (
        "{ switch (a) { case 1: switch (b) { default: c; } } }",
        "{switch a{case 1; switch b{default; c; }; }; }",
    ),
    ("{ switch (a) { b; case 1: ; } }", ""),
    ("{ switch (a) { case 1: { case 2: ; } } }", ""),
    ("{ switch (a) { case 1: int b; } }", ""),
    ("{ switch (a) case 1: ; }", ""),
    ("{ switch (a) b; }", ""),
    ("{ case 1: ; }", ""),
    ("{ default: ; }", ""),
    ("{ a: b; }", ""),
    // C11 6.8.5
    ("{ while (a) while (b) ; }", "{(while a (while b _)); }"),
    ("{ do a; while (b); }", "{(do a while b); }"),
    (
        "{ do do a; while (b); while (c); }",
        "{(do (do a while b) while c); }",
    ),
    ("{ do a; while (b) }", ""),
    ("{ for (;;) ; }", "{(for _; _; _ _); }"),
    ("{ for (a; b; c) d; }", "{(for a; b; c d); }"),
    (
        "{ for (int a = 1, *b; a; c) { d; } }",
        "{(for Int a = 1, b pointer1; a; c {d; }); }",
    ),
    ("{ for (a; b) c; }", ""),
    ("{ for (int a) b; }", ""),
    // C11 6.8.6
    (
        "{ while (a) { break; continue; return; return a; } }",
        "{(while a {break; continue; return _; return a; }); }",
    ),
    ("{ break a; }", ""),
    // declarations (C11 6.7 and 6.8.2)
    (
        "{ int a; b; static const int *c = d, e[2] = {1}; }",
        "{Int a; b; static const Int c pointer1 = d, e array2 = {1 }; }",
    ),
    ("{ int (*a)(void); }", "{Int a pointer1 function(void); }"),
    ("{ struct s a; }", "{Struct s a; }"),
    ("{ int a(void); }", ""),
    ("{ int (a)(void); }", ""),
    ("{ typedef int a; }", ""),
    ("{ extern int a; }", ""),
    ("{ inline int a; }", ""),
    ("{ struct s { int a; } b; }", ""),
    ("{ int; }", ""),
];

#[test]
fn trees_of_functions(rt: HostRuntime) -> Result<(), Fail> {
    let alloc = rt.alloc();
    for &(body, tree) in BODIES {
        let source = ["int f(void) ", body];
        if tree.is_empty() {
            assert_joined(&rt, alloc, &source, &["syntax 1:1"])?;
        } else {
            assert_joined(&rt, alloc, &source, &["Int f function(void) ", tree, "; "])?;
        }
    }
    Ok(())
}
