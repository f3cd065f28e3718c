//! Rows of expressions with the trees that C11 6.5 gives them: each level against the next, grouping, the ends of
//! their spans, and how high they may be. A column is the number of a token.

use crate::sources::{assert_same, repeated, tokens_of};
use c_tokens::Token;
use c_tree::Expr;
use fc_base::{Fault, NoMemory, Place, Text};
use parse_expr::{ExprForm, parse_expression};
use parse_tokens::{ParseFault, TypeNames};
use std::alloc::Global;
use std::process::Abort;
use std::test::Fail;
use tree_text::{Output, push_expr};

/// The names of types in these rows. One that is there already may be added again.
const TYPE_NAMES: &[&[u8]] = &[b"T", b"U", b"T"];

fn push_type_names(alloc: Global, names: &mut TypeNames) -> Result<(), NoMemory> {
    for &name in TYPE_NAMES {
        names.push(Text::from_bytes(alloc, name)?)?;
    }
    Ok(())
}

fn type_names(alloc: Global) -> Result<TypeNames, NoMemory> {
    let mut names = TypeNames::new(alloc);
    push_type_names(alloc, &mut names)?;
    Ok(names)
}

/// Puts the first token into column 1, the second into column 2.
fn number(tokens: &mut [Token]) {
    let mut col = 0u32;
    for token in tokens {
        col = col.wrapping_add(1);
        token.place = Place { line: 1, col };
    }
}

/// The tree, and where the span's end is, but for the end of the tokens.
fn spanned_text(alloc: Global, tree: &Expr, end: usize, count: usize) -> Result<String, Fault> {
    let mut out = Output::new(alloc);
    push_expr(&mut out, tree, 20);
    if end < count {
        out.push_count(" to ", end, "");
    }
    Ok(out.finish()?)
}

/// The expression that the tokens begin with behind so many of them.
fn first(
    alloc: Global,
    tokens: &[Token],
    at: usize,
    form: ExprForm,
    names: &TypeNames,
) -> Result<String, Fault> {
    match parse_expression(alloc, tokens, at.min(tokens.len()), form, names) {
        Ok((tree, end)) => spanned_text(alloc, &tree, end, tokens.len()),
        Err(ParseFault::NoDerivation) => Ok(String::from_str(alloc, "none")?),
        Err(ParseFault::NoMemory) => Err(Fault::NoMemory),
    }
}

/// The expression of a text, where the names of types are those of these rows.
fn first_of_rows(
    alloc: Global,
    tokens: &[Token],
    at: usize,
    form: ExprForm,
) -> Result<String, Fault> {
    let names = type_names(alloc)?;
    first(alloc, tokens, at, form, &names)
}

fn shown(alloc: Global, text: &str, at: usize, form: ExprForm) -> Result<String, Fault> {
    let mut tokens = tokens_of(alloc, text)?;
    number(&mut tokens);
    first_of_rows(alloc, &tokens, at, form)
}

/// Asserts that this is the expression behind so many tokens.
fn assert_first(
    rt: &impl Abort,
    alloc: Global,
    text: &str,
    at: usize,
    form: ExprForm,
    tree: &str,
) -> Result<(), Fault> {
    let got = shown(alloc, text, at, form)?;
    assert_same(rt, got.as_str(), tree);
    Ok(())
}

/// C11 6.5, and the GCC manual's "Object Size Checking"
const TREES: &[(&str, &str)] = &[
    // each level against the next
    ("a * b + c", "(+@4 (*@2 a b) c)"),
    ("a + b * c", "(+@2 a (*@4 b c))"),
    ("a - b << c", "(<<@4 (-@2 a b) c)"),
    ("a >> b < c", "(<@4 (>>@2 a b) c)"),
    ("a <= b == c", "(==@4 (<=@2 a b) c)"),
    ("a != b & c", "(&@4 (!=@2 a b) c)"),
    ("a ^ b & c", "(^@2 a (&@4 b c))"),
    ("a | b ^ c", "(|@2 a (^@4 b c))"),
    ("a && b | c", "(&&@2 a (|@4 b c))"),
    ("a || b && c", "(||@2 a (&&@4 b c))"),
    ("a || b ? c : d", "(?@4 (||@2 a b) c d)"),
    ("a = b ? c : d", "(=@2 a (?@4 b c d))"),
    ("a , b += c", "(,@1 a (+=@4 b c))"),
    ("a % b > c >= d", "(>=@6 (>@4 (%@2 a b) c) d)"),
    // grouping
    ("a - b - c", "(-@4 (-@2 a b) c)"),
    ("a / b * c", "(*@4 (/@2 a b) c)"),
    ("a = b = c", "(=@2 a (=@4 b c))"),
    ("a ? b : c ? d : e", "(?@2 a b (?@6 c d e))"),
    ("a ? b , c : d", "(?@2 a (,@3 b c) d)"),
    ("a , b , c", "(,@1 a b c)"),
    ("( a , b ) , c", "(,@1 (,@2 a b) c)"),
    (
        "a *= b /= c %= d -= e <<= f",
        "(*=@2 a (/=@4 b (%=@6 c (-=@8 d (<<=@10 e f)))))",
    ),
    (
        "a >>= b &= c ^= d |= e",
        "(>>=@2 a (&=@4 b (^=@6 c (|=@8 d e))))",
    ),
    ("a + b = c", "none"),
    ("a ? b : c = d", "none"),
    ("- a = b", "(=@3 (-_@1 a) b)"),
    // what begins and follows an operand
    ("* p ++", "(*_@1 (_++@2 p))"),
    ("- x [ 1 ]", "(-_@1 ([]@3 x 1))"),
    ("! ~ & x", "(!_@1 (~_@2 (&_@3 x)))"),
    ("++ -- + a", "(++_@1 (--_@2 (+_@3 a)))"),
    ("a -- - b", "(-@3 (_--@1 a) b)"),
    ("- ( T ) x", "(-_@1 (cast@2 (to@2 <T 3>) x))"),
    ("++ ( T ) x", "none"),
    (
        "f ( a , b ) ( )",
        "(call@1 (call@1 f (args@1 a b)) (args@1))",
    ),
    ("a . b -> T", "(->@5 (.@3 a b) T)"),
    ("( a ) ++", "(_++@1 a)"),
    ("( ( a ) [ b ] ) ++", "(_++@1 ([]@5 a b))"),
    ("\"ab\" \"c\" [ 'd' ]", "([]@3 \"abc\" 100)"),
    // brackets and types
    ("sizeof ( T )", "(sizeof@1 <T 3>)"),
    ("sizeof x", "(sizeof@1 x)"),
    ("sizeof ( x ) + 1", "(+@5 (sizeof@1 x) 1)"),
    ("sizeof ( T ) + 1", "(+@5 (sizeof@1 <T 3>) 1)"),
    ("sizeof ( T ) * p", "(*@5 (sizeof@1 <T 3>) p)"),
    ("sizeof ( T ) x", "none"),
    ("( T ) ( x )", "(cast@1 (to@1 <T 2>) x)"),
    (
        "( T ) ( x ) ( y )",
        "(cast@1 (to@1 <T 2>) (call@5 x (args@5 y)))",
    ),
    ("( x ) ( y )", "(call@2 x (args@2 y))"),
    ("( T ) * p", "(cast@1 (to@1 <T 2>) (*_@4 p))"),
    ("( x ) * p", "(*@4 x p)"),
    ("( T ) x * y", "(*@5 (cast@1 (to@1 <T 2>) x) y)"),
    (
        "( U ) ( T ) x",
        "(cast@1 (to@1 <U 2>) (cast@4 (to@4 <T 5>) x))",
    ),
    ("( T x )", "none"),
    (
        "( const unsigned long * const * [ 2 ] [ n ] ) 0",
        "(cast@1 (to@1 <const basic basic * const * 2[2][n]>) 0)",
    ),
    ("( struct T ( * ) [ 3 ] ) 0", "(cast@1 (to@1 <T * 2[3]>) 0)"),
    (
        "( __attribute__ ( ( a ( 1 , [ 2 ] ) , const ) ) T ) x",
        "(cast@1 (to@1 <a5;const; T 2>) x)",
    ),
    (
        "__builtin_dynamic_object_size ( a , 1 ? 2 : 3 )",
        "(size@1 a (?@6 1 2 3))",
    ),
    ("__builtin_dynamic_object_size ( a )", "none"),
    ("a b", "none"),
    ("a +", "none"),
    ("T", "none"),
];

#[test]
fn trees_of_expressions(rt: HostRuntime) -> Result<(), Fail> {
    let alloc = rt.alloc();
    for &(text, tree) in TREES {
        assert_first(&rt, alloc, text, 0, ExprForm::Full, tree)?;
    }
    Ok(())
}

/// From a token on, in a form, the expression, and the token at which its span ends.
const SPANS: &[(&str, usize, ExprForm, &str)] = &[
    ("a , b ; c", 0, ExprForm::Full, "(,@1 a b) to 3"),
    ("a , b ; c", 0, ExprForm::Assign, "a to 1"),
    ("a = b , c", 0, ExprForm::Assign, "(=@2 a b) to 3"),
    ("a = b , c", 0, ExprForm::Cond, "none"),
    (
        "f ( a , b ) , c",
        0,
        ExprForm::Cond,
        "(call@1 f (args@1 a b)) to 6",
    ),
    (
        "a ? b , c : d , e",
        0,
        ExprForm::Cond,
        "(?@2 a (,@3 b c) d) to 7",
    ),
    ("a ? b : c : d", 0, ExprForm::Full, "(?@2 a b c) to 5"),
    ("a ) b", 0, ExprForm::Full, "a to 1"),
    ("a ] b", 0, ExprForm::Full, "a to 1"),
    ("a { b", 0, ExprForm::Full, "a to 1"),
    ("; a", 0, ExprForm::Full, "none"),
    // from another token
    ("a ; b + c ; d", 2, ExprForm::Full, "(+@4 b c) to 5"),
    ("( a , b )", 1, ExprForm::Assign, "a to 2"),
    ("a", 1, ExprForm::Full, "none"),
];

#[test]
fn spans_of_expressions(rt: HostRuntime) -> Result<(), Fail> {
    let alloc = rt.alloc();
    for &(text, at, form, tree) in SPANS {
        assert_first(&rt, alloc, text, at, form, tree)?;
    }
    Ok(())
}

/// The tree of a name with so many texts before it and behind it.
fn shown_within(alloc: Global, before: &str, behind: &str, times: u32) -> Result<String, Fault> {
    let open = repeated(alloc, "", before, times, "a")?;
    let text = repeated(alloc, open.as_str(), behind, times, "")?;
    shown(alloc, text.as_str(), 0, ExprForm::Full)
}

/// Asserts that this is that tree.
fn assert_within(
    rt: &impl Abort,
    alloc: Global,
    before: &str,
    behind: &str,
    times: u32,
    tree: &str,
) -> Result<(), Fault> {
    let got = shown_within(alloc, before, behind, times)?;
    assert_same(rt, got.as_str(), tree);
    Ok(())
}

/// Asserts that a sum of so many signs begins so.
fn assert_sum(rt: &impl Abort, alloc: Global, signs: u32, start: &str) -> Result<(), Fault> {
    assert!(rt; shown_within(alloc, "", " + a", signs)?.starts_with(start));
    Ok(())
}

#[test]
fn heights_of_expressions(rt: HostRuntime) -> Result<(), Fail> {
    let alloc = rt.alloc();
    // 400 terms group from the left: the root is the last of 399 signs, which is token 798
    assert_sum(&rt, alloc, 399, "(+@798 (+@796 (+@794 ")?;
    assert_within(&rt, alloc, "", " + a", 400, "none")?;
    // parentheses make no node
    assert_within(&rt, alloc, "( ", " )", 1000, "a")?;
    Ok(())
}
