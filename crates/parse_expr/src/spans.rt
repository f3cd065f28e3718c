//! Expressions in a list of tokens.

ghost use Rattle.std.specs.Prelude.{◌≡◌, ◌≤◌, ◌<◌, ◌^◌, ◌+◌, length, drop, IfOk, IfErr};
ghost use Rattle.c_tree.specs.declared.nodes.Expr.{Expr};
ghost use Rattle.parse_meaning.specs.Spans.{ends, questions_after, brackets_after, span, Spells};
ghost use Rattle.parse_tokens.specs.declared.faults.ParseFault.TheVariants as fault;
ghost use Rattle.parse_expr.specs.Forms.{level_of, ends_at_commas};

use c_tokens::{Punct, Token, TokenKind};
use c_tree::{Expr, HEIGHT_LIMIT};
use parse_expressions::expression;
use parse_operators::{ASSIGNMENT, CONDITIONAL, EXPRESSION};
use parse_tokens::{ParseFault, Tokens, TypeNames, kept};
use std::alloc::Global;

/// The form in which an expression is asked for.
#[derive(Clone, Copy, PartialEq, Eq)]
pub enum ExprForm {
    /// An expression (C11 6.5.17).
    Full,
    /// An assignment expression (C11 6.5.16).
    Assign,
    /// A conditional expression (C11 6.5.15).
    Cond,
}

impl ExprForm {
    fn level(self) -> u8
        ensures { result ≡ level_of self }
    {
        match self {
            ExprForm::Full => EXPRESSION,
            ExprForm::Assign => ASSIGNMENT,
            ExprForm::Cond => CONDITIONAL,
        }
    }

    /// Whether a comma ends the span.
    fn ends_at_commas(self) -> bool
        ensures { result ≡ ends_at_commas self }
    {
        match self {
            ExprForm::Full => false,
            ExprForm::Assign | ExprForm::Cond => true,
        }
    }
}

/// Whether a token outside brackets ends a span, where so many `?` are open.
fn ends(commas: bool, questions: usize, kind: &TokenKind) -> bool
    ensures { result ≡ ends commas questions kind.now }
{
    match kind {
        TokenKind::Punct(
            Punct::Semicolon
            | Punct::RightParen
            | Punct::RightBracket
            | Punct::LeftBrace
            | Punct::RightBrace,
        ) => true,
        TokenKind::Punct(Punct::Colon) => questions == 0,
        TokenKind::Punct(Punct::Comma) => commas && questions == 0,
        _ => false,
    }
}

fn questions_after(questions: usize, kind: &TokenKind) -> usize
    requires { questions < 2 ^ 63 }
    ensures after { result ≡ questions_after questions kind.now }
    ensures low { result ≤ questions + 1 }
{
    match kind {
        TokenKind::Punct(Punct::Question) => questions + 1,
        TokenKind::Punct(Punct::Colon) => questions.saturating_sub(1),
        _ => questions,
    }
}

fn brackets_after(brackets: usize, kind: &TokenKind) -> usize
    requires { brackets < 2 ^ 63 }
    ensures after { result ≡ brackets_after brackets kind.now }
    ensures low { result ≤ brackets + 1 }
{
    match kind {
        TokenKind::Punct(Punct::LeftParen | Punct::LeftBracket | Punct::LeftBrace) => brackets + 1,
        TokenKind::Punct(Punct::RightParen | Punct::RightBracket | Punct::RightBrace) => {
            brackets.saturating_sub(1)
        }
        _ => brackets,
    }
}

/// How many tokens a span has.
fn span_len(tokens: &[Token], commas: bool) -> usize
    ensures len { result ≡ length (span commas 0 0 tokens.now) }
    ensures within { result ≤ length tokens.now }
{
    let mut brackets = 0;
    let mut questions = 0;
    for (i, token) in tokens.iter().enumerate() {
        if brackets == 0 {
            if ends(commas, questions, &token.kind) {
                return i;
            }
            questions = questions_after(questions, &token.kind);
        }
        brackets = brackets_after(brackets, &token.kind);
    }
    tokens.len()
}

/// The expression that the first tokens are, up to where it ends, and how many those are.
fn first_expression(
    alloc: Global,
    tokens: &[Token],
    form: ExprForm,
    names: &TypeNames,
) -> Result<(Expr, usize), ParseFault>
    ensures expression { let whole = span (ends_at_commas form) 0 0 tokens.now in IfOk result (λ found. Spells names.now (level_of form) whole found.0) }
    ensures len { let whole = span (ends_at_commas form) 0 0 tokens.now in IfOk result (λ found. found.1 ≡ length whole) }
    ensures none { let whole = span (ends_at_commas form) 0 0 tokens.now in IfErr result (λ e. e ≡ fault.NoDerivation → (x : Expr) → ¬ (Spells names.now (level_of form) whole x)) }
{
    let len = span_len(tokens, form.ends_at_commas());
    let mut rest = Tokens::new(&tokens[..len], names);
    let found = expression(alloc, &mut rest, HEIGHT_LIMIT, form.level())?;
    let tree = kept(found.tree, rest.left() == 0)?;
    Ok((tree, len))
}

/// The expression that the tokens from `at` on are, up to where it ends, and where that is.
pub fn parse_expression(
    alloc: Global,
    tokens: &[Token],
    at: usize,
    form: ExprForm,
    names: &TypeNames,
) -> Result<(Expr, usize), ParseFault>
    requires { at ≤ length tokens.now }
    ensures expression { let whole = span (ends_at_commas form) 0 0 (drop at tokens.now) in IfOk result (λ found. Spells names.now (level_of form) whole found.0) }
    ensures end { let whole = span (ends_at_commas form) 0 0 (drop at tokens.now) in IfOk result (λ found. found.1 ≡ at + length whole) }
    ensures none { let whole = span (ends_at_commas form) 0 0 (drop at tokens.now) in IfErr result (λ e. e ≡ fault.NoDerivation → (x : Expr) → ¬ (Spells names.now (level_of form) whole x)) }
{
    prove!(at <= tokens.len());
    let (tree, len) = first_expression(alloc, &tokens[at..], form, names)?;
    Ok((tree, at + len))
}
