//! Statements without statements in them, labels, and the heads of statements (C11 6.8).

ghost use Rattle.std.specs.Prelude.{◌≡◌, ◌<◌, ◌≤◌, ◌+◌, ◌*◌, ◌^◌, IfOk};
ghost use Rattle.parse_reading.specs.Reading.{expression};
ghost use Rattle.parse_reading.specs.ReadingStatements as spec;
ghost use Rattle.parse_tokens.specs.Rooms.{depth_room};
ghost use Rattle.parse_tokens.specs.Gives.{Gives};
ghost use Rattle.parse_statements.specs.Lists.{do_test_of};
ghost use Rattle.parse_initialisers.specs.Readers.{Within, locals};

use crate::optional::{End, optional};
use c_tree::{Expr, ForHead, Stmt};
use fc_base::Place;
use parse_expressions::expression;
use parse_initialisers::local_declaration;
use parse_meaning::{Keyword, Terminal};
use parse_operators::{CONDITIONAL, EXPRESSION};
use parse_tokens::{
    ParseFault, Tokens, WithHeight, before_colon, before_right_paren, before_semicolon,
};
use std::alloc::Global;

/// `case 1:`, behind the word (C11 6.8.1).
#[tactic(auto, unfolding(parse_reading::specs::ReadingStatements::case_label))]
fn case_label(
    alloc: Global,
    tokens: &mut Tokens<'_>,
    depth: usize,
    place: Place,
) -> Result<WithHeight<Stmt>, ParseFault>
    requires { depth < depth_room }
    ensures reads { Gives (spec.case_label (expression depth) (locals depth) (spec.statement depth) place tokens.old) result tokens.new }
    ensures low { IfOk result (λ x. x.height ≤ depth + 1) }
{
    let value = expression(alloc, tokens, depth, CONDITIONAL)?;
    let label = WithHeight {
        tree: Stmt::Case {
            value: value.tree,
            place,
        },
        height: value.height + 1,
    };
    before_colon(tokens, label)
}

/// `default:`, behind the word (C11 6.8.1).
#[tactic(auto, unfolding(parse_reading::specs::ReadingStatements::default_label))]
fn default_label(
    tokens: &mut Tokens<'_>,
    depth: usize,
    place: Place,
) -> Result<WithHeight<Stmt>, ParseFault>
    ensures reads { Gives (spec.default_label (expression depth) (locals depth) (spec.statement depth) place tokens.old) result tokens.new }
    ensures low { IfOk result (λ x. x.height ≤ 1) }
{
    tokens.expect_colon()?;
    Ok(WithHeight {
        tree: Stmt::Default { place },
        height: 1,
    })
}

/// A label of a switch.
pub fn label(
    alloc: Global,
    tokens: &mut Tokens<'_>,
    depth: usize,
) -> Result<WithHeight<Stmt>, ParseFault>
    requires { depth < depth_room }
    ensures reads { Gives (spec.label (expression depth) (locals depth) (spec.statement depth) tokens.old) result tokens.new }
    ensures low { IfOk result (λ x. x.height ≤ depth + 1) }
{
    match tokens.next() {
        Some((Terminal::Word(Keyword::Case), word)) => {
            case_label(alloc, tokens, depth, word.place)
        }
        Some((Terminal::Word(Keyword::Default), word)) => default_label(tokens, depth, word.place),
        _ => Err(ParseFault::NoDerivation),
    }
}

/// Whether the next token begins a label.
pub fn begins_label(tokens: &Tokens<'_>, depth: usize) -> bool
    ensures { result ≡ spec.begins_label (expression depth) (locals depth) (spec.statement depth) tokens.now }
{
    matches!(
        tokens.peek(),
        Some(Terminal::Word(Keyword::Case | Keyword::Default))
    )
}

/// `int a = 1, *b;` among the items of a block.
#[tactic(auto, unfolding(parse_reading::specs::ReadingStatements::declared_item))]
pub fn declared_item(
    alloc: Global,
    tokens: &mut Tokens<'_>,
    depth: usize,
) -> Result<WithHeight<Stmt>, ParseFault>
    requires { depth < depth_room }
    ensures reads { Gives (spec.declared_item (expression depth) (locals depth) (spec.statement depth) tokens.old) result tokens.new }
    ensures low { IfOk result (λ x. x.height ≤ 2 * depth + 1 + 2 ^ 63) }
{
    let place = tokens.place();
    let WithHeight { tree, height } = local_declaration(alloc, tokens, depth)?;
    Ok(WithHeight {
        tree: Stmt::Declare {
            specs: tree.specs,
            declarators: tree.declarators,
            place,
        },
        height: height + 1,
    })
}

/// `a;` or `;` (C11 6.8.3).
#[tactic(auto, unfolding(parse_reading::specs::ReadingStatements::evaluation))]
pub fn evaluation(
    alloc: Global,
    tokens: &mut Tokens<'_>,
    depth: usize,
) -> Result<WithHeight<Stmt>, ParseFault>
    requires { depth < depth_room }
    ensures reads { Gives (spec.evaluation (expression depth) (locals depth) (spec.statement depth) tokens.old) result tokens.new }
    ensures low { IfOk result (λ x. x.height ≤ depth + 1) }
{
    let place = tokens.place();
    let found = optional(alloc, tokens, depth, End::Semicolon)?;
    Ok(WithHeight {
        tree: Stmt::Expr {
            expr: found.tree,
            place,
        },
        height: found.height + 1,
    })
}

/// `(a)`, as the head of a statement.
#[tactic(auto, unfolding(parse_reading::specs::ReadingStatements::condition))]
pub fn condition(
    alloc: Global,
    tokens: &mut Tokens<'_>,
    depth: usize,
) -> Result<WithHeight<Expr>, ParseFault>
    requires { depth < depth_room }
    ensures reads { Gives (spec.condition (expression depth) (locals depth) (spec.statement depth) tokens.old) result tokens.new }
    ensures low { IfOk result (λ x. x.height ≤ depth) }
{
    tokens.expect_left_paren()?;
    let found = expression(alloc, tokens, depth, EXPRESSION)?;
    before_right_paren(tokens, found)
}

/// `while (a)`, behind the body of a `do` (C11 6.8.5.2).
pub fn do_test(
    alloc: Global,
    tokens: &mut Tokens<'_>,
    depth: usize,
) -> Result<WithHeight<Expr>, ParseFault>
    requires { depth < depth_room }
    ensures reads { Gives (do_test_of depth tokens.old) result tokens.new }
    ensures low { IfOk result (λ x. x.height ≤ depth) }
{
    tokens.expect_while()?;
    condition(alloc, tokens, depth)
}

/// A declaration, as the head of a `for`.
#[tactic(auto, unfolding(parse_reading::specs::ReadingStatements::head_local))]
fn head_local(
    alloc: Global,
    tokens: &mut Tokens<'_>,
    depth: usize,
) -> Result<WithHeight<ForHead>, ParseFault>
    requires { depth < depth_room }
    ensures reads { Gives (spec.head_local (expression depth) (locals depth) (spec.statement depth) tokens.old) result tokens.new }
    ensures low { Within depth result }
{
    let WithHeight { tree, height } = local_declaration(alloc, tokens, depth)?;
    Ok(WithHeight {
        tree: ForHead::Declare {
            specs: tree.specs,
            declarators: tree.declarators,
        },
        height,
    })
}

/// An expression or none with its semicolon, as the head of a `for`.
#[tactic(auto, unfolding(parse_reading::specs::ReadingStatements::head_expr))]
fn head_expr(
    alloc: Global,
    tokens: &mut Tokens<'_>,
    depth: usize,
) -> Result<WithHeight<ForHead>, ParseFault>
    requires { depth < depth_room }
    ensures reads { Gives (spec.head_expr (expression depth) (locals depth) (spec.statement depth) tokens.old) result tokens.new }
    ensures low { Within depth result }
{
    let found = optional(alloc, tokens, depth, End::Semicolon)?;
    Ok(WithHeight {
        tree: ForHead::Expr(found.tree),
        height: found.height,
    })
}

/// What stands first in the head of a `for`, with its semicolon (C11 6.8.5).
pub fn for_head(
    alloc: Global,
    tokens: &mut Tokens<'_>,
    depth: usize,
) -> Result<WithHeight<ForHead>, ParseFault>
    requires { depth < depth_room }
    ensures reads { Gives (spec.for_head (expression depth) (locals depth) (spec.statement depth) tokens.old) result tokens.new }
    ensures low { Within depth result }
{
    if tokens.begins_spec() {
        head_local(alloc, tokens, depth)
    } else {
        head_expr(alloc, tokens, depth)
    }
}

/// A statement of one word and a semicolon, behind the word (C11 6.8.6).
#[tactic(auto, unfolding(parse_reading::specs::ReadingStatements::jump))]
pub fn jump(
    tokens: &mut Tokens<'_>,
    depth: usize,
    tree: Stmt,
) -> Result<WithHeight<Stmt>, ParseFault>
    ensures reads { Gives (spec.jump (expression depth) (locals depth) (spec.statement depth) tree tokens.old) result tokens.new }
    ensures low { IfOk result (λ x. x.height ≤ 1) }
{
    before_semicolon(tokens, WithHeight { tree, height: 1 })
}

/// `return a;` or `return;`, behind the word (C11 6.8.6.4).
#[tactic(auto, unfolding(parse_reading::specs::ReadingStatements::returned))]
pub fn returned(
    alloc: Global,
    tokens: &mut Tokens<'_>,
    depth: usize,
    place: Place,
) -> Result<WithHeight<Stmt>, ParseFault>
    requires { depth < depth_room }
    ensures reads { Gives (spec.returned (expression depth) (locals depth) (spec.statement depth) place tokens.old) result tokens.new }
    ensures low { IfOk result (λ x. x.height ≤ depth + 1) }
{
    let found = optional(alloc, tokens, depth, End::Semicolon)?;
    Ok(WithHeight {
        tree: Stmt::Return {
            value: found.tree,
            place,
        },
        height: found.height + 1,
    })
}
