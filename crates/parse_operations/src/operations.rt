//! What expressions go on with, and the nodes that come of it.

ghost use Rattle.std.specs.Prelude.{◌≡◌, ◌≤◌, ◌<◌, ◌∷◌, List, suc, max, IfOk};
ghost use Rattle.c_tree.specs.declared.nodes.ExprKind.TheVariants as e;
ghost use Rattle.parse_tokens.specs.Rooms.{height_room};
ghost use Rattle.parse_meaning.specs.Terminals.{Lexeme};
ghost use Rattle.parse_meaning.specs.Expressions.{expr};
ghost use Rattle.parse_operations.specs.LeftOperands.{as_left_operand};
ghost use Rattle.parse_operations.specs.Operations.{FitsOperation, with_operation};

use crate::left_operands::{LeftOperand, boxed_pair, boxed_three};
use c_tree::{AssignOp, BinaryOp, Expr, ExprKind, PostfixOp};
use fc_base::{Place, Text};
use parse_leaves::boxed_behind;
use parse_operators::{ASSIGNMENT, CONDITIONAL, EXPRESSION, POSTFIX};
use parse_tokens::WithHeight;
use sqlite_items::Items;
use std::alloc::{AllocError, Global};
use tree_drops::{IntoBox, expr_list};

/// What stands behind an expression and makes it one of a looser level.
#[derive(Drop)]
pub enum Operation {
    /// `(b, c)`
    Call(WithHeight<Items<Expr>>),
    /// `[b]`
    Index(WithHeight<Expr>),
    /// `.b` or `->b`, and the place of b.
    Member {
        arrow: bool,
        name: Text,
        place: Place,
    },
    /// `++` or `--`
    Step(PostfixOp),
    /// `? b : c`
    Choice {
        yes: WithHeight<Expr>,
        no: WithHeight<Expr>,
    },
    /// `= b`
    Assign(AssignOp, WithHeight<Expr>),
    /// `+ b`, and the level of b.
    Join(BinaryOp, u8, WithHeight<Expr>),
    /// `, b, c`
    List(WithHeight<Items<Expr>>),
}

/// `a(b, c)` (C11 6.5.2.2).
fn call(
    alloc: Global,
    left: LeftOperand,
    args: WithHeight<Items<Expr>>,
) -> Result<LeftOperand, AllocError>
    requires left { left.height < height_room }
    requires args { args.height < height_room }
    ensures { IfOk result (λ x. x ≡ record { level = 1; tree = expr (e.Call left.tree args.tree) left.tree.place; height = suc (max left.height args.height) }) }
{
    let place = left.tree.place;
    let height = left.height.max(args.height) + 1;
    let (args, callee) = boxed_behind(alloc, args.tree, left.tree)?;
    Ok(LeftOperand::new(POSTFIX, ExprKind::Call { callee, args }, place, height))
}

/// `a[b]` (C11 6.5.2.1).
fn index(
    alloc: Global,
    left: LeftOperand,
    index: WithHeight<Expr>,
    place: Place,
) -> Result<LeftOperand, AllocError>
    requires left { left.height < height_room }
    requires index { index.height < height_room }
    ensures { IfOk result (λ x. x ≡ record { level = 1; tree = expr (e.Index left.tree index.tree) place; height = suc (max left.height index.height) }) }
{
    let height = left.height.max(index.height) + 1;
    let (base, index) = boxed_pair(alloc, left.tree, index.tree)?;
    Ok(LeftOperand::new(POSTFIX, ExprKind::Index { base, index }, place, height))
}

/// `a.b` or `a->b` (C11 6.5.2.3).
fn member(
    alloc: Global,
    left: LeftOperand,
    arrow: bool,
    name: Text,
    place: Place,
) -> Result<LeftOperand, AllocError>
    requires { left.height < height_room }
    ensures { IfOk result (λ x. x ≡ record { level = 1; tree = expr (e.Member left.tree arrow name) place; height = suc left.height }) }
{
    let height = left.height + 1;
    let (name, base) = boxed_behind(alloc, name, left.tree)?;
    Ok(LeftOperand::new(
        POSTFIX,
        ExprKind::Member { base, arrow, name },
        place,
        height,
    ))
}

/// `a++` or `a--` (C11 6.5.2.4).
fn step(
    alloc: Global,
    left: LeftOperand,
    op: PostfixOp,
    start: Place,
) -> Result<LeftOperand, AllocError>
    requires { left.height < height_room }
    ensures { IfOk result (λ x. x ≡ record { level = 1; tree = expr (e.Postfix op left.tree) start; height = suc left.height }) }
{
    let height = left.height + 1;
    let of = Expr::boxed(alloc, left.tree)?;
    Ok(LeftOperand::new(POSTFIX, ExprKind::Postfix { op, of }, start, height))
}

/// `a ? b : c` (C11 6.5.15).
fn choice(
    alloc: Global,
    left: LeftOperand,
    yes: WithHeight<Expr>,
    no: WithHeight<Expr>,
    place: Place,
) -> Result<LeftOperand, AllocError>
    requires left { left.height < height_room }
    requires yes { yes.height < height_room }
    requires no { no.height < height_room }
    ensures { IfOk result (λ x. x ≡ record { level = 14; tree = expr (e.Cond left.tree yes.tree no.tree) place; height = suc (max left.height (max yes.height no.height)) }) }
{
    let height = left.height.max(yes.height.max(no.height)) + 1;
    let (test, yes, no) = boxed_three(alloc, left.tree, yes.tree, no.tree)?;
    Ok(LeftOperand::new(CONDITIONAL, ExprKind::Cond { test, yes, no }, place, height))
}

/// `a = b` (C11 6.5.16).
fn assign(
    alloc: Global,
    left: LeftOperand,
    op: AssignOp,
    from: WithHeight<Expr>,
    place: Place,
) -> Result<LeftOperand, AllocError>
    requires left { left.height < height_room }
    requires from { from.height < height_room }
    ensures { IfOk result (λ x. x ≡ record { level = 15; tree = expr (e.Assign op left.tree from.tree) place; height = suc (max left.height from.height) }) }
{
    let height = left.height.max(from.height) + 1;
    let (to, from) = boxed_pair(alloc, left.tree, from.tree)?;
    Ok(LeftOperand::new(ASSIGNMENT, ExprKind::Assign { op, to, from }, place, height))
}

/// `a + b` (C11 6.5.5 to 6.5.14).
fn join(
    alloc: Global,
    left: LeftOperand,
    op: BinaryOp,
    level: u8,
    right: WithHeight<Expr>,
    place: Place,
) -> Result<LeftOperand, AllocError>
    requires left { left.height < height_room }
    requires right { right.height < height_room }
    requires level { level ≤ 16 }
    ensures { IfOk result (λ x. x ≡ record { level = suc level; tree = expr (e.Binary op left.tree right.tree) place; height = suc (max left.height right.height) }) }
{
    let height = left.height.max(right.height) + 1;
    let (a, b) = boxed_pair(alloc, left.tree, right.tree)?;
    Ok(LeftOperand::new(level + 1, ExprKind::Binary { op, a, b }, place, height))
}

/// `a, b, c` (C11 6.5.17).
fn list(
    alloc: Global,
    left: LeftOperand,
    others: WithHeight<Items<Expr>>,
    start: Place,
) -> Result<LeftOperand, AllocError>
    requires left { left.height < height_room }
    requires others { others.height < height_room }
    ensures { IfOk result (λ x. x ≡ record { level = 16; tree = expr (e.Comma (left.tree ∷ others.tree)) start; height = suc (max left.height others.height) }) }
{
    let height = left.height.max(others.height) + 1;
    let all = expr_list(alloc, left.tree, others.tree)?;
    Ok(LeftOperand::new(EXPRESSION, ExprKind::Comma(all), start, height))
}

/// The expression with its tail. It started at `start`, and the tail's first token has the place.
pub fn with_operation(
    alloc: Global,
    left: LeftOperand,
    tail: Operation,
    start: Place,
    place: Place,
) -> Result<LeftOperand, AllocError>
    requires left { left.height < height_room }
    requires tail { FitsOperation tail }
    ensures { IfOk result (λ x. (t : List Lexeme) → as_left_operand x t ≡ with_operation start left.tree left.height tail place t) }
{
    match tail {
        Operation::Call(args) => call(alloc, left, args),
        Operation::Index(at) => index(alloc, left, at, place),
        Operation::Member { arrow, name, place } => member(alloc, left, arrow, name, place),
        Operation::Step(op) => step(alloc, left, op, start),
        Operation::Choice { yes, no } => choice(alloc, left, yes, no, place),
        Operation::Assign(op, from) => assign(alloc, left, op, from, place),
        Operation::Join(op, level, right) => join(alloc, left, op, level, right, place),
        Operation::List(others) => list(alloc, left, others, start),
    }
}
