//! Integer constant expressions (C11 6.6), and their values.

ghost use Rattle.std.specs.Prelude.{◌≡◌};
ghost use Rattle.c_arithmetic.specs.Arithmetic.{binary};
ghost use Rattle.c_tree.specs.Constants.{beside, with_value, judged, tested, combined, chosen, sized, constant, constant_of};
ghost use Rattle.c_tree.specs.declared.operators.BinaryOp.TheVariants.{LogicalAnd, LogicalOr};
ghost use Rattle.c_layout.specs.Layouts.{layout_within_limit};

use crate::operators::{BinaryOp, int_type};
use crate::typed::{TypedExpr, TypedKind};
use c_arithmetic::{BinaryOperator, IntType, binary, unary};
use c_layout::{CType, Tags, layout_of};
use fc_base::extend;

/// What an expression is by C11 6.6p6: no integer constant expression, one that divides or shifts badly where it is
/// evaluated, or one of a value.
#[derive(Clone, Copy)]
pub enum Constant {
    NotConstant,
    Undefined,
    Value(u64),
}

fn tested(of: Constant) -> Constant
    ensures { result ≡ tested of }
{
    match of {
        Constant::Value(0) => Constant::Value(0),
        Constant::Value(_) => Constant::Value(1),
        _ => of,
    }
}

/// An operator that evaluates both operands.
fn computed(operator: BinaryOperator, of: IntType, a: Constant, b: Constant) -> Constant
    ensures { result ≡ beside b (with_value a (λ m. with_value b (λ n. judged (binary operator of m n)))) }
{
    match (a, b) {
        (Constant::NotConstant, _) | (_, Constant::NotConstant) => Constant::NotConstant,
        (Constant::Undefined, _) | (_, Constant::Undefined) => Constant::Undefined,
        (Constant::Value(m), Constant::Value(n)) => match binary(operator, of, m, n) {
            Ok(value) => Constant::Value(value),
            Err(_) => Constant::Undefined,
        },
    }
}

fn either(a: Constant, b: Constant, of: IntType) -> Constant
    ensures { result ≡ combined LogicalOr of a b }
{
    match (a, b) {
        (_, Constant::NotConstant) => Constant::NotConstant,
        (Constant::Value(0), _) => tested(b),
        (Constant::Value(_), _) => Constant::Value(1),
        _ => a,
    }
}

fn both(a: Constant, b: Constant, of: IntType) -> Constant
    ensures { result ≡ combined LogicalAnd of a b }
{
    match (a, b) {
        (_, Constant::NotConstant) => Constant::NotConstant,
        (Constant::Value(0), _) => a,
        (Constant::Value(_), _) => tested(b),
        _ => a,
    }
}

fn combined(operator: BinaryOp, of: IntType, a: Constant, b: Constant) -> Constant
    ensures { result ≡ combined operator of a b }
{
    match operator {
        BinaryOp::LogicalOr => either(a, b, of),
        BinaryOp::LogicalAnd => both(a, b, of),
        _ => match operator.arithmetic() {
            Some(operator) => computed(operator, of, a, b),
            None => Constant::NotConstant,
        },
    }
}

#[tactic(auto, unfolding(crate::specs::Constants::chosen))]
fn chosen(test: Constant, a: Constant, b: Constant) -> Constant
    ensures { result ≡ chosen test a b }
{
    match (a, b, test) {
        (Constant::NotConstant, _, _) | (_, Constant::NotConstant, _) => Constant::NotConstant,
        (_, _, Constant::Value(0)) => b,
        (_, _, Constant::Value(_)) => a,
        _ => test,
    }
}

fn sized(tags: &Tags, ctype: &CType) -> Constant
    ensures { result ≡ sized (layout_within_limit tags.now ctype.now) }
{
    match layout_of(tags, ctype) {
        Ok(layout) => Constant::Value(layout.size),
        Err(_) => Constant::NotConstant,
    }
}

/// What an expression is as an integer constant expression.
pub fn evaluated(tags: &Tags, expr: &TypedExpr) -> Constant
    ensures { result ≡ constant tags.now expr.now }
{
    let Some(of) = int_type(&expr.ctype) else {
        return Constant::NotConstant;
    };
    match &expr.kind {
        TypedKind::Number(value) => Constant::Value(*value),
        TypedKind::Cond { test, yes, no } => chosen(
            evaluated(tags, test.get()),
            evaluated(tags, yes.get()),
            evaluated(tags, no.get()),
        ),
        TypedKind::Binary { op, a, b } => match int_type(&a.get().ctype) {
            Some(left) => combined(
                *op,
                left,
                evaluated(tags, a.get()),
                evaluated(tags, b.get()),
            ),
            None => Constant::NotConstant,
        },
        TypedKind::Cast { of: operand, .. } => match evaluated(tags, operand.get()) {
            Constant::Value(bits) => Constant::Value(extend(bits, of.width, of.signed)),
            other => other,
        },
        TypedKind::Prefix { op, of: operand } => match op.arithmetic() {
            Some(operator) => match evaluated(tags, operand.get()) {
                Constant::Value(value) => Constant::Value(unary(operator, of, value)),
                other => other,
            },
            None => Constant::NotConstant,
        },
        TypedKind::SizeofExpr(operand) => sized(tags, &operand.get().ctype),
        TypedKind::SizeofType(ctype) => sized(tags, ctype),
        _ => Constant::NotConstant,
    }
}

/// The value of an integer constant expression, extended to 64 bits by its type as a `Number` is; none of any other
/// expression, and of one that divides or shifts badly where it is evaluated.
pub fn constant_of(tags: &Tags, expr: &TypedExpr) -> Option<u64>
    ensures { result ≡ constant_of tags.now expr.now }
{
    match evaluated(tags, expr) {
        Constant::Value(value) => Some(value),
        _ => None,
    }
}
