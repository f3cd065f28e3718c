//! The operators with two operands: which operands they take, to which types these are converted, and of which type the result is
//! (C11 6.5.5 to 6.5.16).

ghost use Rattle.std.specs.Prelude.{◌≡◌, ◌&&◌, IfOk};
ghost use Rattle.c_layout.specs.Types.{int, is_integer, promoted};
ghost use Rattle.elab_meaning.specs.Conversions.{operand};
ghost use Rattle.elab_meaning.specs.Operators.{added, applied, assignment, chosen, compared, compound, conditional, difference, equated, in_common, kept, kind, moved, only_if, operation, ordered, refuses, subtracted, takes};

use crate::operands::{fits, is_null, is_void_pointer, points_to_no_size};
use c_layout::{CType, Tags, agreeing_pointers, is_integer, is_scalar, is_void, promoted, tag_of};
use c_tree::{AssignOp, BinaryOp, Rank, TypedExpr, common, ranked};
use elab_meaning::Operation;
use fc_base::NoMemory;
use tree_drops::{LetGo, both};

pub fn int() -> CType
    ensures { result ≡ int }
{
    ranked(Rank::Int, true)
}

fn refuses() -> Operation
    ensures { result ≡ refuses }
{
    Operation {
        incomplete: false,
        refused: true,
        left: CType::Void,
        right: CType::Void,
        result: CType::Void,
    }
}

/// Operands that are taken, at these types.
fn takes(left: CType, right: CType, gives: CType) -> Operation
    ensures { result ≡ takes left right gives }
{
    Operation {
        incomplete: false,
        refused: false,
        left,
        right,
        result: gives,
    }
}

/// Taken at these types where the test holds.
fn only_if(holds: bool, left: &CType, right: &CType, gives: &CType) -> Result<Operation, NoMemory>
    ensures { IfOk result (λ o. o ≡ only_if holds (takes left.now right.now gives.now)) }
{
    if holds {
        Ok(takes(left.share()?, right.share()?, gives.share()?))
    } else {
        Ok(refuses())
    }
}

/// Two integers, both converted to the common type, which is the result's.
fn in_common(a: &CType, b: &CType) -> Operation
    ensures { result ≡ in_common a.now b.now }
{
    takes(common(a, b), common(a, b), common(a, b))
}

/// Two integers, both converted to the common type, that give an int.
fn compared(a: &CType, b: &CType) -> Operation
    ensures { result ≡ compared a.now b.now }
{
    takes(common(a, b), common(a, b), int())
}

/// An operator of integers alone.
fn arithmetic(a: &CType, b: &CType) -> Operation
    ensures { result ≡ only_if (is_integer a.now && is_integer b.now) (in_common a.now b.now) }
{
    if is_integer(a) && is_integer(b) {
        in_common(a, b)
    } else {
        refuses()
    }
}

/// `< > <= >=`: both integers, or pointers that agree.
fn ordered(a: &CType, b: &CType) -> Result<Operation, NoMemory>
    ensures { IfOk result (λ o. o ≡ ordered (kind a.now) (kind b.now) a.now b.now) }
{
    match (a, b) {
        (CType::Int { .. }, CType::Int { .. }) => Ok(compared(a, b)),
        (CType::Ptr(_), CType::Ptr(_)) => only_if(agreeing_pointers(a, b), a, a, &int()),
        _ => Ok(refuses()),
    }
}

/// `==` and `!=`: the same, or a pointer and a null pointer constant.
fn equated(tags: &Tags, a: &TypedExpr, b: &TypedExpr) -> Result<Operation, NoMemory>
    ensures { IfOk result (λ o. o ≡ equated (kind a.now.ctype) (kind b.now.ctype) (operand tags.now a.now) (operand tags.now b.now)) }
{
    let left = &a.ctype;
    let right = &b.ctype;
    match (left, right) {
        (CType::Int { .. }, CType::Int { .. }) => Ok(compared(left, right)),
        (CType::Ptr(_), CType::Ptr(_)) => {
            only_if(agreeing_pointers(left, right), left, left, &int())
        }
        (CType::Ptr(_), CType::Int { .. }) => only_if(is_null(tags, b), left, left, &int()),
        (CType::Int { .. }, CType::Ptr(_)) => only_if(is_null(tags, a), right, right, &int()),
        _ => Ok(refuses()),
    }
}

/// A shift: each operand is promoted by itself, and the result is of the left one's type.
fn shifted(a: &CType, b: &CType) -> Result<Operation, NoMemory>
    ensures { IfOk result (λ o. o ≡ only_if (is_integer a.now && is_integer b.now)
        (takes (promoted a.now) (promoted b.now) (promoted a.now))) }
{
    let left = promoted(a)?;
    let right = promoted(b)?;
    only_if(is_integer(a) && is_integer(b), &left, &right, &left)
}

/// A pointer that is moved: what it points to needs a size.
fn moved(tags: &Tags, pointer: &CType, left: &CType, right: &CType) -> Result<Operation, NoMemory>
    ensures { IfOk result (λ o. o ≡ moved tags.now pointer.now left.now right.now) }
{
    Ok(Operation {
        incomplete: points_to_no_size(tags, pointer),
        refused: false,
        left: left.share()?,
        right: right.share()?,
        result: pointer.share()?,
    })
}

fn added(tags: &Tags, a: &CType, b: &CType) -> Result<Operation, NoMemory>
    ensures { IfOk result (λ o. o ≡ added tags.now (kind a.now) (kind b.now) a.now b.now) }
{
    match (a, b) {
        (CType::Int { .. }, CType::Int { .. }) => Ok(in_common(a, b)),
        (CType::Ptr(_), CType::Int { .. }) => moved(tags, a, a, b),
        (CType::Int { .. }, CType::Ptr(_)) => moved(tags, b, a, b),
        _ => Ok(refuses()),
    }
}

/// The difference of two pointers is a long.
fn difference(tags: &Tags, a: &CType, b: &CType) -> Result<Operation, NoMemory>
    ensures { IfOk result (λ o. o ≡ difference tags.now a.now b.now) }
{
    Ok(Operation {
        incomplete: points_to_no_size(tags, a) || points_to_no_size(tags, b),
        refused: !agreeing_pointers(a, b),
        left: a.share()?,
        right: b.share()?,
        result: ranked(Rank::Long, true),
    })
}

fn subtracted(tags: &Tags, a: &CType, b: &CType) -> Result<Operation, NoMemory>
    ensures { IfOk result (λ o. o ≡ subtracted tags.now (kind a.now) (kind b.now) a.now b.now) }
{
    match (a, b) {
        (CType::Int { .. }, CType::Int { .. }) => Ok(in_common(a, b)),
        (CType::Ptr(_), CType::Int { .. }) => moved(tags, a, a, b),
        (CType::Ptr(_), CType::Ptr(_)) => difference(tags, a, b),
        _ => Ok(refuses()),
    }
}

/// What a binary operator makes of its operands.
pub fn operation(
    tags: &Tags,
    op: BinaryOp,
    a: &TypedExpr,
    b: &TypedExpr,
) -> Result<Operation, NoMemory>
    ensures { IfOk result (λ o. o ≡ operation tags.now op (operand tags.now a.now) (operand tags.now b.now)) }
{
    let left = &a.ctype;
    let right = &b.ctype;
    match op {
        BinaryOp::LogicalOr | BinaryOp::LogicalAnd => {
            only_if(is_scalar(left) && is_scalar(right), left, right, &int())
        }
        BinaryOp::Equal | BinaryOp::NotEqual => equated(tags, a, b),
        BinaryOp::Less | BinaryOp::Greater | BinaryOp::LessEqual | BinaryOp::GreaterEqual => {
            ordered(left, right)
        }
        BinaryOp::ShiftLeft | BinaryOp::ShiftRight => shifted(left, right),
        BinaryOp::Add => added(tags, left, right),
        BinaryOp::Sub => subtracted(tags, left, right),
        BinaryOp::BitOr
        | BinaryOp::BitXor
        | BinaryOp::BitAnd
        | BinaryOp::Mul
        | BinaryOp::Div
        | BinaryOp::Rem => Ok(arithmetic(left, right)),
    }
}

/// The operator that a compound assignment applies, none of the plain one.
fn applied(op: AssignOp) -> Option<BinaryOp>
    ensures { result ≡ applied op }
{
    match op {
        AssignOp::Plain => None,
        AssignOp::Mul => Some(BinaryOp::Mul),
        AssignOp::Div => Some(BinaryOp::Div),
        AssignOp::Rem => Some(BinaryOp::Rem),
        AssignOp::Add => Some(BinaryOp::Add),
        AssignOp::Sub => Some(BinaryOp::Sub),
        AssignOp::ShiftLeft => Some(BinaryOp::ShiftLeft),
        AssignOp::ShiftRight => Some(BinaryOp::ShiftRight),
        AssignOp::BitAnd => Some(BinaryOp::BitAnd),
        AssignOp::BitXor => Some(BinaryOp::BitXor),
        AssignOp::BitOr => Some(BinaryOp::BitOr),
    }
}

/// The left side is kept, and the result is of its type.
fn kept(to: &CType, operation: Operation) -> Result<Operation, NoMemory>
    ensures { IfOk result (λ o. o ≡ kept to.now operation) }
{
    let Operation {
        incomplete,
        refused,
        left,
        right,
        result: gives,
    } = operation;
    (left, gives).let_go();
    let (right, left) = both(right, to.share())?;
    let ((right, left), gives) = both((right, left), to.share())?;
    Ok(Operation {
        incomplete,
        refused,
        left,
        right,
        result: gives,
    })
}

/// A compound assignment: both sides integers, or a pointer and an integer.
fn compound(
    tags: &Tags,
    op: BinaryOp,
    to: &TypedExpr,
    from: &TypedExpr,
) -> Result<Operation, NoMemory>
    ensures { IfOk result (λ o. o ≡ compound tags.now op (kind to.now.ctype) (kind from.now.ctype)
        (operand tags.now to.now) (operand tags.now from.now)) }
{
    match (&to.ctype, &from.ctype) {
        (CType::Int { .. } | CType::Ptr(_), CType::Int { .. }) => {
            kept(&to.ctype, operation(tags, op, to, from)?)
        }
        _ => Ok(refuses()),
    }
}

/// What an assignment operator makes of its sides.
pub fn assignment(
    tags: &Tags,
    op: AssignOp,
    to: &TypedExpr,
    from: &TypedExpr,
) -> Result<Operation, NoMemory>
    ensures { IfOk result (λ o. o ≡ assignment tags.now op (operand tags.now to.now) (operand tags.now from.now)) }
{
    let ctype = &to.ctype;
    match applied(op) {
        Some(op) => compound(tags, op, to, from),
        None => only_if(fits(tags, from, ctype), ctype, ctype, ctype),
    }
}

/// The type of two arms that are pointers.
fn chosen<'a>(tags: &Tags, a: &'a TypedExpr, b: &'a TypedExpr) -> &'a CType
    ensures { result.now ≡ chosen (operand tags.now a.now) (operand tags.now b.now) }
{
    if is_null(tags, a) {
        &b.ctype
    } else if is_null(tags, b) {
        &a.ctype
    } else if is_void_pointer(&b.ctype) {
        &b.ctype
    } else {
        &a.ctype
    }
}

/// What `?:` makes of its arms.
pub fn joined(tags: &Tags, a: &TypedExpr, b: &TypedExpr) -> Result<Operation, NoMemory>
    ensures { IfOk result (λ o. o ≡ conditional (operand tags.now a.now) (operand tags.now b.now)) }
{
    let left = &a.ctype;
    let right = &b.ctype;
    match (left, right) {
        (CType::Int { .. }, CType::Int { .. }) => Ok(in_common(left, right)),
        (CType::Ptr(_), CType::Ptr(_)) => {
            let gives = chosen(tags, a, b);
            only_if(agreeing_pointers(left, right), gives, gives, gives)
        }
        (CType::Ptr(_), CType::Int { .. }) => only_if(is_null(tags, b), left, left, left),
        (CType::Int { .. }, CType::Ptr(_)) => only_if(is_null(tags, a), right, right, right),
        (CType::Int { .. } | CType::Ptr(_), _) | (_, CType::Int { .. } | CType::Ptr(_)) => {
            Ok(refuses())
        }
        _ => {
            let holds = left.is_same(right) && (tag_of(left).is_some() || is_void(left));
            only_if(holds, left, left, left)
        }
    }
}
