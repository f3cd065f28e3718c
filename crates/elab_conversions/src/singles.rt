//! The operators with one operand, and the subscript (C11 6.5.2.1, 6.5.2.4 and 6.5.3).

ghost use Rattle.std.specs.Prelude.{◌≡◌, false, not, IfOk};
ghost use Rattle.c_layout.specs.declared.types.CType.TheVariants.{Ptr};
ghost use Rattle.c_layout.specs.Types.{int, is_integer, is_scalar, pointed, promoted};
ghost use Rattle.c_tree.specs.declared.operators.PrefixOp.TheVariants.{Indirection};
ghost use Rattle.elab_meaning.specs.Conversions.{operand};
ghost use Rattle.elab_meaning.specs.Operators.{pointer_sum, single, stepped, subscript, unary};

use crate::operands::points_to_no_size;
use crate::operations::{int, operation};
use c_layout::{CType, Tags, is_array, is_integer, is_pointer, is_scalar, promoted};
use c_tree::{BinaryOp, PrefixOp, TypedExpr};
use elab_meaning::{Operation, Single};
use fc_base::NoMemory;
use shared_values::Shared;
use std::alloc::Global;
use tree_drops::{LetGo, both};

/// What a pointer points to, void for another type.
fn target(ctype: &CType) -> Result<CType, NoMemory>
    ensures { IfOk result (λ t. t ≡ pointed ctype.now) }
{
    match ctype {
        CType::Ptr(of) => of.get().share(),
        _ => Ok(CType::Void),
    }
}

/// `++` and `--`: a scalar, where a pointer is moved by one element.
pub fn stepped(tags: &Tags, ctype: &CType) -> Result<Single, NoMemory>
    ensures { IfOk result (λ o. o ≡ stepped tags.now ctype.now) }
{
    Ok(Single {
        incomplete: points_to_no_size(tags, ctype),
        refused: !(is_scalar(ctype) || is_array(ctype)),
        operand: ctype.share()?,
        result: ctype.share()?,
    })
}

/// `&`
fn addressed(alloc: Global, ctype: &CType) -> Result<Single, NoMemory>
    ensures { IfOk result (λ o. o ≡ single false ctype.now (Ptr ctype.now)) }
{
    Ok(Single {
        incomplete: false,
        refused: false,
        operand: ctype.share()?,
        result: CType::Ptr(Shared::new(alloc, ctype.share()?)?),
    })
}

/// `*`
fn followed(tags: &Tags, ctype: &CType) -> Result<Single, NoMemory>
    ensures { IfOk result (λ o. o ≡ unary tags.now Indirection ctype.now) }
{
    Ok(Single {
        incomplete: points_to_no_size(tags, ctype),
        refused: !is_pointer(ctype),
        operand: ctype.share()?,
        result: target(ctype)?,
    })
}

/// Unary `+`, `-` and `~`: an integer, promoted.
fn promoting(ctype: &CType) -> Result<Single, NoMemory>
    ensures { IfOk result (λ o. o ≡ single (not (is_integer ctype.now)) (promoted ctype.now) (promoted ctype.now)) }
{
    Ok(Single {
        incomplete: false,
        refused: !is_integer(ctype),
        operand: promoted(ctype)?,
        result: promoted(ctype)?,
    })
}

/// `!`: a scalar, as it is.
fn negated(ctype: &CType) -> Result<Single, NoMemory>
    ensures { IfOk result (λ o. o ≡ single (not (is_scalar ctype.now)) ctype.now int) }
{
    Ok(Single {
        incomplete: false,
        refused: !is_scalar(ctype),
        operand: ctype.share()?,
        result: int(),
    })
}

/// What an operator before its operand makes of it.
pub fn unary(alloc: Global, tags: &Tags, op: PrefixOp, ctype: &CType) -> Result<Single, NoMemory>
    ensures { IfOk result (λ o. o ≡ unary tags.now op ctype.now) }
{
    match op {
        PrefixOp::Increment | PrefixOp::Decrement => stepped(tags, ctype),
        PrefixOp::Address => addressed(alloc, ctype),
        PrefixOp::Indirection => followed(tags, ctype),
        PrefixOp::Plus | PrefixOp::Minus | PrefixOp::BitNot => promoting(ctype),
        PrefixOp::Not => negated(ctype),
    }
}

/// The sum of a pointer and an integer, as what it points to.
fn pointer_sum(sum: Operation) -> Result<Single, NoMemory>
    ensures { IfOk result (λ o. o ≡ pointer_sum sum) }
{
    let Operation {
        incomplete,
        refused,
        left,
        right,
        result: pointer,
    } = sum;
    (left, right).let_go();
    let refused = refused || !is_pointer(&pointer);
    let element = target(&pointer);
    let (operand, element) = both(pointer, element)?;
    Ok(Single {
        incomplete,
        refused,
        operand,
        result: element,
    })
}

/// `a[b]`: one pointer and one integer.
pub fn subscript(tags: &Tags, a: &TypedExpr, b: &TypedExpr) -> Result<Single, NoMemory>
    ensures { IfOk result (λ o. o ≡ subscript tags.now (operand tags.now a.now) (operand tags.now b.now)) }
{
    pointer_sum(operation(tags, BinaryOp::Add, a, b)?)
}
