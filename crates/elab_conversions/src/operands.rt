//! Operands: sizes, null pointer constants, and what fits a type that it is assigned to (C11 6.3.2.3 and 6.5.16.1).

ghost use Rattle.std.specs.Prelude.{◌≡◌};
ghost use Rattle.elab_meaning.specs.Conversions.{casts_zero, fits, has_size, is_null, is_void_pointer, is_zero, operand, points_to_no_size};
ghost use Rattle.elab_meaning.specs.Operators.{can_be_cast, crosses};
ghost use Rattle.c_tree.specs.declared.typed.TypedKind.{out-TypedKind};

use c_layout::{
    CType, LayoutFault, Tags, agreeing_pointers, is_integer, is_pointer, is_scalar, is_void,
    layout_of, tag_of,
};
use c_tree::{TypedExpr, TypedKind, constant_of};

/// Whether a type has a size.
pub fn has_size(tags: &Tags, ctype: &CType) -> bool
    ensures { result ≡ has_size tags.now ctype.now }
{
    match layout_of(tags, ctype) {
        Ok(_) | Err(LayoutFault::TooBig) => true,
        Err(LayoutFault::Incomplete) => false,
    }
}

/// A pointer to a type without a size.
pub fn points_to_no_size(tags: &Tags, ctype: &CType) -> bool
    ensures { result ≡ points_to_no_size tags.now ctype.now }
{
    match ctype {
        CType::Ptr(of) => !has_size(tags, of.get()),
        _ => false,
    }
}

pub fn is_void_pointer(ctype: &CType) -> bool
    ensures { result ≡ is_void_pointer ctype.now }
{
    match ctype {
        CType::Ptr(of) => is_void(of.get()),
        _ => false,
    }
}

/// An integer constant expression of value 0.
fn is_zero(tags: &Tags, expr: &TypedExpr) -> bool
    ensures { result ≡ is_zero tags.now expr.now }
{
    is_integer(&expr.ctype) && matches!(constant_of(tags, expr), Some(0))
}

/// A written cast of one.
fn casts_zero(tags: &Tags, kind: &TypedKind) -> bool
    ensures { result ≡ casts_zero tags.now (out-TypedKind kind.now) }
{
    match kind {
        TypedKind::Cast { of, added: false } => is_zero(tags, of.get()),
        _ => false,
    }
}

/// A null pointer constant: an integer constant expression of value 0, or a written cast of one to `void *`.
pub fn is_null(tags: &Tags, expr: &TypedExpr) -> bool
    ensures { result ≡ is_null tags.now expr.now }
{
    is_zero(tags, expr) || (is_void_pointer(&expr.ctype) && casts_zero(tags, &expr.kind))
}

/// Whether an operand fits a type that it is assigned to.
pub fn fits(tags: &Tags, from: &TypedExpr, to: &CType) -> bool
    ensures { result ≡ fits (operand tags.now from.now) to.now }
{
    (is_integer(&from.ctype) && is_integer(to))
        || agreeing_pointers(&from.ctype, to)
        || (is_pointer(to) && is_null(tags, from))
        || (tag_of(to).is_some() && from.ctype.is_same(to))
}

/// What C11 6.5.4 casts: anything to void, and a scalar to a scalar.
pub fn can_be_cast(from: &CType, to: &CType) -> bool
    ensures { result ≡ can_be_cast from.now to.now }
{
    is_void(to) || (is_scalar(from) && is_scalar(to))
}

/// A cast between an integer and a pointer, but of a null pointer constant to a pointer.
pub fn crosses(tags: &Tags, from: &TypedExpr, to: &CType) -> bool
    ensures { result ≡ crosses (operand tags.now from.now) to.now }
{
    (is_pointer(&from.ctype) && is_integer(to))
        || (is_integer(&from.ctype) && is_pointer(to) && !is_null(tags, from))
}
