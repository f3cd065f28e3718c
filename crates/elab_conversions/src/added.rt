//! Conversions that typing adds, each a `Cast` at the place of its operand.

ghost use Rattle.std.specs.Prelude.{◌≡◌, IfOk};
ghost use Rattle.c_layout.specs.declared.types.CType.TheVariants.{Ptr};
ghost use Rattle.c_layout.specs.Types.{element};
ghost use Rattle.elab_meaning.specs.Conversions.{converted, decayed};

use c_layout::{CType, is_array};
use c_tree::TypedExpr;
use fc_base::NoMemory;
use shared_values::Shared;
use std::alloc::Global;
use tree_drops::{LetGo, both, typed_cast};

/// The expression with a conversion to the type, where its type is another.
pub fn converted(alloc: Global, to: &CType, expr: TypedExpr) -> Result<TypedExpr, NoMemory>
    ensures { IfOk result (λ e. e ≡ converted to.now expr) }
{
    if to.is_same(&expr.ctype) {
        return Ok(expr);
    }
    let place = expr.place;
    let (expr, to) = both(expr, to.share())?;
    Ok(typed_cast(alloc, true, expr, to, place)?)
}

/// A pointer to the element of an array.
fn element_pointer(alloc: Global, array: &CType) -> Result<CType, NoMemory>
    ensures { IfOk result (λ t. t ≡ Ptr (element array.now)) }
{
    match array {
        CType::Array(of, _) | CType::OpenArray(of) => Ok(CType::Ptr(of.share()?)),
        _ => Ok(CType::Ptr(Shared::new(alloc, CType::Void)?)),
    }
}

/// The expression as a value: an array becomes a pointer to its first element (C11 6.3.2.1p3).
pub fn decayed(alloc: Global, expr: TypedExpr) -> Result<TypedExpr, NoMemory>
    ensures { IfOk result (λ e. e ≡ decayed expr) }
{
    if !is_array(&expr.ctype) {
        return Ok(expr);
    }
    let place = expr.place;
    let pointer = element_pointer(alloc, &expr.ctype);
    let (expr, pointer) = both(expr, pointer)?;
    Ok(typed_cast(alloc, true, expr, pointer, place)?)
}

/// The same with a type that is let go here.
pub(crate) fn converted_to(alloc: Global, to: CType, expr: TypedExpr) -> Result<TypedExpr, NoMemory>
    ensures { IfOk result (λ e. e ≡ converted to expr) }
{
    let of_type = converted(alloc, &to, expr);
    to.let_go();
    of_type
}

/// Two expressions, each converted to a type.
pub(crate) fn both_converted(
    alloc: Global,
    left: CType,
    a: TypedExpr,
    right: CType,
    b: TypedExpr,
) -> Result<(TypedExpr, TypedExpr), NoMemory>
    ensures { IfOk result (λ x. (x.0 ≡ converted left a) × (x.1 ≡ converted right b)) }
{
    match converted_to(alloc, left, a) {
        Ok(a) => both(a, converted_to(alloc, right, b)),
        Err(fault) => {
            (right, b).let_go();
            Err(fault)
        }
    }
}
