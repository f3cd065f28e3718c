//! Typed expressions made of their operands. Where memory is wanting, all of them are let go here, so that the caller holds none
//! where it may fail. Kinds that box no operand are made without a call.

ghost use Rattle.std.specs.Prelude.{◌≡◌, IfOk};
ghost use Rattle.c_tree.specs.declared.typed.TypedKind.TheVariants as kind;

use crate::boxes::IntoBox;
use crate::let_go::pair;
use c_layout::CType;
use c_tree::{AssignOp, BinaryOp, PostfixOp, PrefixOp, TypedExpr, TypedKind};
use fc_base::Place;
use std::alloc::{AllocError, Global};

/// A conversion of the operand, added by typing or written.
pub fn typed_cast(
    alloc: Global,
    added: bool,
    of: TypedExpr,
    ctype: CType,
    place: Place,
) -> Result<TypedExpr, AllocError>
    ensures { IfOk result (λ e. e ≡ record { kind = kind.Cast of added; ctype = ctype; place = place }) }
{
    let of = TypedExpr::boxed(alloc, of)?;
    Ok(TypedExpr {
        kind: TypedKind::Cast { of, added },
        ctype,
        place,
    })
}

/// An operator before its operand.
pub fn typed_prefix(
    alloc: Global,
    op: PrefixOp,
    of: TypedExpr,
    ctype: CType,
    place: Place,
) -> Result<TypedExpr, AllocError>
    ensures { IfOk result (λ e. e ≡ record { kind = kind.Prefix op of; ctype = ctype; place = place }) }
{
    let of = TypedExpr::boxed(alloc, of)?;
    Ok(TypedExpr {
        kind: TypedKind::Prefix { op, of },
        ctype,
        place,
    })
}

/// An operator behind its operand.
pub fn typed_postfix(
    alloc: Global,
    op: PostfixOp,
    of: TypedExpr,
    ctype: CType,
    place: Place,
) -> Result<TypedExpr, AllocError>
    ensures { IfOk result (λ e. e ≡ record { kind = kind.Postfix op of; ctype = ctype; place = place }) }
{
    let of = TypedExpr::boxed(alloc, of)?;
    Ok(TypedExpr {
        kind: TypedKind::Postfix { op, of },
        ctype,
        place,
    })
}

/// The size of an expression's type.
pub fn typed_sizeof(
    alloc: Global,
    of: TypedExpr,
    ctype: CType,
    place: Place,
) -> Result<TypedExpr, AllocError>
    ensures { IfOk result (λ e. e ≡ record { kind = kind.SizeofExpr of; ctype = ctype; place = place }) }
{
    let of = TypedExpr::boxed(alloc, of)?;
    Ok(TypedExpr {
        kind: TypedKind::SizeofExpr(of),
        ctype,
        place,
    })
}

/// An assignment.
pub fn typed_assign(
    alloc: Global,
    op: AssignOp,
    to: TypedExpr,
    from: TypedExpr,
    ctype: CType,
    place: Place,
) -> Result<TypedExpr, AllocError>
    ensures { IfOk result (λ e. e ≡ record { kind = kind.Assign op to from; ctype = ctype; place = place }) }
{
    let (to, from) = pair(TypedExpr::boxed(alloc, to), TypedExpr::boxed(alloc, from))?;
    Ok(TypedExpr {
        kind: TypedKind::Assign { op, to, from },
        ctype,
        place,
    })
}

/// A binary operator.
pub fn typed_binary(
    alloc: Global,
    op: BinaryOp,
    a: TypedExpr,
    b: TypedExpr,
    ctype: CType,
    place: Place,
) -> Result<TypedExpr, AllocError>
    ensures { IfOk result (λ e. e ≡ record { kind = kind.Binary op a b; ctype = ctype; place = place }) }
{
    let (a, b) = pair(TypedExpr::boxed(alloc, a), TypedExpr::boxed(alloc, b))?;
    Ok(TypedExpr {
        kind: TypedKind::Binary { op, a, b },
        ctype,
        place,
    })
}

/// An element, the operands in the order of the text.
pub fn typed_index(
    alloc: Global,
    base: TypedExpr,
    index: TypedExpr,
    ctype: CType,
    place: Place,
) -> Result<TypedExpr, AllocError>
    ensures { IfOk result (λ e. e ≡ record { kind = kind.Index base index; ctype = ctype; place = place }) }
{
    let (base, index) = pair(
        TypedExpr::boxed(alloc, base),
        TypedExpr::boxed(alloc, index),
    )?;
    Ok(TypedExpr {
        kind: TypedKind::Index { base, index },
        ctype,
        place,
    })
}

/// A size expression.
pub fn typed_size_call(
    alloc: Global,
    pointer: TypedExpr,
    mode: TypedExpr,
    ctype: CType,
    place: Place,
) -> Result<TypedExpr, AllocError>
    ensures { IfOk result (λ e. e ≡ record { kind = kind.SizeCall pointer mode; ctype = ctype; place = place }) }
{
    let (pointer, mode) = pair(
        TypedExpr::boxed(alloc, pointer),
        TypedExpr::boxed(alloc, mode),
    )?;
    Ok(TypedExpr {
        kind: TypedKind::SizeCall { pointer, mode },
        ctype,
        place,
    })
}

/// A conditional expression.
pub fn typed_cond(
    alloc: Global,
    test: TypedExpr,
    yes: TypedExpr,
    no: TypedExpr,
    ctype: CType,
    place: Place,
) -> Result<TypedExpr, AllocError>
    ensures { IfOk result (λ e. e ≡ record { kind = kind.Cond test yes no; ctype = ctype; place = place }) }
{
    let arms = pair(TypedExpr::boxed(alloc, yes), TypedExpr::boxed(alloc, no));
    let (test, (yes, no)) = pair(TypedExpr::boxed(alloc, test), arms)?;
    Ok(TypedExpr {
        kind: TypedKind::Cond { test, yes, no },
        ctype,
        place,
    })
}

/// A member by its place.
pub fn typed_member(
    alloc: Global,
    base: TypedExpr,
    arrow: bool,
    member: u32,
    ctype: CType,
    place: Place,
) -> Result<TypedExpr, AllocError>
    ensures { IfOk result (λ e. e ≡ record { kind = kind.Member base arrow member; ctype = ctype; place = place }) }
{
    let base = TypedExpr::boxed(alloc, base)?;
    Ok(TypedExpr {
        kind: TypedKind::Member {
            base,
            arrow,
            member,
        },
        ctype,
        place,
    })
}
