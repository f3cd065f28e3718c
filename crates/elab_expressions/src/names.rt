//! Identifiers (C11 6.5.1p2).

ghost use Rattle.std.specs.Prelude.{◌≡◌, IfOk};
ghost use Rattle.c_arithmetic.specs.Arithmetic.{converted};
ghost use Rattle.c_layout.specs.Types.{int};
ghost use Rattle.c_tree.specs.Conversions.{number_type};
ghost use Rattle.c_tree.specs.declared.typed.TypedKind.TheVariants as e;
ghost use Rattle.elab_meaning.specs.Expressions.{name_typed};
ghost use Rattle.elab_meaning.specs.Nodes.{node};
ghost use Rattle.elab_scope.specs.States.{Types};

use c_layout::CType;
use c_tree::{Rank, TypedExpr, TypedKind, ranked};
use elab_meaning::NameUse;
use elab_scope::State;
use fc_base::{Fault, NoMemory, Place, Rule};

/// The value of an enumerator as an int's 64 bits.
fn int_bits(value: i32) -> u64
    ensures { result ≡ converted (number_type int) value }
{
    i64::from(value).cast_unsigned()
}

/// A local by its number.
fn local(number: u32, ctype: &CType, at: Place) -> Result<TypedExpr, NoMemory>
    ensures { IfOk result (λ x. x ≡ node (e.Local number) ctype.now at) }
{
    let ctype = ctype.share()?;
    Ok(TypedExpr {
        kind: TypedKind::Local(number),
        ctype,
        place: at,
    })
}

/// A data object by its number.
fn object(number: u32, ctype: &CType, at: Place) -> Result<TypedExpr, NoMemory>
    ensures { IfOk result (λ x. x ≡ node (e.Object number) ctype.now at) }
{
    let ctype = ctype.share()?;
    Ok(TypedExpr {
        kind: TypedKind::Object(number),
        ctype,
        place: at,
    })
}

/// An enumerator (C11 6.4.4.3p2).
fn enumerator(value: i32, at: Place) -> TypedExpr
    ensures { result ≡ node (e.Number (converted (number_type int) value)) int at }
{
    TypedExpr {
        kind: TypedKind::Number(int_bits(value)),
        ctype: ranked(Rank::Int, true),
        place: at,
    }
}

/// An identifier: a variable, or an enumerator.
pub fn name(state: &State, name: &[u8], at: Place) -> Result<TypedExpr, Fault>
    ensures { Types (name_typed name.now at) state.now result state.now }
{
    match state.scope.lookup(name) {
        Some((_, NameUse::Local { number, ctype })) => Ok(local(*number, ctype, at)?),
        Some((_, NameUse::Object { number, ctype })) => Ok(object(*number, ctype, at)?),
        Some((_, NameUse::Constant(value))) => Ok(enumerator(*value, at)),
        Some((_, NameUse::Function { .. } | NameUse::Library(_))) => {
            Err(Fault::refused(Rule::FunctionPointer, at))
        }
        Some((_, NameUse::Typedef(_))) | None => Err(Fault::refused(Rule::UnknownName, at)),
    }
}
