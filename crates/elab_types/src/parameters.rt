//! Names of parameters, which are there behind them (C11 6.2.1p4 and 6.7.6.3).

ghost use Rattle.std.specs.Prelude.{◌≡◌, length, take, IfOk, OnOk};
ghost use Rattle.std.specs.Option.{option_map};
ghost use Rattle.elab_meaning.specs.declared.names.NameUse.TheVariants as used;
ghost use Rattle.elab_meaning.specs.Declarations.{add_if_named};
ghost use Rattle.elab_types.specs.Shapes.{named_param};

use crate::shapes::Parameter;
use c_layout::CType;
use elab_meaning::NameUse;
use elab_scope::Scope;
use fc_base::{NoMemory, Place, Text};
use std::alloc::Global;

/// A copy of a name, if there is one.
fn copied(alloc: Global, name: Option<&Text>) -> Result<Option<Text>, NoMemory>
    ensures { IfOk result (λ copy. copy ≡ option_map (λ n. n.now) name.entry) }
{
    match name {
        None => Ok(None),
        Some(name) => Ok(Some(Text::from_bytes(alloc, name.bytes())?)),
    }
}

/// Adds the name of a parameter, if it has one. After want of memory the scope is as it was.
fn add_param(
    alloc: Global,
    scope: &mut Scope,
    name: Option<&Text>,
    number: u32,
    ctype: &CType,
) -> Result<(), NoMemory>
    ensures added { OnOk result (scope.new ≡ add_if_named (option_map (λ n. n.now) name.entry) (used.Local number ctype.now) scope.old) }
    ensures names { take (length scope.old.names) scope.new.names ≡ scope.old.names }
{
    match name {
        None => Ok(()),
        Some(name) => {
            let name = Text::from_bytes(alloc, name.bytes())?;
            let ctype = ctype.share()?;
            scope.add(name, NameUse::Local { number, ctype })
        }
    }
}

/// A parameter of this type, whose name is there behind it. In its list it has this number.
pub fn param(
    alloc: Global,
    scope: &mut Scope,
    name: Option<&Text>,
    place: Place,
    number: u32,
    ctype: CType,
) -> Result<Parameter, NoMemory>
    ensures param { IfOk result (λ p. p ≡ named_param (option_map (λ n. n.now) name.entry) place ctype) }
    ensures added { IfOk result (λ _. scope.new ≡ add_if_named (option_map (λ n. n.now) name.entry) (used.Local number ctype) scope.old) }
    ensures names { take (length scope.old.names) scope.new.names ≡ scope.old.names }
{
    add_param(alloc, scope, name, number, &ctype)?;
    let name = copied(alloc, name)?;
    Ok(Parameter { name, place, ctype })
}
