//! What a call calls (C11 6.5.2.2).

ghost use Rattle.std.specs.Prelude.{◌≡◌, false, Some, IfOk};
ghost use Rattle.std.specs.Option.{option_map};
ghost use Rattle.c_layout.specs.Library.{lib_parameters, lib_result};
ghost use Rattle.c_library.specs.Library.{row_of};
ghost use Rattle.c_tree.specs.declared.typed.Callee.TheVariants as callee;
ghost use Rattle.elab_meaning.specs.Expressions.{before_format, called_use};
ghost use Rattle.elab_meaning.specs.Trees.{read_expr};
ghost use Rattle.elab_types.specs.Nests.{TypesAs};
ghost use Rattle.elab_expressions.specs.Calls.{called_named, function_of};
ghost use Rattle.elab_expressions.specs.Words.{name_in};

use c_layout::{CType, LibFn, lib_parameters, lib_result};
use c_tree::{Callee, Expr, ExprKind};
use elab_meaning::NameUse;
use elab_scope::State;
use fc_base::{Fault, NoMemory, Place, Rule, Text};
use sqlite_items::Items;
use std::alloc::Global;
use tree_drops::{CTypeItems, LetGo, both};

/// A function that is called: with further arguments behind a format, which is then its last parameter, or not.
pub struct Called {
    pub callee: Callee,
    pub params: Items<CType>,
    pub variadic: bool,
    pub result: CType,
}

impl LetGo for Called {
    fn let_go(self) {
        let Called {
            callee: _,
            params,
            variadic: _,
            result,
        } = self;
        (params, result).let_go();
    }
}

/// Types again, which takes the memory of a list alone.
fn shared(alloc: Global, ctypes: &[CType]) -> Result<Items<CType>, NoMemory>
    ensures { IfOk result (λ copies. copies ≡ ctypes.now) }
{
    let mut copies = CTypeItems::new(alloc);
    for ctype in ctypes {
        copies.push(ctype.share()?)?;
    }
    Ok(copies.finish())
}

/// A function of the file.
fn function(alloc: Global, number: u32, params: &[CType], gives: &CType) -> Result<Called, NoMemory>
    ensures { IfOk result (λ f. f ≡ record { callee = callee.Function number; params = params.now; variadic = false; result = gives.now }) }
{
    let params = shared(alloc, params)?;
    let (params, gives) = both(params, gives.share())?;
    Ok(Called {
        callee: Callee::Function(number),
        params,
        variadic: false,
        result: gives,
    })
}

/// A library function.
fn library(alloc: Global, f: LibFn) -> Result<Called, NoMemory>
    ensures { IfOk result (λ g. g ≡ record { callee = callee.Library f; params = lib_parameters f; variadic = (row_of f).variadic; result = lib_result f }) }
{
    let params = lib_parameters(alloc, f)?;
    let (params, gives) = both(params, lib_result(alloc, f))?;
    Ok(Called {
        callee: Callee::Library(f),
        params,
        variadic: f.is_variadic(),
        result: gives,
    })
}

/// What is called by a name that names this, if it is a function.
fn called_use(alloc: Global, what: &NameUse) -> Result<Option<Called>, NoMemory>
    ensures { IfOk result (λ f. option_map function_of f ≡ called_use (Some what.now)) }
{
    match what {
        NameUse::Function {
            number,
            params,
            result,
        } => Ok(Some(function(alloc, *number, params.as_slice(), result)?)),
        NameUse::Library(f) => Ok(Some(library(alloc, *f)?)),
        _ => Ok(None),
    }
}

/// What is called by a name.
pub fn called_named(
    alloc: Global,
    state: &State,
    name: &[u8],
    at: Place,
) -> Result<Option<Called>, Fault>
    ensures { TypesAs (option_map function_of) (called_named name.now at) state.now result state.now }
{
    match state.scope.lookup(name) {
        None | Some((_, NameUse::Typedef(_))) => Err(Fault::refused(Rule::UnknownName, at)),
        Some((_, what)) => Ok(called_use(alloc, what)?),
    }
}

/// The name that an expression is.
pub fn name_of(expr: &Expr) -> Option<&Text>
    ensures { option_map (λ name. name.now) result ≡ name_in (read_expr expr.now).form }
{
    match &expr.kind {
        ExprKind::Name(name) => Some(name),
        _ => None,
    }
}

/// How many arguments stand before the format of a function that has one.
pub fn before_format(f: &Option<Called>) -> Option<usize>
    ensures { result ≡ before_format (option_map function_of f.now) }
{
    match f {
        Some(f) if f.variadic => Some(f.params.len().saturating_sub(1)),
        _ => None,
    }
}
