//! Bounds of arrays and values of enumerators (C11 6.6, 6.7.2.2 and 6.7.6.2), over a function that types expressions.

ghost use Rattle.std.specs.Prelude.{◌≡◌, ◌≤◌, is_none, unwrap_or, pos, [], ◌∷◌};
ghost use Rattle.std.specs.Option.{option_map};
ghost use Rattle.fc_base.specs.declared.rules.Rule.TheVariants.{NotConstant};
ghost use Rattle.c_tree.specs.Heights.{expr_height};
ghost use Rattle.elab_meaning.specs.Conversions.{decayed, value_of};
ghost use Rattle.elab_meaning.specs.Declarations.{bound_part};
ghost use Rattle.elab_meaning.specs.Trees.{read_expr};
ghost use Rattle.elab_meaning.specs.Typing.{judged};
ghost use Rattle.elab_scope.specs.States.{Types, Grows};
ghost use Rattle.elab_types.specs.Nests.{Nests, GivesAs, TypesAs};
ghost use Rattle.elab_types.specs.Shapes.{value_in};

use crate::shapes::Bound;
use c_layout::{Tags, is_array};
use c_tree::{Expr, TypedExpr, constant_of, number_type};
use elab_scope::State;
use fc_base::{Fault, Place, Rule};
use std::alloc::Global;
use tree_drops::LetGo;

/// The value of an integer constant expression, none of any other expression.
#[tactic(auto, using(crate::proofs::Bounds::no_value))]
fn constant_value(tags: &Tags, value: &TypedExpr) -> Option<Bound>
    ensures { option_map value_in result ≡ value_of tags.now (decayed value.now) }
{
    if is_array(&value.ctype) {
        return None;
    }
    let bits = constant_of(tags, value)?;
    Some(Bound {
        bits,
        signed: number_type(&value.ctype).signed,
    })
}

/// A bound by its typed expression: an integer constant expression.
fn bound_of(tags: &Tags, value: TypedExpr, at: Place) -> Result<Bound, Fault>
    ensures { GivesAs value_in result (judged at ((NotConstant, is_none (value_of tags.now (decayed value))) ∷ []) (unwrap_or (value_of tags.now (decayed value)) (pos 0))) }
{
    let found = constant_value(tags, &value);
    value.let_go();
    match found {
        Some(bound) => Ok(bound),
        None => Err(Fault::refused(Rule::NotConstant, at)),
    }
}

/// Specifiers, declarators and type names, over a function that types expressions. It is passed how high the expressions in
/// them may be, which is less than what the caller was passed.
#[derive(Clone, Copy)]
pub struct Typer<F> {
    pub alloc: Global,
    pub room: usize,
    pub expr: F,
}

impl<F: Fn(Global, &mut State, &Expr, usize) -> Result<TypedExpr, Fault>> Typer<F> {
    /// An expression before any conversion of its context.
    fn expression(&self, state: &mut State, expr: &Expr) -> Result<TypedExpr, Fault>
        requires nests { Nests self.now.room (F.pre self.now.expr) (F.post self.now.expr) }
        requires low { expr_height expr.now ≤ self.now.room }
        ensures types { Types (read_expr expr.now).typed state.old result state.new }
        ensures grows { Grows state.old state.new }
    {
        (self.expr)(self.alloc, state, expr, self.room)
    }

    /// A bound, or the value of an enumerator: an integer constant expression.
    pub fn bound(&self, state: &mut State, bound: &Expr) -> Result<Bound, Fault>
        requires nests { Nests self.now.room (F.pre self.now.expr) (F.post self.now.expr) }
        requires low { expr_height bound.now ≤ self.now.room }
        ensures types { TypesAs value_in (bound_part (read_expr bound.now)) state.old result state.new }
        ensures grows { Grows state.old state.new }
    {
        let value = self.expression(state, bound)?;
        bound_of(state.scope.tags(), value, bound.place)
    }
}
