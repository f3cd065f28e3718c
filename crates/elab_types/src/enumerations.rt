//! Enumerations (C11 6.7.2.2), over a function that types expressions.

ghost use Rattle.std.specs.Prelude.{◌≡◌, ◌≤◌, ◌+ℤ◌, ℤ, pos, [], ◌∷◌, map, Some};
ghost use Rattle.std.specs.Option.{option_map, option_map_or};
ghost use Rattle.fc_base.specs.declared.rules.Rule.TheVariants.{Redeclared};
ghost use Rattle.c_layout.specs.Types.{int};
ghost use Rattle.c_tree.specs.Heights.{enumerator_height, expr_height, highest};
ghost use Rattle.elab_meaning.specs.Declarations.{as_int, enumerator_value, enumerators_from, enum_part, enum_tag_part, is_taken};
ghost use Rattle.elab_meaning.specs.Parts.{type};
ghost use Rattle.elab_meaning.specs.Trees.{read_enumerator, read_expr};
ghost use Rattle.elab_meaning.specs.Typing.{judged};
ghost use Rattle.elab_scope.specs.States.{Types, Grows};
ghost use Rattle.elab_types.specs.Nests.{Nests, GivesAs, TypesAs};
ghost use Rattle.elab_types.specs.Shapes.{value_in};

use crate::shapes::Bound;
use crate::typer::Typer;
use c_layout::CType;
use c_tree::{Enumerator, Expr, Identifier, Rank, TypedExpr, ranked};
use elab_meaning::NameUse;
use elab_scope::{Scope, State};
use fc_base::{Fault, Rule, Text};
use std::alloc::Global;

/// A value converted to int: it wraps.
fn as_int(value: Bound) -> i32
    ensures { result ≡ as_int (value_in value) }
{
    let low = value.bits % 0x1_0000_0000;
    if low < 0x8000_0000 {
        low as i32
    } else {
        (low as i64 - 0x1_0000_0000) as i32
    }
}

/// The value of an enumerator behind one of this value.
fn after(value: i32) -> i32
    ensures { result ≡ as_int (value +ℤ pos 1) }
{
    let next = i64::from(value) + 1;
    as_int(Bound {
        bits: next.cast_unsigned(),
        signed: true,
    })
}

/// The type of an enumeration.
fn enumerated() -> CType
    ensures { result ≡ int }
{
    ranked(Rank::Int, true)
}

/// Whether a tag is a structure's or union's, or an enumeration's with a body.
fn is_taken(scope: &Scope, name: &[u8]) -> bool
    ensures { result ≡ is_taken name.now scope.now }
{
    scope.has_enum(name) || scope.find_tag(name).is_some()
}

/// A tag that no other type has.
fn free_tag(scope: &Scope, tag: &Identifier) -> Result<(), Fault>
    ensures { GivesAs (λ t. t) result (judged tag.now.place ((Redeclared, is_taken tag.now.name scope.now) ∷ []) tt) }
{
    if is_taken(scope, tag.name.bytes()) {
        return Err(Fault::refused(Rule::Redeclared, tag.place));
    }
    Ok(())
}

/// An enumeration that is only named.
pub fn enum_tag(state: &State, tag: &Identifier) -> Result<CType, Fault>
    ensures { TypesAs type (enum_tag_part tag.now) state.now result state.now }
{
    let name = tag.name.bytes();
    if state.scope.find_tag(name).is_some() {
        return Err(Fault::refused(Rule::Redeclared, tag.place));
    }
    if !state.scope.has_enum(name) {
        return Err(Fault::refused(Rule::UnknownName, tag.place));
    }
    Ok(enumerated())
}

impl<F: Fn(Global, &mut State, &Expr, usize) -> Result<TypedExpr, Fault>> Typer<F> {
    /// The value of an enumerator: the one that is written, or else this one.
    fn value_or(
        &self,
        state: &mut State,
        written: Option<&Expr>,
        otherwise: i32,
    ) -> Result<i32, Fault>
        requires nests { Nests self.now.room (F.pre self.now.expr) (F.post self.now.expr) }
        requires low { option_map_or (λ e. expr_height e.now) written 0 ≤ self.now.room }
        ensures types { Types (enumerator_value otherwise (option_map (λ e. read_expr e.now) written.entry)) state.old result state.new }
        ensures grows { Grows state.old state.new }
    {
        match written {
            None => Ok(otherwise),
            Some(value) => {
                let value = self.bound(state, value)?;
                Ok(as_int(value))
            }
        }
    }

    /// An enumerator, which has this value if none is written.
    pub fn enumerator(
        &self,
        state: &mut State,
        enumerator: &Enumerator,
        otherwise: i32,
    ) -> Result<i32, Fault>
        requires nests { Nests self.now.room (F.pre self.now.expr) (F.post self.now.expr) }
        requires low { enumerator_height enumerator.now ≤ self.now.room }
        ensures types { Types (read_enumerator enumerator.now otherwise) state.old result state.new }
        ensures grows { Grows state.old state.new }
    {
        let name = enumerator.name.name.bytes();
        if state.scope.lookup(name).is_some() {
            return Err(Fault::refused(Rule::Redeclared, enumerator.name.place));
        }
        let value = self.value_or(state, enumerator.value.as_ref(), otherwise)?;
        let name = Text::from_bytes(self.alloc, name)?;
        state.scope.add(name, NameUse::Constant(value))?;
        Ok(value)
    }
    /// The enumerators of a body, each one more than the one before it where no value is written.
    fn enumerators(&self, state: &mut State, enumerators: &[Enumerator]) -> Result<(), Fault>
        requires nests { Nests self.now.room (F.pre self.now.expr) (F.post self.now.expr) }
        requires low { highest (map enumerator_height enumerators.now) ≤ self.now.room }
        ensures types { Types (enumerators_from (pos 0) (map read_enumerator enumerators.now)) state.old result state.new }
        ensures grows { Grows state.old state.new }
    {
        let mut next = 0;
        for enumerator in enumerators {
            let value = self.enumerator(state, enumerator, next)?;
            next = after(value);
        }
        Ok(())
    }

    /// An enumeration with a tag and a body. A structure of that name may have been mentioned inside.
    fn tagged_enumeration(
        &self,
        state: &mut State,
        tag: &Identifier,
        enumerators: &[Enumerator],
    ) -> Result<CType, Fault>
        requires nests { Nests self.now.room (F.pre self.now.expr) (F.post self.now.expr) }
        requires low { highest (map enumerator_height enumerators.now) ≤ self.now.room }
        ensures types { TypesAs type (enum_part (Some tag.now) (map read_enumerator enumerators.now)) state.old result state.new }
        ensures grows { Grows state.old state.new }
    {
        free_tag(&state.scope, tag)?;
        self.enumerators(state, enumerators)?;
        free_tag(&state.scope, tag)?;
        let name = Text::from_bytes(self.alloc, tag.name.bytes())?;
        state.scope.add_enum(name)?;
        Ok(enumerated())
    }

    /// An enumeration with a body.
    pub fn enumeration(
        &self,
        state: &mut State,
        tag: &Option<Identifier>,
        enumerators: &[Enumerator],
    ) -> Result<CType, Fault>
        requires nests { Nests self.now.room (F.pre self.now.expr) (F.post self.now.expr) }
        requires low { highest (map enumerator_height enumerators.now) ≤ self.now.room }
        ensures types { TypesAs type (enum_part tag.now (map read_enumerator enumerators.now)) state.old result state.new }
        ensures grows { Grows state.old state.new }
    {
        match tag {
            Some(tag) => self.tagged_enumeration(state, tag, enumerators),
            None => {
                self.enumerators(state, enumerators)?;
                Ok(enumerated())
            }
        }
    }
}
