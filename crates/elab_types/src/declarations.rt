//! Specifiers, declarators, parameters, and structures and unions, which hold one another (C11 6.7.2 to 6.7.7), over a function that types
//! expressions.

ghost use Rattle.std.specs.Prelude.{◌≡◌, ◌≤◌, map, IfOk};
ghost use Rattle.std.specs.Option.{option_map};
ghost use Rattle.c_tree.specs.Heights.{declarator_height, highest, optional_height, param_height, params_height, spec_height, specs_height, type_name_height};
ghost use Rattle.c_tree.specs.Heights.{expr_height};
ghost use Rattle.elab_meaning.specs.Declarations.{params_from, bound_part, type_named};
ghost use Rattle.elab_meaning.specs.Scope.{lookup};
ghost use Rattle.elab_meaning.specs.Trees.{read_declarator, read_expr, read_param, read_params, read_spec, read_type_name};
ghost use Rattle.elab_meaning.specs.Typing.{if_any};
ghost use Rattle.elab_scope.specs.States.{Types, Grows};
ghost use Rattle.elab_types.specs.Nests.{Nests, TypesAs};
ghost use Rattle.elab_types.specs.Shapes.{parameter, shape_of, value_in, with_part as extended};
ghost use Rattle.elab_types.specs.Specifiers.{kept_meaning, specifiers_kept};

use crate::aggregates::mention;
use crate::checks::{is_repeated, named_type, param_type};
use crate::declarators::{name_of, place_of, stars};
use crate::enumerations::enum_tag;
use crate::parameters;
use crate::shapes::{Bound, Parameter, Part};
use crate::specifiers::{Gathered, Meaning, Specifiers, has_alloc_size};
use crate::typer::Typer;
use c_layout::CType;
use c_tree::{Declarator, Expr, Param, Params, Spec, TypeName, TypedExpr};
use elab_meaning::NameUse;
use elab_scope::{Scope, State};
use fc_base::{Fault, NoMemory, both};
use sqlite_items::{Boxed, Items};
use std::alloc::Global;

/// The type that a typedef's name stands for.
fn type_named(scope: &Scope, name: &[u8]) -> Result<CType, NoMemory>
    ensures { IfOk result (λ t. t ≡ type_named (option_map (λ a. a.1) (lookup name.now scope.now))) }
{
    match scope.lookup(name) {
        Some((_, NameUse::Typedef(ctype))) => ctype.share(),
        _ => Ok(CType::Void),
    }
}

/// The parts with another one behind them.
fn with_part(parts: Items<Part>, part: Part) -> Result<Items<Part>, NoMemory>
    ensures { IfOk result (λ all. shape_of all ≡ extended (shape_of parts) part) }
{
    let mut parts = parts;
    parts.push(part)?;
    Ok(parts)
}

impl<F: Fn(Global, &mut State, &Expr, usize) -> Result<TypedExpr, Fault>> Typer<F> {
    /// A bound, if one is written.
    fn bound_if_any(
        &self,
        state: &mut State,
        bound: &Option<Boxed<Expr>>,
    ) -> Result<Option<Bound>, Fault>
        requires nests { Nests self.now.room (F.pre self.now.expr) (F.post self.now.expr) }
        requires low { optional_height (option_map expr_height bound.now) ≤ self.now.room }
        ensures types { TypesAs (option_map value_in) (if_any (option_map bound_part (option_map read_expr bound.now))) state.old result state.new }
        ensures grows { Grows state.old state.new }
    {
        match bound {
            None => Ok(None),
            Some(bound) => {
                let value = self.bound(state, bound.get())?;
                Ok(Some(value))
            }
        }
    }

    /// The parts of a declarator from its name out, its bounds and parameter lists typed in text order.
    #[cycle(declared)]
    pub fn parts(&self, state: &mut State, declarator: &Declarator) -> Result<Items<Part>, Fault>
        requires nests { Nests self.now.room (F.pre self.now.expr) (F.post self.now.expr) }
        requires low { declarator_height declarator.now ≤ self.now.room }
        ensures types { TypesAs shape_of (read_declarator declarator.now).parts state.old result state.new }
        ensures grows { Grows state.old state.new }
    {
        match declarator {
            Declarator::Name { .. } | Declarator::Omitted { .. } => Ok(Items::new(self.alloc)),
            Declarator::Pointer { words, of, .. } => {
                let parts = self.parts(state, of.get())?;
                Ok(with_part(parts, Part::Stars(stars(words.as_slice())))?)
            }
            Declarator::Array { of, bound, .. } => {
                let parts = self.parts(state, of.get())?;
                let bound = self.bound_if_any(state, bound);
                let (parts, bound) = both(parts, bound)?;
                Ok(with_part(parts, Part::Array(bound))?)
            }
            Declarator::Function { of, params, .. } => {
                let parts = self.parts(state, of.get())?;
                let params = self.params(state, params);
                let (parts, params) = both(parts, params)?;
                Ok(with_part(parts, Part::Function(params))?)
            }
        }
    }

    /// A list of parameters, in a scope of its own.
    #[cycle(declared)]
    fn params(&self, state: &mut State, params: &Params) -> Result<Items<Parameter>, Fault>
        requires nests { Nests self.now.room (F.pre self.now.expr) (F.post self.now.expr) }
        requires low { params_height params.now ≤ self.now.room }
        ensures types { TypesAs (map parameter) (read_params params.now) state.old result state.new }
        ensures grows { Grows state.old state.new }
    {
        match params {
            Params::Empty | Params::Void => Ok(Items::new(self.alloc)),
            Params::List(list) => {
                let start = state.scope.len();
                let all = self.params_from(state, list.as_slice(), start)?;
                state.scope.cut(start);
                Ok(all)
            }
        }
    }

    /// The parameters of a list whose scope begins at this number.
    #[cycle(declared)]
    fn params_from(
        &self,
        state: &mut State,
        params: &[Param],
        start: usize,
    ) -> Result<Items<Parameter>, Fault>
        requires nests { Nests self.now.room (F.pre self.now.expr) (F.post self.now.expr) }
        requires low { highest (map param_height params.now) ≤ self.now.room }
        ensures types { TypesAs (map parameter) (params_from start 0 (map read_param params.now)) state.old result state.new }
        ensures grows { Grows state.old state.new }
    {
        let mut all = Items::new(self.alloc);
        for param in params {
            let next = self.param(state, param, start, all.len());
            let (before, next) = both(all, next)?;
            all = before;
            all.push(next)?;
        }
        Ok(all)
    }

    /// A parameter, whose name is there behind it.
    #[cycle(declared)]
    fn param(
        &self,
        state: &mut State,
        param: &Param,
        start: usize,
        number: usize,
    ) -> Result<Parameter, Fault>
        requires nests { Nests self.now.room (F.pre self.now.expr) (F.post self.now.expr) }
        requires low { param_height param.now ≤ self.now.room }
        ensures types { TypesAs parameter (read_param param.now start number) state.old result state.new }
        ensures grows { Grows state.old state.new }
    {
        let Ok(number) = u32::try_from(number) else {
            return Err(Fault::NoMemory);
        };
        let specs = self.specifiers(state, param.specs.as_slice())?;
        let parts = self.parts(state, &param.declarator);
        let (specs, parts) = both(specs, parts)?;
        let name = name_of(&param.declarator);
        let place = place_of(&param.declarator);
        let repeated = is_repeated(&state.scope, start, name);
        let tags = state.scope.tags();
        let ctype = param_type(self.alloc, tags, specs, parts, repeated, place)?;
        let scope = &mut state.scope;
        Ok(parameters::param(self.alloc, scope, name, place, number, ctype)?)
    }

    /// A list of specifiers, one behind another.
    pub fn specifiers(&self, state: &mut State, specs: &[Spec]) -> Result<Specifiers, Fault>
        requires nests { Nests self.now.room (F.pre self.now.expr) (F.post self.now.expr) }
        requires low { specs_height specs.now ≤ self.now.room }
        ensures types { Types (specifiers_kept (map read_spec specs.now)) state.old result state.new }
        ensures grows { Grows state.old state.new }
    {
        let mut gathered = Gathered::nothing();
        for spec in specs {
            let meaning = self.specifier(state, spec);
            let (before, meaning) = both(gathered, meaning)?;
            gathered = before.with(meaning);
        }
        Ok(gathered.finish())
    }

    /// A specifier, with the body of a structure, union or enumeration in it.
    fn specifier(&self, state: &mut State, spec: &Spec) -> Result<Meaning, Fault>
        requires nests { Nests self.now.room (F.pre self.now.expr) (F.post self.now.expr) }
        requires low { spec_height spec.now ≤ self.now.room }
        ensures types { Types (kept_meaning (read_spec spec.now)) state.old result state.new }
        ensures grows { Grows state.old state.new }
    {
        match spec {
            Spec::Typedef { .. } => Ok(Meaning::Typedef),
            Spec::Static { .. } => Ok(Meaning::Static),
            Spec::Inline { .. } => Ok(Meaning::Inline),
            Spec::Extern { .. } | Spec::Const { .. } => Ok(Meaning::Plain),
            Spec::Attributes { list, .. } => Ok(Meaning::Attributes {
                alloc_size: has_alloc_size(list.as_slice()),
            }),
            Spec::Basic { word, .. } => Ok(Meaning::Basic(*word)),
            Spec::TypedefName { name, .. } => {
                Ok(Meaning::Type(type_named(&state.scope, name.bytes())?))
            }
            Spec::EnumTag { tag, .. } => Ok(Meaning::Type(enum_tag(state, tag)?)),
            Spec::Enum {
                tag,
                enumerators,
                ..
            } => Ok(Meaning::Type(self.enumeration(state, tag, enumerators.as_slice())?)),
            Spec::Tagged {
                aggregate,
                tag,
                members: None,
                ..
            } => Ok(Meaning::Type(mention(self.alloc, state, *aggregate, tag)?)),
            Spec::Tagged { .. } | Spec::Untagged { .. } => Err(Fault::NoMemory),
        }
    }

    /// A type name, once its own rules are looked at (C11 6.7.7).
    pub fn type_name(&self, state: &mut State, name: &TypeName) -> Result<CType, Fault>
        requires nests { Nests self.now.room (F.pre self.now.expr) (F.post self.now.expr) }
        requires low { type_name_height name.now ≤ self.now.room }
        ensures types { Types (read_type_name name.now) state.old result state.new }
        ensures grows { Grows state.old state.new }
    {
        let specs = self.specifiers(state, name.specs.as_slice())?;
        let parts = self.parts(state, &name.declarator);
        let (specs, parts) = both(specs, parts)?;
        let at = place_of(&name.declarator);
        named_type(self.alloc, state.scope.tags(), specs, parts, at, name.place)
    }
}
