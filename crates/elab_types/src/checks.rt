//! The rules of a declared type, and the type where none of them is broken (C11 6.7.6.3 and 6.7.7).

ghost use Rattle.std.specs.Prelude.{◌≡◌, ◌||◌, IfOk};
ghost use Rattle.std.specs.Option.{option_map};
ghost use Rattle.elab_meaning.specs.Declarations.{is_repeated};
ghost use Rattle.elab_types.specs.Nests.{GivesAs};
ghost use Rattle.elab_types.specs.Shapes.{shape_of};
ghost use Rattle.elab_types.specs.Answers.{adjusted, named_type, param_type};

use crate::forming::{Made, is_structure};
use crate::shapes::{Part, formed};
use crate::specifiers::Specifiers;
use c_layout::{CType, Tags};
use elab_conversions::{has_size, judge};
use elab_scope::Scope;
use fc_base::{Fault, NoMemory, Place, Rule, Text};
use shared_values::Shared;
use sqlite_items::Items;
use std::alloc::Global;

/// The type of a parameter: an array becomes a pointer to its element, and a function a pointer (C11 6.7.6.3p7 and p8).
fn adjusted(alloc: Global, made: Made) -> Result<CType, NoMemory>
    ensures { IfOk result (λ t. t ≡ adjusted made) }
{
    match made {
        Made::Function { .. } => Ok(CType::Ptr(Shared::new(alloc, CType::Void)?)),
        Made::Object(ctype) => match ctype {
            CType::Array(of, _) | CType::OpenArray(of) => Ok(CType::Ptr(of)),
            other => Ok(other),
        },
    }
}

/// Whether one of two things breaks a rule.
pub fn either(one: bool, other: bool) -> bool
    ensures { result ≡ one || other }
{
    one || other
}

/// Whether a name has an addition from this number on: in the list that begins there.
pub fn is_repeated(scope: &Scope, start: usize, name: Option<&Text>) -> bool
    ensures { result ≡ is_repeated start (option_map (λ n. n.now) name.entry) scope.now }
{
    match name {
        None => false,
        Some(name) => match scope.lookup(name.bytes()) {
            Some((number, _)) => number as usize >= start,
            None => false,
        },
    }
}

/// The type of a type name, or the first rule that it breaks. `at` is the place of its declarator, and `start` its own.
pub fn named_type(
    alloc: Global,
    tags: &Tags,
    specs: Specifiers,
    parts: Items<Part>,
    at: Place,
    start: Place,
) -> Result<CType, Fault>
    ensures { GivesAs (λ t. t) result (named_type tags.now specs (shape_of parts) at start) }
{
    let has_words = specs.has_function_words();
    let formed = formed(alloc, tags, parts.as_slice(), specs.base)?;
    judge(
        at,
        &[(Rule::BadType, either(formed.broken.bad_type, has_words))],
    )?;
    judge(start, &[(Rule::LimitObject, formed.is_over())])?;
    Ok(formed.made.into_type())
}

/// The type of a parameter, or the first rule that it breaks at its declarator.
#[tactic(auto, using(crate::proofs::Checked::param_whole))]
pub fn param_type(
    alloc: Global,
    tags: &Tags,
    specs: Specifiers,
    parts: Items<Part>,
    repeated: bool,
    at: Place,
) -> Result<CType, Fault>
    ensures { GivesAs (λ t. t) result (param_type tags.now specs (shape_of parts) repeated at) }
{
    let has_words = specs.has_function_words();
    let formed = formed(alloc, tags, parts.as_slice(), specs.base)?;
    let broken = formed.broken;
    let is_over = formed.is_over();
    let is_function = formed.made.is_function();
    let ctype = adjusted(alloc, formed.made)?;
    judge(
        at,
        &[
            (Rule::Redeclared, repeated),
            (Rule::IncompleteType, !has_size(tags, &ctype)),
            (Rule::BadType, either(broken.bad_type, has_words)),
            (Rule::LimitObject, is_over),
            (Rule::ByValue, either(broken.by_value, is_structure(&ctype))),
            (
                Rule::FunctionPointer,
                either(broken.function_pointer, is_function),
            ),
            (Rule::LimitArguments, broken.too_many),
        ],
    )?;
    Ok(ctype)
}
