//! Structures and unions that are only named (C11 6.7.2.3).

ghost use Rattle.std.specs.Prelude.{◌≡◌, length, None, IfOk, OnErr};
ghost use Rattle.elab_meaning.specs.Declarations.{is_other_kind, is_union_word, tag_type, tagged_part, without_members};
ghost use Rattle.elab_meaning.specs.Parts.{type};
ghost use Rattle.elab_meaning.specs.Scope.{add_tag};
ghost use Rattle.elab_scope.specs.States.{Grows};
ghost use Rattle.elab_types.specs.Nests.{TypesAs};

use c_layout::{CType, TagDef};
use c_tree::{Aggregate, Identifier};
use elab_scope::{Scope, State};
use fc_base::{Fault, NoMemory, Rule, Text};
use sqlite_items::Items;
use std::alloc::Global;

fn is_union(aggregate: Aggregate) -> bool
    ensures { result ≡ is_union_word aggregate }
{
    aggregate == Aggregate::Union
}

fn tag_type(aggregate: Aggregate, number: u32) -> CType
    ensures { result ≡ tag_type aggregate number }
{
    match aggregate {
        Aggregate::Struct => CType::Struct(number),
        Aggregate::Union => CType::Union(number),
    }
}

/// Whether a tag is an enumeration's, or the other of structure and union.
fn is_other_kind(scope: &Scope, name: &[u8], aggregate: Aggregate) -> bool
    ensures { result ≡ is_other_kind name.now aggregate scope.now }
{
    if scope.has_enum(name) {
        return true;
    }
    match scope.find_tag(name) {
        Some(number) => match scope.tags().get(number) {
            Some(def) => def.is_union != is_union(aggregate),
            None => false,
        },
        None => false,
    }
}

/// A structure or union whose body has not been read, and its number.
fn new_tag(
    alloc: Global,
    scope: &mut Scope,
    name: &[u8],
    aggregate: Aggregate,
) -> Result<u32, NoMemory>
    ensures number { IfOk result (λ number. number ≡ length scope.old.tags) }
    ensures added { IfOk result (λ _. scope.new ≡ add_tag (without_members name.now aggregate) scope.old) }
    ensures same { OnErr result (scope.new ≡ scope.old) }
{
    let name = Text::from_bytes(alloc, name)?;
    scope.add_tag(TagDef {
        name,
        is_union: is_union(aggregate),
        members: Items::new(alloc),
        complete: false,
    })
}

/// A structure or union that is only named: the first mention of a tag gives it its number.
pub fn mention(
    alloc: Global,
    state: &mut State,
    aggregate: Aggregate,
    tag: &Identifier,
) -> Result<CType, Fault>
    ensures types { TypesAs type (tagged_part aggregate tag.now None) state.old result state.new }
    ensures grows { Grows state.old state.new }
{
    let name = tag.name.bytes();
    if is_other_kind(&state.scope, name, aggregate) {
        return Err(Fault::refused(Rule::Redeclared, tag.place));
    }
    let number = match state.scope.find_tag(name) {
        Some(number) => number,
        None => new_tag(alloc, &mut state.scope, name, aggregate)?,
    };
    Ok(tag_type(aggregate, number))
}
