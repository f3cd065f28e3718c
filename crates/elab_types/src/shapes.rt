//! Declarators once their bounds and parameter lists are typed (C11 6.7.6).

ghost use Rattle.std.specs.Prelude.{◌≡◌, IfOk, map};
ghost use Rattle.elab_meaning.specs.Declarations.{count, formed};
ghost use Rattle.elab_types.specs.Shapes.{value_in, bounded, types_of, formed_part, formed_parts, shape_of};
ghost use Rattle.elab_types.specs.Stands.{Stands};

use crate::forming::Formed;
use c_layout::{CType, Tags};
use fc_base::{NoMemory, Place, Text};
use sqlite_items::Items;
use std::alloc::Global;

/// The value of a bound: 64 bits, and whether they have a sign.
#[derive(Clone, Copy)]
pub struct Bound {
    pub bits: u64,
    pub signed: bool,
}

/// A parameter of a list: its name, if it has one, the place of its declarator, and its type.
#[derive(Drop)]
pub struct Parameter {
    pub name: Option<Text>,
    pub place: Place,
    pub ctype: CType,
}

/// A part of a declarator: stars, a bound or none in brackets, or a list of parameters.
#[derive(Drop)]
pub enum Part {
    Stars(usize),
    Array(Option<Bound>),
    Function(Items<Parameter>),
}

impl Bound {
    /// How many elements it stands for: none where it is below 0.
    pub fn count(self) -> u64
        ensures { result ≡ count (value_in self) }
    {
        if self.signed && self.bits >= 1 << 63 {
            0
        } else {
            self.bits
        }
    }
}

fn counted(bound: Option<Bound>) -> Option<u64>
    ensures { result ≡ bounded bound }
{
    match bound {
        None => None,
        Some(bound) => Some(bound.count()),
    }
}

fn types_of(alloc: Global, params: &[Parameter]) -> Result<Items<CType>, NoMemory>
    ensures { IfOk result (λ types. types ≡ types_of params.now) }
{
    let mut types = Items::new(alloc);
    for param in params {
        types.push(param.ctype.share()?)?;
    }
    Ok(types)
}

/// What a part makes of a type.
fn formed_part(alloc: Global, tags: &Tags, part: &Part, formed: Formed) -> Result<Formed, NoMemory>
    ensures { IfOk result (λ f. f ≡ formed_part tags.now part.now formed) }
{
    match part {
        Part::Stars(stars) => formed.starred(alloc, *stars),
        Part::Array(bound) => formed.arrayed(alloc, tags, counted(*bound)),
        Part::Function(params) => {
            let types = types_of(alloc, params.as_slice())?;
            Ok(formed.returned(tags, types))
        }
    }
}

/// What the parts of a declarator, from its name out, make of a type: the outermost comes first.
fn formed_parts(
    alloc: Global,
    tags: &Tags,
    parts: &[Part],
    ctype: CType,
) -> Result<Formed, NoMemory>
    ensures { IfOk result (λ f. f ≡ formed_parts tags.now parts.now ctype) }
{
    let mut formed = Formed::of(tags, ctype);
    let mut left = parts.len();
    while left > 0 {
        left -= 1;
        formed = formed_part(alloc, tags, &parts[left], formed)?;
    }
    Ok(formed)
}

/// What the parts of a declarator make of a type. Where a limit is passed another type of the same kind stands in its
/// place.
pub fn formed(alloc: Global, tags: &Tags, parts: &[Part], ctype: CType) -> Result<Formed, NoMemory>
    ensures { IfOk result (λ f. Stands tags.now (formed tags.now ctype (shape_of parts.now)) f) }
{
    let formed = formed_parts(alloc, tags, parts, ctype)?;
    if formed.is_settled() {
        Ok(formed)
    } else {
        Err(NoMemory)
    }
}
