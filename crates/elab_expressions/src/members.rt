//! Members of structures and unions (C11 6.5.2.3).

ghost use Rattle.std.specs.Prelude.{◌≡◌, position};
ghost use Rattle.std.specs.Option.{option_map};
ghost use Rattle.std.specs.Str.{bytes_eq};
ghost use Rattle.c_layout.specs.Types.{tag_of};
ghost use Rattle.elab_conversions.specs.Answers.{Gives};
ghost use Rattle.elab_meaning.specs.Expressions.{holder, member_in};
ghost use Rattle.elab_expressions.specs.Words.{found_member, member_held, selected};

use c_layout::{CType, Member, TagDef, Tags, tag_of};
use c_tree::TypedExpr;
use fc_base::{Fault, Place, Rule};
use std::alloc::Global;
use tree_drops::{both, typed_member};

/// The number of the structure or union whose member is meant: behind `->` what the pointer points to.
fn holder_of(arrow: bool, base: &CType) -> Option<u32>
    ensures { result ≡ tag_of (holder arrow base.now) }
{
    if !arrow {
        return tag_of(base);
    }
    match base {
        CType::Ptr(of) => tag_of(of.get()),
        _ => None,
    }
}

fn is_named(member: &Member, name: &[u8]) -> bool
    ensures { result ≡ bytes_eq member.now.name name.now }
{
    member.name.bytes() == name
}

/// The place of the first member of this name.
fn place_among(members: &[Member], name: &[u8]) -> Option<usize>
    ensures { result ≡ position (λ m. bytes_eq m.name name.now) members.now }
{
    let mut place = 0;
    for member in members {
        if is_named(member, name) {
            return Some(place);
        }
        place += 1;
    }
    None
}

/// A member of a complete definition: its place among the members, and its type.
fn member_in<'a>(def: &'a TagDef, name: &[u8]) -> Option<(usize, &'a CType)>
    ensures { option_map (λ m. (m.0, m.1.now)) result ≡ member_in name.now def.now }
{
    if !def.complete {
        return None;
    }
    let place = place_among(def.members.as_slice(), name)?;
    let member = def.members.get(place)?;
    Some((place, &member.ctype))
}

/// The member of this name in a structure or union.
fn member_of<'a>(tags: &'a Tags, tag: Option<u32>, name: &[u8]) -> Option<(usize, &'a CType)>
    ensures { option_map (λ m. (m.0, m.1.now)) result ≡ member_held tags.now tag name.now }
{
    let def = tags.get(tag?)?;
    member_in(def, name)
}

/// The member that is meant by its place and its type, or the rule that is broken.
fn found_member(
    tags: &Tags,
    base: &CType,
    arrow: bool,
    name: &[u8],
    at: Place,
) -> Result<(u32, CType), Fault>
    ensures { Gives result (found_member tags.now base.now arrow name.now at) }
{
    let tag = holder_of(arrow, base);
    match member_of(tags, tag, name) {
        Some((place, ctype)) => {
            let Ok(place) = u32::try_from(place) else {
                return Err(Fault::NoMemory);
            };
            Ok((place, ctype.share()?))
        }
        None if tag.is_some() => Err(Fault::refused(Rule::UnknownName, at)),
        None => Err(Fault::refused(Rule::BadOperands, at)),
    }
}

/// `.` and `->` by their typed base.
pub fn selected(
    alloc: Global,
    tags: &Tags,
    base: TypedExpr,
    arrow: bool,
    name: &[u8],
    at: Place,
) -> Result<TypedExpr, Fault>
    ensures { Gives result (selected tags.now base arrow name.now at) }
{
    let found = found_member(tags, &base.ctype, arrow, name, at);
    let (base, (place, ctype)) = both(base, found)?;
    Ok(typed_member(alloc, base, arrow, place, ctype, at)?)
}
