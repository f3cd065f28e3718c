//! The layouts of types and the offsets of members, within the limit on one type.

ghost use Rattle.std.specs.Prelude.{◌≡◌};
ghost use Rattle.c_layout.specs.Layouts.{declared_within_limit, judged, layout_within_limit, offset};

use crate::sizes::LARGEST_TYPE;
use crate::tags::Tags;
use crate::types::{CType, Layout, LayoutFault};

/// A layout whose size was cut at one past the limit.
fn judged(extent: Option<Layout>) -> Result<Layout, LayoutFault>
    ensures { result ≡ judged extent }
{
    match extent {
        None => Err(LayoutFault::Incomplete),
        Some(layout) if layout.size <= LARGEST_TYPE => Ok(layout),
        Some(_) => Err(LayoutFault::TooBig),
    }
}

/// The size and alignment of a type.
#[tactic(auto, using(crate::proofs::Capping::judged_capped))]
pub fn layout_of(tags: &Tags, ctype: &CType) -> Result<Layout, LayoutFault>
    ensures { result ≡ layout_within_limit tags.now ctype.now }
{
    judged(tags.extent(ctype))
}

/// The layout of a type as the last member of a structure has it: a flexible array takes no bytes.
#[tactic(auto, using(crate::proofs::Capping::judged_capped))]
pub fn declared_layout_of(tags: &Tags, ctype: &CType) -> Result<Layout, LayoutFault>
    ensures { result ≡ declared_within_limit tags.now ctype.now }
{
    judged(tags.last_extent(ctype))
}

/// Where a member stands in a structure or union, none where there is no such member, where it or one before it has
/// no size, or where its place is past the limit. In a complete one the place is kept.
pub fn offset_of(tags: &Tags, tag: u32, member: usize) -> Option<u64>
    ensures { result ≡ offset tags.now tag member }
{
    tags.offset(tag, member)
}
