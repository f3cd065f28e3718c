//! How deep types are, up to one past the limit.

ghost use Rattle.std.specs.Prelude.{◌≡◌, suc};
ghost use Rattle.c_layout.specs.Depths.{capped_depth, capped_depths, tag_depth, type_depths};

use crate::tags::Tags;
use crate::types::CType;

/// The depth that a declarator or type name may have.
pub const DEEPEST_TYPE: u32 = 400;

/// How deep a type is, and what it counts behind a pointer, where a structure or union counts 0.
#[derive(Clone, Copy)]
pub struct Depth {
    pub plain: u32,
    pub behind: u32,
}

/// One deeper, up to one past the limit.
pub fn deeper(depth: u32) -> u32
    ensures { result ≡ capped_depth (suc depth) }
{
    depth.saturating_add(1).min(DEEPEST_TYPE + 1)
}

/// The depths of a type, each up to one past the limit.
pub fn depths_of(tags: &Tags, ctype: &CType) -> Depth
    ensures { result ≡ capped_depths (type_depths (tag_depth tags.now) ctype.now) }
{
    tags.depths(ctype)
}
