//! The structures and unions of a file by number, with the layouts of those that are complete.

ghost use Rattle.std.specs.Prelude.{◌≡◌, false, List, [], ◌∷◌, ◌++◌, length, slice_get, slice_set, ◌↔◌, IfOk, OnErr, Some, IfSome, IsSome, IsSomeAnd, IsTrue};
ghost use Rattle.std.specs.Option.{option_copied, option_map};
ghost use Rattle.c_layout.specs.Layouts.{HaveSizes, definition_layout, last_layout, layout, member_layout, member_layouts, member_offset, offset, tag_layout};
ghost use Rattle.c_layout.specs.Laws.{HasLayouts};
ghost use Rattle.c_layout.specs.Capped.{IsCut, capped, offsets_of, placed, with_member};
ghost use Rattle.c_layout.specs.Entries.{AreOffsets};
ghost use Rattle.c_layout.specs.Depths.{capped_depth, capped_depths, definition_depth, greatest_depth, tag_depth, type_depths};

use crate::depths::{Depth, deeper};
use crate::sizes::{Placed, array, integer, open_array, pointer, within_limit};
use crate::types::{CType, Layout};
use fc_base::{NoMemory, Text};
use sqlite_items::Items;
use std::alloc::Global;
use std::marker::Model;

/// A member of a structure or union (C11 6.7.2.1).
#[derive(Drop)]
pub struct Member {
    pub name: Text,
    pub ctype: CType,
}

/// What is known of a structure or union: its tag, which is empty where it has none, and its members once it is
/// complete.
#[derive(Drop)]
pub struct TagDef {
    pub name: Text,
    pub is_union: bool,
    pub members: Items<Member>,
    pub complete: bool,
}

/// A definition with its layout where it is complete, the size cut at one past the limit, and its depth, cut likewise; and where
/// its members stand, cut likewise, if it is complete and memory was there for them.
#[derive(Drop)]
struct Entry {
    def: TagDef,
    layout: Option<Layout>,
    depth: u32,
    offsets: Option<Items<u64>>,
}

/// The structures and unions of a file, seen as the list of their definitions. No complete one contains itself.
#[derive(Drop)]
pub struct Tags {
    entries: Vec<Entry>,
    alloc: Global,
}

impl Model for Tags {
    ghost use Rattle.std.specs.Prelude.{List};
    ghost use Rattle.c_layout.specs.declared.tags.TagDef.{TagDef};
    ghost use Rattle.c_layout.specs.contracts.types.CType as ctypes;
    ghost use Rattle.c_layout.specs.Entries.{AreLaidOut, definitions};
    ghost use Rattle.std.specs.Coded.{codes};

    ghost Value = { List TagDef };

    ghost coded = { Prim.hlevel (codes, ctypes.the_row.coded) };

    ghost view = { λ tags. definitions tags.entries.items };

    ghost invariant = { λ tags. AreLaidOut tags.entries.items };
}

impl Tags {
    pub fn new(alloc: Global) -> Tags
        ensures { result ≡ [] }
    {
        Tags {
            entries: Vec::new(alloc),
            alloc,
        }
    }

    /// The definition of a tag, none where the tag isn't there.
    pub fn get(&self, tag: u32) -> Option<&TagDef>
        ensures { option_copied result ≡ slice_get self.now tag }
    {
        match self.entries.get(tag as usize) {
            Some(entry) => Some(&entry.def),
            None => None,
        }
    }

    /// Adds a definition at the end and gives its number. If it is complete, each of its members has a size by now.
    /// After want of memory the list is as it was.
    pub fn add(&mut self, def: TagDef) -> Result<u32, NoMemory>
        requires { HaveSizes self.old def }
        ensures number { IfOk result (λ tag. tag ≡ length self.old) }
        ensures added { IfOk result (λ _. self.new ≡ self.old ++ def ∷ []) }
        ensures same { OnErr result (self.new ≡ self.old) }
    {
        let tag = match u32::try_from(self.entries.len()) {
            Ok(tag) => tag,
            Err(_) => return Err(NoMemory),
        };
        let layout = self.definition_extent(&def);
        let depth = self.definition_depth(&def);
        let offsets = self.definition_offsets(&def);
        self.entries.push(Entry {
            def,
            layout,
            depth,
            offsets,
        })?;
        Ok(tag)
    }

    /// Replaces a definition that isn't complete. If the new one is, each of its members has a size by now.
    pub fn set(&mut self, tag: u32, def: TagDef)
        requires incomplete { IsSomeAnd (slice_get self.old tag) (λ old. old.complete ≡ false) }
        requires sizes { HaveSizes self.old def }
        ensures { self.new ≡ slice_set self.old tag def }
    {
        let layout = self.definition_extent(&def);
        let depth = self.definition_depth(&def);
        let offsets = self.definition_offsets(&def);
        self.entries[tag as usize] = Entry {
            def,
            layout,
            depth,
            offsets,
        };
    }

    /// Whether each member has a size, or for a last flexible array its element: what a complete definition wants.
    pub fn have_sizes(&self, members: &[Member]) -> bool
        ensures { IsTrue result ↔ IsSome (member_layouts (tag_layout self.now) members.now) }
    {
        self.place(members).is_some()
    }

    /// Each complete tag has a layout, that of its members: a law of every list of tags.
    pub fn layouts_law(&self)
        ensures { HasLayouts self.now }
    {
        let _entries = &self.entries;
    }

    /// The layout of a tag, its size cut at one past the limit.
    fn tag_extent(&self, tag: u32) -> Option<Layout>
        ensures { result ≡ option_map capped (tag_layout self.now tag) }
    {
        match self.entries.get(tag as usize) {
            Some(entry) => entry.layout,
            None => None,
        }
    }

    /// The layout of a type, its size cut at one past the limit.
    pub(crate) fn extent(&self, ctype: &CType) -> Option<Layout>
        ensures { result ≡ option_map capped (layout self.now ctype.now) }
    {
        match ctype {
            CType::Void | CType::OpenArray(_) => None,
            CType::Int { width, .. } => Some(integer(*width)),
            CType::Ptr(_) => Some(pointer()),
            CType::Array(of, count) => {
                let element = self.extent(of.get())?;
                Some(array(*count, element))
            }
            CType::Struct(tag) | CType::Union(tag) => self.tag_extent(*tag),
        }
    }

    /// The layout of the last member of a structure or union.
    pub(crate) fn last_extent(&self, ctype: &CType) -> Option<Layout>
        ensures { result ≡ option_map capped (last_layout (tag_layout self.now) ctype.now) }
    {
        match ctype {
            CType::OpenArray(of) => {
                let element = self.extent(of.get())?;
                Some(open_array(element))
            }
            _ => self.extent(ctype),
        }
    }

    fn member_extent(&self, member: &Member, behind: &[Member]) -> Option<Layout>
        ensures { result ≡ option_map capped (member_layout (tag_layout self.now) member.now behind.now) }
    {
        match behind {
            [] => self.last_extent(&member.ctype),
            _ => self.extent(&member.ctype),
        }
    }

    /// A member placed behind those so far and before these.
    fn place_one(&self, placed: Placed, member: &Member, behind: &[Member]) -> Option<Placed>
        requires { IsCut placed }
        ensures next { result ≡ option_map (λ l. with_member placed (capped l)) (member_layout (tag_layout self.now) member.now behind.now) }
        ensures cut { IfSome result IsCut }
    {
        let layout = self.member_extent(member, behind)?;
        Some(placed.with(layout))
    }

    /// Places members one behind another, none where one of them has no size.
    pub(crate) fn place(&self, members: &[Member]) -> Option<Placed>
        ensures { result ≡ option_map placed (member_layouts (tag_layout self.now) members.now) }
    {
        let mut placed = Placed::NOTHING;
        for index in 0..members.len() {
            let next = self.place_one(placed, &members[index], &members[index + 1..])?;
            placed = next;
        }
        Some(placed)
    }

    /// Where each member stands, none where one of them has no size, or for want of memory.
    fn offsets(&self, is_union: bool, members: &[Member]) -> Option<Items<u64>>
        ensures { IfSome result (λ list. option_map (offsets_of is_union) (member_layouts (tag_layout self.now) members.now) ≡ Some list) }
    {
        let mut offsets = Items::new(self.alloc);
        let mut placed = Placed::NOTHING;
        for index in 0..members.len() {
            let next = self.place_one(placed, &members[index], &members[index + 1..])?;
            offsets.push(next.offset(is_union)).ok()?;
            placed = next;
        }
        Some(offsets)
    }

    /// Where the members of a complete definition stand, none for want of memory.
    fn definition_offsets(&self, def: &TagDef) -> Option<Items<u64>>
        ensures { IfSome result (AreOffsets self.now def.now) }
    {
        if !def.complete {
            return None;
        }
        self.offsets(def.is_union, def.members.as_slice())
    }

    /// Where a member of a definition stands, by the members up to it.
    fn member_offset(&self, def: &TagDef, member: usize) -> Option<u64>
        ensures { result ≡ member_offset self.now member def.now }
    {
        let members = def.members.as_slice();
        if member >= members.len() {
            return None;
        }
        let placed = self.place(&members[..=member])?;
        within_limit(placed.offset(def.is_union))
    }

    /// Where a member of what is kept of a tag stands.
    fn kept_offset(&self, entry: &Entry, member: usize) -> Option<u64>
        requires { IfSome entry.now.offsets (AreOffsets self.now entry.now.def) }
        ensures { result ≡ member_offset self.now member entry.now.def }
    {
        match &entry.offsets {
            Some(offsets) => match offsets.get(member) {
                Some(offset) => within_limit(*offset),
                None => None,
            },
            None => self.member_offset(&entry.def, member),
        }
    }

    /// Where a member of a tag stands.
    pub(crate) fn offset(&self, tag: u32, member: usize) -> Option<u64>
        ensures { result ≡ offset self.now tag member }
    {
        match self.entries.get(tag as usize) {
            Some(entry) => self.kept_offset(entry, member),
            None => None,
        }
    }

    /// The layout of a complete definition.
    fn definition_extent(&self, def: &TagDef) -> Option<Layout>
        ensures { result ≡ option_map capped (definition_layout (tag_layout self.now) def.now) }
    {
        if !def.complete {
            return None;
        }
        let placed = self.place(def.members.as_slice())?;
        Some(placed.aggregate(def.is_union))
    }

    /// The depth of a tag, up to one past the limit.
    fn tag_depth(&self, tag: u32) -> u32
        ensures { result ≡ capped_depth (tag_depth self.now tag) }
    {
        match self.entries.get(tag as usize) {
            Some(entry) => entry.depth,
            None => 0,
        }
    }

    /// The depths of a type, each up to one past the limit.
    pub(crate) fn depths(&self, ctype: &CType) -> Depth
        ensures { result ≡ capped_depths (type_depths (tag_depth self.now) ctype.now) }
    {
        match ctype {
            CType::Void | CType::Int { .. } => Depth {
                plain: 0,
                behind: 0,
            },
            CType::Ptr(of) => {
                let behind = deeper(self.depths(of.get()).behind);
                Depth {
                    plain: behind,
                    behind,
                }
            }
            CType::Array(of, _) | CType::OpenArray(of) => {
                let inner = self.depths(of.get());
                Depth {
                    plain: deeper(inner.plain),
                    behind: deeper(inner.behind),
                }
            }
            CType::Struct(tag) | CType::Union(tag) => Depth {
                plain: self.tag_depth(*tag),
                behind: 0,
            },
        }
    }

    /// The greatest depth of members, up to one past the limit.
    fn greatest_depth(&self, members: &[Member]) -> u32
        ensures { result ≡ capped_depth (greatest_depth (tag_depth self.now) members.now) }
    {
        let mut greatest = 0;
        for index in 0..members.len() {
            let depths = self.depths(&members[index].ctype);
            if depths.plain > greatest {
                greatest = depths.plain;
            }
        }
        greatest
    }

    /// The depth of a definition, up to one past the limit.
    fn definition_depth(&self, def: &TagDef) -> u32
        ensures { result ≡ capped_depth (definition_depth (tag_depth self.now) def.now) }
    {
        if !def.complete {
            return 0;
        }
        deeper(self.greatest_depth(def.members.as_slice()))
    }
}
