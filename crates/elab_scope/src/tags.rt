//! The structures and unions of a file, found by their tags (C11 6.7.2.3).

ghost use Rattle.std.specs.Prelude.{◌≡◌, ◌<◌, ◌≤◌, ◌^◌, false, ◌∷◌, [], ◌++◌, length, position, slice_get, slice_set, take, IfOk, OnErr, IsSomeAnd};
ghost use Rattle.std.specs.List.{position_from};
ghost use Rattle.std.specs.Option.{option_map_or};
ghost use Rattle.c_layout.specs.Layouts.{HaveSizes};
ghost use Rattle.std.specs.Str.{bytes_eq};
ghost use Rattle.elab_meaning.specs.Scope.{is_named};
ghost use Rattle.elab_scope.specs.Tags.{is_new};

use crate::numbers::Numbers;
use c_layout::{TagDef, Tags};
use fc_base::NoMemory;
use std::alloc::Global;
use std::marker::Model;

/// The structures and unions of a file, seen as the list of their definitions. Those that were there at the start are
/// looked through one by one, and each that was added is found by hash.
#[derive(Drop)]
pub struct KnownTags {
    tags: Tags,
    given: u32,
    added: Numbers,
}

impl Model for KnownTags {
    ghost use Rattle.std.specs.Prelude.{List};
    ghost use Rattle.c_layout.specs.declared.tags.TagDef.{TagDef};
    ghost use Rattle.c_layout.specs.contracts.types.CType as ctypes;
    ghost use Rattle.std.specs.Coded.{codes};

    ghost Value = { List TagDef };

    ghost coded = { Prim.hlevel (codes, ctypes.the_row.coded) };

    ghost use Rattle.elab_scope.specs.Tags.{AreFound};

    ghost view = { λ known. known.tags };

    ghost invariant = { λ known. AreFound known.tags known.given known.added };
}

impl KnownTags {
    /// These structures and unions, fewer than 2^32.
    pub fn new(alloc: Global, tags: Tags) -> KnownTags
        requires { length tags < 2 ^ 32 }
        ensures { result ≡ tags }
    {
        let given = count(&tags);
        KnownTags {
            tags,
            given,
            added: Numbers::new(alloc),
        }
    }

    pub fn tags(&self) -> &Tags
        ensures { result.now ≡ self.now }
    {
        &self.tags
    }

    /// The number of the first one with a tag. One without a tag is never found.
    pub fn find(&self, name: &[u8]) -> Option<u32>
        ensures { result ≡ position (is_named name.now) self.now }
    {
        match first_among(&self.tags, self.given, name) {
            Some(number) => Some(number),
            None => self.added.get(name),
        }
    }

    /// Adds a definition at the end and gives its number. If it is complete, each of its members has a size by now.
    /// After want of memory the list is as it was.
    pub fn add(&mut self, def: TagDef) -> Result<u32, NoMemory>
        requires { HaveSizes self.old def }
        ensures number { IfOk result (λ number. number ≡ length self.old) }
        ensures added { IfOk result (λ _. self.new ≡ self.old ++ def ∷ []) }
        ensures same { OnErr result (self.new ≡ self.old) }
    {
        if !is_new(&self.added, def.name.bytes()) {
            return self.tags.add(def);
        }
        self.added.make_room(def.name.bytes())?;
        let number = self.tags.add(def)?;
        if let Some(def) = self.tags.get(number) {
            self.added.set(def.name.bytes(), Some(number));
        }
        Ok(number)
    }

    /// Replaces a definition that isn't complete by one of the same tag. If the new one is complete, each of its members
    /// has a size by now.
    pub fn set(&mut self, tag: u32, def: TagDef)
        requires incomplete { IsSomeAnd (slice_get self.old tag) (λ old. old.complete ≡ false) }
        requires sizes { HaveSizes self.old def }
        requires named { IsSomeAnd (slice_get self.old tag) (λ old. old.name ≡ def.name) }
        ensures { self.new ≡ slice_set self.old tag def }
    {
        self.tags.set(tag, def);
    }

    /// The definitions alone.
    pub fn finish(self) -> Tags
        ensures { result ≡ self }
    {
        let KnownTags { tags, .. } = self;
        tags
    }
}

fn is_empty(name: &[u8]) -> bool
    ensures { result ≡ bytes_eq name.now [] }
{
    let none: &[u8] = &[];
    name == none
}

/// Whether a tag is none that was added before.
fn is_new(added: &Numbers, name: &[u8]) -> bool
    ensures { result ≡ is_new added.now name.now }
{
    !is_empty(name) && added.get(name).is_none()
}

/// Whether a definition has this tag.
fn is_named(def: &TagDef, name: &[u8]) -> bool
    ensures { result ≡ is_named name.now def.now }
{
    !is_empty(def.name.bytes()) && def.name.bytes() == name
}

/// Whether the definition of a number has this tag.
fn is_named_at(tags: &Tags, number: u32, name: &[u8]) -> bool
    ensures { result ≡ option_map_or (is_named name.now) (slice_get tags.now number) false }
{
    match tags.get(number) {
        Some(def) => is_named(def, name),
        None => false,
    }
}

/// How many definitions there are.
fn count(tags: &Tags) -> u32
    requires { length tags.now < 2 ^ 32 }
    ensures { result ≡ length tags.now }
{
    let mut count = 0;
    while count < u32::MAX && tags.get(count).is_some() {
        count += 1;
    }
    count
}

/// The number of the first definition with a tag among so many.
fn first_among(tags: &Tags, given: u32, name: &[u8]) -> Option<u32>
    requires { given ≤ length tags.now }
    ensures { result ≡ position_from (is_named name.now) 0 (take given tags.now) }
{
    for number in 0..given {
        if is_named_at(tags, number, name) {
            return Some(number);
        }
    }
    None
}
