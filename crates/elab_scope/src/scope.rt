//! The names that are visible at a place, and what a file has so far (C11 6.2.1, 6.2.3 and 6.7.2.3).

ghost use Rattle.std.specs.Prelude.{◌≡◌, ◌<◌, ◌^◌, false, length, slice_get, option_map, IfOk, OnOk, OnErr, IsSomeAnd};
ghost use Rattle.c_layout.specs.Layouts.{HaveSizes};
ghost use Rattle.elab_meaning.specs.Scope.{scope_of, add, len, cut, lookup, has_enum, add_enum, find_tag, add_tag, set_tag, add_object, set_object};

use crate::names::Names;
use crate::tags::KnownTags;
use c_layout::{TagDef, Tags};
use c_tree::DataDef;
use elab_meaning::NameUse;
use fc_base::{NoMemory, Text};
use sqlite_items::Items;
use std::alloc::Global;
use std::marker::Model;

/// The names that are visible at a place with what they name, in the order in which they were added, and the structures
/// and unions, the data objects and the enumerations with a body that the file has so far.
#[derive(Drop)]
pub struct Scope {
    names: Names<NameUse>,
    tags: KnownTags,
    objects: Items<DataDef>,
    enums: Names<()>,
}

impl Model for Scope {
    ghost use Rattle.std.specs.Prelude.{map};
    ghost use Rattle.std.specs.Coded.{codes};
    ghost use Rattle.c_layout.specs.contracts.types.CType as ctypes;
    ghost use Rattle.elab_meaning.specs.Scope.{Scope as Meant};
    ghost use Rattle.elab_scope.specs.Names.{names_of};

    ghost Value = { Meant };

    ghost coded = { Prim.hlevel (codes, ctypes.the_row.coded) };

    ghost view = { λ s. record { names = s.names; tags = s.tags; objects = s.objects; enums = names_of s.enums } };
}

impl Scope {
    /// No names, objects or enumerations, and these structures and unions, fewer than 2^32.
    pub fn new(alloc: Global, tags: Tags) -> Scope
        requires { length tags < 2 ^ 32 }
        ensures { result ≡ scope_of tags }
    {
        Scope {
            names: Names::new(alloc),
            tags: KnownTags::new(alloc, tags),
            objects: Items::new(alloc),
            enums: Names::new(alloc),
        }
    }

    /// Adds a name, which hides those of the same name before it. After want of memory the scope is as it was.
    pub fn add(&mut self, name: Text, what: NameUse) -> Result<(), NoMemory>
        ensures ok { OnOk result (self.new ≡ add name what self.old) }
        ensures err { OnErr result (self.new ≡ self.old) }
    {
        self.names.push(name, what)
    }

    /// How many names were added and not cut off. A block begins at this number, and leaving it cuts the names to it.
    pub fn len(&self) -> usize
        ensures { result ≡ len self.now }
    {
        self.names.len()
    }

    /// Keeps the first so many names; where there are fewer, all stay.
    pub fn cut(&mut self, len: usize)
        ensures { self.new ≡ cut len self.old }
    {
        self.names.cut(len);
    }

    /// The number of the last addition of a name, and what the name names there.
    pub fn lookup(&self, name: &[u8]) -> Option<(u32, &NameUse)>
        ensures { option_map (λ found. (found.0, found.1.now)) result ≡ lookup name.now self.now }
    {
        let number = self.names.last(name)?;
        let what = self.names.get(number)?;
        Some((number, what))
    }

    /// Adds the tag of an enumeration whose body has ended. After want of memory the scope is as it was.
    pub fn add_enum(&mut self, name: Text) -> Result<(), NoMemory>
        ensures ok { OnOk result (self.new ≡ add_enum name self.old) }
        ensures err { OnErr result (self.new ≡ self.old) }
    {
        self.enums.push(name, ())
    }

    /// Whether an enumeration with this tag has a body.
    pub fn has_enum(&self, name: &[u8]) -> bool
        ensures { result ≡ has_enum name.now self.now }
    {
        self.enums.last(name).is_some()
    }

    /// The structures and unions.
    pub fn tags(&self) -> &Tags
        ensures { result.now ≡ self.now.tags }
    {
        self.tags.tags()
    }

    /// Adds a structure or union at the end and gives its number. If it is complete, each of its members has a size by
    /// now. After want of memory the scope is as it was.
    pub fn add_tag(&mut self, def: TagDef) -> Result<u32, NoMemory>
        requires { HaveSizes self.old.tags def }
        ensures number { IfOk result (λ number. number ≡ length self.old.tags) }
        ensures added { IfOk result (λ _. self.new ≡ add_tag def self.old) }
        ensures same { OnErr result (self.new ≡ self.old) }
    {
        self.tags.add(def)
    }

    /// Replaces a structure or union that isn't complete by one of the same tag. If the new one is complete, each of its
    /// members has a size by now.
    pub fn set_tag(&mut self, tag: u32, def: TagDef)
        requires incomplete { IsSomeAnd (slice_get self.old.tags tag) (λ old. old.complete ≡ false) }
        requires sizes { HaveSizes self.old.tags def }
        requires named { IsSomeAnd (slice_get self.old.tags tag) (λ old. old.name ≡ def.name) }
        ensures { self.new ≡ set_tag tag def self.old }
    {
        self.tags.set(tag, def);
    }

    /// The number of the structure or union with a tag. One without a tag is never found.
    pub fn find_tag(&self, name: &[u8]) -> Option<u32>
        ensures { result ≡ find_tag name.now self.now }
    {
        self.tags.find(name)
    }

    /// Adds a data object at the end and gives its number. After want of memory the scope is as it was.
    pub fn add_object(&mut self, object: DataDef) -> Result<u32, NoMemory>
        ensures number { IfOk result (λ number. number ≡ length self.old.objects) }
        ensures added { IfOk result (λ _. self.new ≡ add_object object self.old) }
        ensures same { OnErr result (self.new ≡ self.old) }
    {
        let Ok(number) = u32::try_from(self.objects.len()) else {
            return Err(NoMemory);
        };
        self.objects.push(object)?;
        Ok(number)
    }

    /// Replaces a data object that is there.
    pub fn set_object(&mut self, number: u32, object: DataDef)
        requires { number < length self.old.objects }
        ensures { self.new ≡ set_object number object self.old }
    {
        self.objects.set(number as usize, object);
    }

    /// The data objects.
    pub fn objects(&self) -> &[DataDef]
        ensures { result.now ≡ self.now.objects }
    {
        self.objects.as_slice()
    }

    /// The structures and unions, and the data objects.
    pub fn finish(self) -> (Tags, Items<DataDef>)
        ensures tags { result.0 ≡ self.tags }
        ensures objects { result.1 ≡ self.objects }
    {
        let Scope { tags, objects, .. } = self;
        (tags.finish(), objects)
    }
}
