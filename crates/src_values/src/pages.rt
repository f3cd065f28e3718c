//! Objects by their numbers, in pages of so many numbers each.

ghost use Rattle.std.specs.Prelude.{◌≡◌, ◌+◌, ◌<◌, ◌≤◌, ◌++◌, ◌∷◌, [], length, set, get_or, replicate, IfOk, OnErr, true, ⊤};
ghost use Rattle.std.specs.Borrow.{sem};
ghost use Rattle.object_meaning.specs.Objects.{ended, object_at, is_live, size_at, finish, fill};
ghost use Rattle.src_values.specs.Lending.{LendsPlace};

use crate::copies::put_bytes;
use crate::objects::Object;
use fc_base::NoMemory;
use std::alloc::Global;
use std::marker::Model;

/// How many numbers a page has.
pub const PAGE: u64 = 512;

/// Objects whose numbers follow one another, and how many of them have ended.
#[derive(Drop)]
pub struct Page {
    objects: Vec<Object>,
    ended: u64,
}

impl Model for Page {
    ghost use Rattle.std.specs.Prelude.{List};
    ghost use Rattle.object_meaning.specs.Objects.{Object as PlainObject};

    ghost Value = { List PlainObject };

    ghost view = { λ p. p.objects.items };
}

impl Page {
    /// No objects.
    pub fn none(alloc: Global) -> Page
        ensures { result ≡ [] }
    {
        Page {
            objects: Vec::new(alloc),
            ended: 0,
        }
    }

    pub fn len(&self) -> usize
        ensures { result ≡ length self.now }
    {
        self.objects.len()
    }

    /// One more object.
    pub fn push(&mut self, object: Object) -> Result<(), NoMemory>
        ensures pushed { IfOk result (λ done. self.new ≡ self.old ++ object ∷ []) }
        ensures no_memory { OnErr result (self.new ≡ self.old) }
    {
        Ok(self.objects.push(object)?)
    }

    pub fn is_live(&self, place: usize) -> bool
        ensures { result ≡ is_live self.now place }
    {
        match self.objects.get(place) {
            Some(found) => found.is_live(),
            None => false,
        }
    }

    pub fn size_at(&self, place: usize) -> u64
        ensures { result ≡ size_at self.now place }
    {
        match self.objects.get(place) {
            Some(found) => found.size() as u64,
            None => 0,
        }
    }

    pub fn is_writable(&self, place: usize) -> bool
        ensures { result ≡ (object_at self.now place).writable }
    {
        match self.objects.get(place) {
            Some(found) => found.is_writable(),
            None => false,
        }
    }

    pub fn at(&self, place: usize) -> &Object
        requires { place < length self.now }
        ensures { result.now ≡ object_at self.now place }
    {
        &self.objects[place]
    }

    pub fn at_mut(&mut self, place: usize) -> &mut Object
        requires { place < length self.old }
        ensures* lends { sem 𝓛 (LendsPlace self.entry place result) }
        ensures value { result.now ≡ object_at self.old place }
    {
        &mut self.objects[place]
    }

    /// Gives an object all its bytes.
    pub fn fill(&mut self, place: usize, bytes: &[u8])
        requires there { place < length self.old }
        requires whole { length bytes.now ≡ size_at self.old place }
        ensures { self.new ≡ fill self.old place bytes.now }
    {
        let filled = &mut self.objects[place];
        let _size = filled.size();
        put_bytes(filled, 0, bytes);
    }

    /// Ends an object.
    pub fn end(&mut self, place: usize, alloc: Global)
        requires { place < length self.old }
        ensures { self.new ≡ finish self.old place }
    {
        self.objects[place] = Object::ended(alloc);
        self.ended = self.ended.wrapping_add(1);
    }

    /// Whether so many have ended that all have, and all have.
    pub fn has_ended(&self) -> bool
        ensures { result ≡ true → self.now ≡ replicate (length self.now) ended }
    {
        if self.ended < PAGE {
            return false;
        }
        for i in 0..self.objects.len() {
            if !self.objects[i].has_ended() {
                return false;
            }
        }
        true
    }
}
