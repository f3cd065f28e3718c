//! The rules of provenance: pointers that come from objects and from other pointers into them.

ghost use Rattle.std.specs.Prelude.{◌≡◌, ◌≤◌, ◌^◌, IfOk};
ghost use Rattle.object_meaning.specs.Memory.{named_place, part_place, trail_place, attribute_result};
ghost use Rattle.object_meaning.specs.Objects.{size_at};
ghost use Rattle.object_meaning.specs.Provenance.{IsValid, IsPointer, home, part, trail};
ghost use Rattle.src_values.specs.Spots.{base_for, attributed_place};

use crate::memory::Memory;
use crate::rules::{behind, forgot, is_claim, named, nearer, part_tag, trail_tag};
use crate::sizes::rest_of;
use fc_base::{Mode, UndefKind};
use object_meaning::{Ptr, PtrValue, Tag};

impl Memory {
    /// A variable or a string literal: all of its object.
    pub fn home(&self, object: u64) -> PtrValue
        requires small { size_at self.now object ≤ 2 ^ 32 }
        ensures { result ≡ home self.now object }
    {
        PtrValue::At(Ptr {
            object,
            offset: 0,
            end: self.object_size(object) as i64,
            tag: Tag::Known,
        })
    }

    /// A member of so many bytes, k behind its base, or an array used as a pointer, where the path begins at a variable or literal.
    pub fn named_place(&self, k: u64, size: u64, p: PtrValue) -> Result<PtrValue, UndefKind>
        requires pointer { IsPointer self.now p }
        requires behind { k ≤ 2 ^ 32 }
        requires few { size ≤ 2 ^ 32 }
        ensures { result ≡ named_place self.now k size p }
    {
        match self.base(p, k + size) {
            Ok(place) => Ok(PtrValue::At(named(place, k, size))),
            Err(kind) => Err(kind),
        }
    }

    /// The same where the path begins at a pointer.
    pub fn part_place(&self, k: u64, size: u64, p: PtrValue) -> Result<PtrValue, UndefKind>
        requires pointer { IsPointer self.now p }
        requires behind { k ≤ 2 ^ 32 }
        requires few { size ≤ 2 ^ 32 }
        ensures { result ≡ part_place self.now k size p }
    {
        match self.base(p, k) {
            Ok(place) => Ok(PtrValue::At(self.part(place, k, size))),
            Err(kind) => Err(kind),
        }
    }

    /// A trailing array, k behind its base, on a path that begins at a pointer.
    pub fn trail_place(&self, k: u64, p: PtrValue) -> Result<PtrValue, UndefKind>
        requires pointer { IsPointer self.now p }
        requires behind { k ≤ 2 ^ 32 }
        ensures { result ≡ trail_place self.now k p }
    {
        match self.base(p, k) {
            Ok(place) => Ok(PtrValue::At(self.trail(place, k))),
            Err(kind) => Err(kind),
        }
    }

    /// What a call gives whose function has the attribute `alloc_size`, for its body's result and the size that its arguments name.
    pub fn attribute_result(&self, size: u64, p: PtrValue) -> Result<PtrValue, UndefKind>
        requires { IsPointer self.now p }
        ensures { result ≡ attribute_result self.now size p }
    {
        match p {
            PtrValue::Null { claim: _ } => {
                if is_claim(size) {
                    Ok(PtrValue::Null { claim: Some(size) })
                } else {
                    Ok(forgot(p))
                }
            }
            PtrValue::At(place) => {
                if !self.is_live(place.object) {
                    return Err(UndefKind::FalseAttribute);
                }
                if !is_claim(size) {
                    return Ok(forgot(p));
                }
                self.attributed(size, place)
            }
        }
    }

    /// The same for a place in a live object and a size that it may be known by.
    fn attributed(&self, size: u64, place: Ptr) -> Result<PtrValue, UndefKind>
        requires { IsValid (size_at self.now place.object) place }
        ensures { result ≡ attributed_place self.now size place }
    {
        let whole = self.object_size(place.object);
        if rest_of(Mode::M0, whole, place.offset, place.end) != size {
            return Err(UndefKind::FalseAttribute);
        }
        Ok(PtrValue::At(Ptr {
            object: place.object,
            offset: place.offset,
            end: whole as i64,
            tag: Tag::Known,
        }))
    }

    /// The place behind which a member or an array is taken, so many bytes of which lie in its object.
    fn base(&self, p: PtrValue, within: u64) -> Result<Ptr, UndefKind>
        requires { IsPointer self.now p }
        ensures base { result ≡ base_for self.now p within }
        ensures valid { IfOk result (λ place. IsValid (size_at self.now place.object) place) }
    {
        match p {
            PtrValue::Null { claim: _ } => Err(UndefKind::NullPointer),
            PtrValue::At(place) => {
                if !self.is_live(place.object) {
                    return Err(UndefKind::DeadObject);
                }
                if !self.holds(place, within) {
                    return Err(UndefKind::OutOfObject);
                }
                Ok(place)
            }
        }
    }

    fn part(&self, place: Ptr, k: u64, size: u64) -> Ptr
        requires valid { IsValid (size_at self.now place.object) place }
        requires behind { k ≤ 2 ^ 32 }
        requires few { size ≤ 2 ^ 32 }
        ensures { result ≡ part self.now k size place }
    {
        let whole = self.object_size(place.object);
        Ptr {
            object: place.object,
            offset: behind(place.offset, k),
            end: nearer(behind(place.offset, k + size), whole as i64),
            tag: part_tag(size, place.tag),
        }
    }

    fn trail(&self, place: Ptr, k: u64) -> Ptr
        requires valid { IsValid (size_at self.now place.object) place }
        requires behind { k ≤ 2 ^ 32 }
        ensures { result ≡ trail self.now k place }
    {
        let whole = self.object_size(place.object);
        Ptr {
            object: place.object,
            offset: behind(place.offset, k),
            end: whole as i64,
            tag: trail_tag(place.tag),
        }
    }
}
