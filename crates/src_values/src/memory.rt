//! Memory as objects.

ghost use Rattle.std.specs.Prelude.{◌≡◌, ◌+◌, ◌++◌, ◌<◌, ◌≤◌, ◌^◌, pos, length, map, replicate, IfOk, OnOk, OnErr, true, false, []};
ghost use Rattle.fc_base.specs.Widths.{width_bytes};
ghost use Rattle.object_meaning.specs.Memory.{load, load_pointer, move_by, store, store_pointer, copy, IsMemory};
ghost use Rattle.object_meaning.specs.Objects.{object_at, is_live, size_at, begun, add, finish, fill, put_cells};
ghost use Rattle.object_meaning.specs.Provenance.{IsValid, IsPointer};
ghost use Rattle.object_meaning.specs.Sizes.{size_of, true_size};
ghost use Rattle.object_meaning.specs.Touches.{is_dead, lies_in, reads, cells_at, put_at};
ghost use Rattle.object_meaning.specs.declared.values.Cell.TheVariants.{Byte};
ghost use Rattle.src_values.specs.Bracket.{BoundsTrueSize};
ghost use Rattle.src_values.specs.Numbers.{Changes};
ghost use Rattle.src_values.specs.Room.{IsRoom};
ghost use Rattle.src_values.specs.Spots.{spot_for, spots_for};

use crate::copies::{Spot, copy_cells, put_bytes, put_same};
use crate::loads::number_at;
use crate::moves::{moved_tag, moved_within};
use crate::objects::Object;
use crate::parts::pointer_at;
use crate::sizes::{bound_size, fits, rest_of, unknown_size};
use crate::stores::{store_bytes, store_place};
use crate::table::Objects;
use fc_base::{Mode, NoMemory, UndefKind, Width};
use object_meaning::{Cell, Ptr, PtrValue, Tag, sizes_law};
use std::alloc::Global;
use std::marker::Model;

/// Objects by their numbers. All memory of an object is taken where it is added.
#[derive(Drop)]
pub struct Memory {
    alloc: Global,
    objects: Objects,
}

impl Model for Memory {
    ghost use Rattle.std.specs.Prelude.{List};
    ghost use Rattle.object_meaning.specs.Memory.{IsMemory};
    ghost use Rattle.object_meaning.specs.Objects.{Object as PlainObject};

    ghost Value = { List PlainObject };

    ghost view = { λ m. m.objects };

    ghost invariant = { λ m. IsMemory m.objects };
}

impl Memory {
    /// No objects.
    pub fn new(alloc: Global) -> Memory
        ensures { result ≡ [] }
    {
        Memory {
            alloc,
            objects: Objects::new(alloc),
        }
    }

    /// One more object, which lives. Its number is how many there were before.
    pub fn add(&mut self, size: u64, writable: bool, zeroed: bool) -> Result<u64, NoMemory>
        requires { size ≤ 2 ^ 32 }
        ensures added { IfOk result (λ number. (number ≡ length self.old) × (self.new ≡ add self.old (begun size writable zeroed))) }
        ensures no_memory { OnErr result (self.new ≡ self.old) }
    {
        let number = self.objects.len();
        let object = Object::begun(self.alloc, size as usize, writable, zeroed)?;
        self.objects.push(object, self.alloc)?;
        Ok(number)
    }

    /// Ends an object.
    pub fn finish(&mut self, object: u64)
        requires { is_live self.old object ≡ true }
        ensures { self.new ≡ finish self.old object }
    {
        self.objects.end(object, self.alloc);
    }

    /// Gives an object all its bytes.
    pub fn fill(&mut self, object: u64, bytes: &[u8])
        requires there { object < length self.old }
        requires whole { length bytes.now ≡ size_at self.old object }
        ensures { self.new ≡ fill self.old object bytes.now }
    {
        self.objects.fill(object, bytes);
    }

    /// How many objects there are, ended ones too.
    pub fn len(&self) -> u64
        ensures { result ≡ length self.now }
    {
        self.objects.len()
    }

    /// Whether an object lives.
    pub fn is_live(&self, object: u64) -> bool
        ensures { result ≡ is_live self.now object }
    {
        self.objects.is_live(object)
    }

    /// How many bytes an object has.
    pub fn object_size(&self, object: u64) -> u64
        ensures { result ≡ size_at self.now object }
    {
        self.objects.size_at(object)
    }

    /// Whether an object may be written.
    pub fn is_writable(&self, object: u64) -> bool
        ensures { result ≡ (object_at self.now object).writable }
    {
        self.objects.is_writable(object)
    }

    /// Says what memory keeps: each live object has its cells, and the pointers in them are valid. It does nothing.
    pub fn is_kept(&self)
        ensures { IsMemory self.now }
    {
        let _objects = &self.objects;
    }

    /// A live object.
    pub fn object(&self, number: u64) -> &Object
        requires { is_live self.now number ≡ true }
        ensures { result.now ≡ object_at self.now number }
    {
        self.objects.at(number)
    }

    /// Where so many bytes lie that an operation reads or writes, one at least, or why it is undefined.
    fn reach(&self, at: PtrValue, count: u64, written: bool) -> Result<Spot, UndefKind>
        requires some { 0 < count }
        requires few { count ≤ 2 ^ 32 }
        requires pointer { IsPointer self.now at }
        ensures { result ≡ spot_for self.now written at count }
    {
        let PtrValue::At(place) = at else {
            return Err(UndefKind::NullPointer);
        };
        if !self.objects.is_live(place.object) {
            return Err(UndefKind::DeadObject);
        }
        let object = self.objects.at(place.object);
        let start = place.offset.unsigned_abs();
        if !fits(object.size() as u64, start, count) {
            return Err(UndefKind::OutOfObject);
        }
        if written && !object.is_writable() {
            return Err(UndefKind::ReadOnly);
        }
        Ok(Spot {
            object: place.object,
            start,
        })
    }

    /// Whether a pointer is to an object that has ended.
    pub fn is_dead(&self, p: PtrValue) -> bool
        ensures { result ≡ is_dead self.now p }
    {
        match p {
            PtrValue::Null { claim: _ } => false,
            PtrValue::At(place) => !self.is_live(place.object),
        }
    }

    /// Whether so many bytes from a place on lie in its object.
    pub(crate) fn holds(&self, place: Ptr, count: u64) -> bool
        requires { IsValid (size_at self.now place.object) place }
        ensures { result ≡ lies_in (size_at self.now place.object) place.offset count }
    {
        fits(
            self.object_size(place.object),
            place.offset.unsigned_abs(),
            count,
        )
    }

    /// Where cells lie that are copied, one at least, or why that is undefined.
    fn reach_both(
        &self,
        to: PtrValue,
        from: PtrValue,
        count: u64,
    ) -> Result<(Spot, Spot), UndefKind>
        requires to { IsPointer self.now to }
        requires from { IsPointer self.now from }
        ensures { result ≡ spots_for self.now to from count }
    {
        if self.is_dead(to) || self.is_dead(from) {
            return Err(UndefKind::DeadObject);
        }
        let PtrValue::At(target) = to else {
            return Err(UndefKind::NullPointer);
        };
        let PtrValue::At(source) = from else {
            return Err(UndefKind::NullPointer);
        };
        if !(self.holds(target, count) && self.holds(source, count)) {
            return Err(UndefKind::OutOfObject);
        }
        if !self.is_writable(target.object) {
            return Err(UndefKind::ReadOnly);
        }
        let to = Spot {
            object: target.object,
            start: target.offset.unsigned_abs(),
        };
        let from = Spot {
            object: source.object,
            start: source.offset.unsigned_abs(),
        };
        Ok((to, from))
    }

    /// The bytes behind a pointer, in truth.
    pub fn true_size(&self, mode: Mode, p: PtrValue) -> Option<u64>
        requires { IsPointer self.now p }
        ensures { result ≡ true_size self.now mode p }
    {
        match p {
            PtrValue::Null { claim: _ } => None,
            PtrValue::At(place) => {
                if self.is_live(place.object) {
                    Some(rest_of(
                        mode,
                        self.object_size(place.object),
                        place.offset,
                        place.end,
                    ))
                } else {
                    None
                }
            }
        }
    }

    /// The bytes behind a pointer as the rules tell them: at least the true ones in modes 0 and 1, at most those in modes 2 and 3, and
    /// the same where the rules resolve the pointer.
    pub fn size_of(&self, mode: Mode, p: PtrValue) -> u64
        requires pointer { IsPointer self.now p }
        requires live { is_dead self.now p ≡ false }
        ensures size { result ≡ size_of self.now mode p }
        ensures bracket { BoundsTrueSize self.now mode p result }
    {
        sizes_law();
        self.tagged_size(mode, p)
    }

    fn tagged_size(&self, mode: Mode, p: PtrValue) -> u64
        requires pointer { IsPointer self.now p }
        requires live { is_dead self.now p ≡ false }
        ensures { result ≡ size_of self.now mode p }
    {
        match p {
            PtrValue::Null { claim } => match claim {
                Some(size) => size,
                None => unknown_size(mode),
            },
            PtrValue::At(place) => match place.tag {
                Tag::Known => rest_of(
                    mode,
                    self.object_size(place.object),
                    place.offset,
                    place.end,
                ),
                Tag::Bound(remaining) => bound_size(mode, remaining),
                Tag::Unknown => unknown_size(mode),
            },
        }
    }

    /// A pointer moved by so many bytes.
    pub fn move_by(&self, p: PtrValue, delta: i64) -> Result<PtrValue, UndefKind>
        requires { IsPointer self.now p }
        ensures { result ≡ move_by self.now p delta }
    {
        match p {
            PtrValue::Null { claim } => {
                if delta == 0 {
                    Ok(PtrValue::Null { claim })
                } else {
                    Err(UndefKind::NullPointer)
                }
            }
            PtrValue::At(place) => {
                if !self.is_live(place.object) {
                    return Err(UndefKind::DeadObject);
                }
                match moved_within(self.object_size(place.object), place.offset, delta) {
                    Some(offset) => Ok(PtrValue::At(Ptr {
                        object: place.object,
                        offset,
                        end: place.end,
                        tag: moved_tag(place.tag, delta),
                    })),
                    None => Err(UndefKind::BadArithmetic),
                }
            }
        }
    }

    /// The number of a width, the lowest byte first.
    pub fn load(&self, at: PtrValue, width: Width) -> Result<u64, UndefKind>
        requires { IsPointer self.now at }
        ensures { result ≡ load self.now at width }
    {
        let count = bytes(width);
        match self.reach(at, count, false) {
            Ok(spot) => number_at(
                self.objects.at(spot.object),
                spot.start as usize,
                count as usize,
            ),
            Err(kind) => Err(kind),
        }
    }

    /// The pointer that was stored, of which nothing more is known than its place: eight parts of one, or eight zero bytes for null.
    pub fn load_ptr(&self, at: PtrValue) -> Result<PtrValue, UndefKind>
        requires { IsPointer self.now at }
        ensures value { result ≡ load_pointer self.now at }
        ensures pointer { IfOk result (IsPointer self.now) }
    {
        match self.reach(at, 8, false) {
            Ok(spot) => pointer_at(self.objects.at(spot.object), spot.start as usize),
            Err(kind) => Err(kind),
        }
    }

    /// Stores the low bytes of a number, the lowest first. What is undefined changes nothing.
    pub fn store(&mut self, at: PtrValue, width: Width, value: u64) -> Result<(), UndefKind>
        requires { IsPointer self.old at }
        ensures { Changes (store self.old at width value) self.old self.new result }
    {
        let count = bytes(width);
        match self.reach(at, count, true) {
            Ok(spot) => {
                let object = self.objects.at_mut(spot.object);
                store_bytes(object, spot.start as usize, count as usize, value);
                Ok(())
            }
            Err(kind) => Err(kind),
        }
    }

    /// Stores a pointer with all that is known of it, and null as eight zero bytes. What is undefined changes nothing.
    pub fn store_ptr(&mut self, at: PtrValue, value: PtrValue) -> Result<(), UndefKind>
        requires place { IsPointer self.old at }
        requires pointer { IsPointer self.old value }
        ensures { Changes (store_pointer self.old at value) self.old self.new result }
    {
        match self.reach(at, 8, true) {
            Ok(spot) => {
                let object = self.objects.at_mut(spot.object);
                store_place(object, spot.start as usize, value);
                Ok(())
            }
            Err(kind) => Err(kind),
        }
    }

    /// Copies so many cells as they are, uninitialised ones and parts of pointers too, as if all were read before one is stored.
    /// What is undefined changes nothing.
    pub fn copy(&mut self, to: PtrValue, from: PtrValue, count: u64) -> Result<(), UndefKind>
        requires to { IsPointer self.old to }
        requires from { IsPointer self.old from }
        ensures { Changes (copy self.old to from count) self.old self.new result }
    {
        if count == 0 {
            if self.is_dead(to) || self.is_dead(from) {
                return Err(UndefKind::DeadObject);
            }
            return Ok(());
        }
        match self.reach_both(to, from, count) {
            Ok(spots) => {
                copy_cells(
                    &mut self.objects,
                    spots.0,
                    spots.1,
                    count as usize,
                    self.alloc,
                );
                Ok(())
            }
            Err(kind) => Err(kind),
        }
    }

    /// Puts so many of one byte behind a pointer, where there is room. Null has none.
    pub fn put_same(&mut self, to: PtrValue, offset: u64, byte: u8, count: u64)
        requires { IsRoom self.old to offset count }
        ensures { self.new ≡ put_at self.old to offset (replicate count (Byte byte)) }
    {
        let PtrValue::At(place) = to else {
            return;
        };
        let start = place.offset.unsigned_abs() + offset;
        let object = self.objects.at_mut(place.object);
        put_same(object, start as usize, byte, count as usize);
    }

    /// Puts bytes behind a pointer, where there is room.
    pub fn put_bytes(&mut self, to: PtrValue, offset: u64, bytes: &[u8])
        requires { IsRoom self.old to offset (length bytes.now) }
        ensures { self.new ≡ put_at self.old to offset (map Byte bytes.now) }
    {
        let PtrValue::At(place) = to else {
            return;
        };
        let start = place.offset.unsigned_abs() + offset;
        let object = self.objects.at_mut(place.object);
        put_bytes(object, start as usize, bytes);
    }

    /// Puts cells behind a pointer, where there is room: so many from behind another one, as if all were read before one is put, and so
    /// many zero bytes behind them.
    pub fn put_text(&mut self, to: PtrValue, offset: u64, from: PtrValue, count: u64, zeros: u64)
        requires target { IsRoom self.old to offset (count + zeros) }
        requires source { IsRoom self.old from 0 count }
        ensures { self.new ≡ put_at self.old to offset (cells_at self.old (reads from count) ++ replicate zeros (Byte 0)) }
    {
        let PtrValue::At(place) = to else {
            return;
        };
        let target = Spot {
            object: place.object,
            start: place.offset.unsigned_abs() + offset,
        };
        let copied = copy_behind(&mut self.objects, target, from, count, self.alloc);
        let object = self.objects.at_mut(target.object);
        put_same(object, (target.start + copied) as usize, 0, zeros as usize);
    }
}

/// Copies so many cells from behind a pointer to a place, and tells how many there are: none behind null.
fn copy_behind(objects: &mut Objects, to: Spot, from: PtrValue, count: u64, alloc: Global) -> u64
    requires memory { IsMemory objects.old }
    requires live { is_live objects.old to.object ≡ true }
    requires room { to.start + count ≤ length (object_at objects.old to.object).cells }
    requires source { IsRoom objects.old from 0 count }
    ensures copied { objects.new ≡ put_cells objects.old to.object (pos to.start) (cells_at objects.old (reads from count)) }
    ensures long { result ≡ length (cells_at objects.old (reads from count)) }
    ensures few { result ≤ count }
{
    let PtrValue::At(place) = from else {
        return 0;
    };
    let source = Spot {
        object: place.object,
        start: place.offset.unsigned_abs(),
    };
    copy_cells(objects, to, source, count as usize, alloc);
    count
}

/// How many bytes a width has.
fn bytes(width: Width) -> u64
    ensures bytes { result ≡ width_bytes width }
    ensures some { 0 < result }
    ensures few { result ≤ 8 }
{
    match width {
        Width::W1 => 1,
        Width::W2 => 2,
        Width::W4 => 4,
        Width::W8 => 8,
    }
}
