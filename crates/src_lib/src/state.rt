//! What a library call acts on: memory, the heap, and which objects its live blocks are.

ghost use Rattle.std.specs.Prelude.{◌≡◌, ◌*◌, [], true, Some, IfOk, OnErr};
ghost use Rattle.run_meaning.specs.Worlds.{World};
ghost use Rattle.bm_heap.specs.Heaps.{whole_heap};
ghost use Rattle.object_meaning.specs.Allocations as calls;
ghost use Rattle.object_meaning.specs.Allocations.{Gave, allocate, block_place, without_block};
ghost use Rattle.object_meaning.specs.Objects.{is_live};
ghost use Rattle.object_meaning.specs.declared.values.Value.TheVariants.{Pointer};
ghost use Rattle.src_lib.specs.Heaped.{freed};

use crate::owners::Blocks;
use bm_heap::Heap;
use fc_base::{NoMemory, UndefKind};
use src_values::{Memory, PtrValue, fresh, null};
use std::alloc::Global;
use std::marker::Model;

/// Memory, the heap, and the places in it of the objects that are its live blocks.
#[derive(Drop)]
pub struct State {
    memory: Memory,
    heap: Heap,
    blocks: Blocks,
}

impl Model for State {
    ghost use Rattle.object_meaning.specs.Allocations.{Store};
    ghost use Rattle.src_lib.specs.StateSeen.{store_in, IsState};

    ghost Value = { Store };

    ghost view = { store_in };

    ghost invariant = { IsState };
}

impl State {
    /// No objects, and a heap that nothing was asked of.
    pub fn new(alloc: Global) -> Result<State, NoMemory>
        ensures { IfOk result (λ state. state ≡ record { objects = []; heap = whole_heap; blocks = [] }) }
    {
        let heap = Heap::new(alloc)?;
        Ok(State {
            memory: Memory::new(alloc),
            heap,
            blocks: Blocks::new(alloc),
        })
    }

    /// A block of so many bytes, zero or uninitialised, as an object (C11 7.22.3): null where no hole of the heap holds it.
    fn allocate(&mut self, size: u64, zeroed: bool) -> Result<PtrValue, NoMemory>
        ensures { IfOk result (λ v. (w : World) → allocate size zeroed self.old w ≡ Gave (Pointer v) self.new w) }
    {
        match self.heap.take(size) {
            Some(place) => {
                let object = self.memory.add(size, true, zeroed)?;
                self.blocks.push(place, object)?;
                Ok(fresh(Some(object), size))
            }
            None => Ok(fresh(None, size)),
        }
    }

    /// `malloc` (C11 7.22.3.4).
    pub fn malloc(&mut self, size: u64) -> Result<PtrValue, NoMemory>
        ensures { IfOk result (λ v. (w : World) → calls.malloc size self.old w ≡ Gave (Pointer v) self.new w) }
    {
        self.allocate(size, false)
    }

    /// `calloc` (C11 7.22.3.2): a product that 64 bits don't hold finds no room, and is no claim.
    pub fn calloc(&mut self, members: u64, size: u64) -> Result<PtrValue, NoMemory>
        ensures { IfOk result (λ v. (w : World) → calls.calloc (members * size) self.old w ≡ Gave (Pointer v) self.new w) }
    {
        let _whole = self.heap.size_at(0);
        match members.checked_mul(size) {
            Some(count) => self.allocate(count, true),
            None => Ok(null()),
        }
    }

    /// Lets go of the block that is this object.
    fn let_go(&mut self, object: u64, place: u64)
        requires live { is_live self.old.objects object ≡ true }
        requires block { block_place self.old.blocks object ≡ Some place }
        ensures { self.new ≡ without_block object self.old }
    {
        self.memory.finish(object);
        let _size = self.heap.give(place);
        self.blocks.remove(object);
    }

    /// `free` (C11 7.22.3.3).
    pub fn free(&mut self, p: PtrValue) -> Result<(), UndefKind>
        ensures is { (w : World) → calls.free p self.old w ≡ freed result self.new w }
        ensures err { OnErr result (self.new ≡ self.old) }
    {
        if self.memory.is_dead(p) {
            return Err(UndefKind::DeadObject);
        }
        let PtrValue::At(start) = p else {
            return Ok(());
        };
        if start.offset != 0 {
            return Err(UndefKind::BadFree);
        }
        match self.blocks.place_of(start.object) {
            Some(place) => {
                self.let_go(start.object, place);
                Ok(())
            }
            None => Err(UndefKind::BadFree),
        }
    }
}
