//! The library's calls on the heap (C11 7.22.3).

ghost use Rattle.std.specs.Prelude.{◌≡◌, ◌≢◌, ◌-◌, ◌≤◌, min, IfSome, true};
ghost use Rattle.run_meaning.specs.Objects.{Streams};
ghost use Rattle.c_library.specs.declared.functions.LibFn.{LibFn};
ghost use Rattle.library_meaning.specs.Memory.{are_valid};
ghost use Rattle.bm_heap.specs.Heaps.{place_for, after_take, after_give};
ghost use Rattle.byte_machine.specs.State.{heap_start, block_address, block_in, clearing, replaced};
ghost use Rattle.byte_machine.specs.Performing.{IsGoing, StandsAtCall, GoesOn, Names, Performs};

use super::{Machine, Step, Stop};
use fc_base::End;

/// Where the heap begins.
const HEAP_START: u64 = 9_437_184;

impl Machine {
    /// C11's `malloc`.
    pub(super) fn malloc(&mut self, checked: bool, to: u32) -> Step
        requires running { IsGoing self.old }
        requires call { StandsAtCall self.old LibFn.Malloc checked to }
        ensures program { self.new.program ≡ self.old.program }
        ensures performed { (all : Streams) → Performs self.old self.new result all all }
    {
        let _checked = checked;
        let size = self.slot(0);
        let address = self.allocate(size);
        self.give(to, address)
    }

    /// C11's `calloc`.
    pub(super) fn calloc(&mut self, checked: bool, to: u32) -> Step
        requires running { IsGoing self.old }
        requires call { StandsAtCall self.old LibFn.Calloc checked to }
        ensures program { self.new.program ≡ self.old.program }
        ensures performed { (all : Streams) → Performs self.old self.new result all all }
    {
        let _checked = checked;
        let count = self.slot(0);
        match count.checked_mul(self.slot(1)) {
            Some(size) => self.clear(to, size),
            None => self.give(to, 0),
        }
    }

    /// A new block of so many zero bytes.
    fn clear(&mut self, to: u32, size: u64) -> Step
        requires on { GoesOn self.old }
        requires register { Names self.old to }
        ensures state { self.new ≡ record self.old { core = clearing to size self.old.core } }
        ensures step { result ≡ Step.Going }
    {
        let address = self.allocate(size);
        if address != 0 {
            self.fill(address, 0, size);
        }
        self.give(to, address)
    }

    /// C11's `realloc`.
    pub(super) fn realloc(&mut self, checked: bool, to: u32) -> Step
        requires running { IsGoing self.old }
        requires call { StandsAtCall self.old LibFn.Realloc checked to }
        ensures program { self.new.program ≡ self.old.program }
        ensures performed { (all : Streams) → Performs self.old self.new result all all }
    {
        let _checked = checked;
        let address = self.slot(0);
        let size = self.slot(1);
        if address == 0 {
            let new = self.allocate(size);
            return self.give(to, new);
        }
        match self.block(address) {
            Some(old) => self.resize(to, address, old, size),
            None => self.stop(Stop::Ended(End::BadAddress)),
        }
    }

    /// The block at the address, of `old` bytes, becomes one of so many.
    fn resize(&mut self, to: u32, address: u64, old: u64, size: u64) -> Step
        requires on { GoesOn self.old }
        requires register { Names self.old to }
        requires heap { heap_start ≤ address }
        requires inside { are_valid address old ≡ true }
        ensures state { self.new ≡ record self.old {
          core = replaced to address (min old size) size (place_for size self.old.core.heap) self.old.core;
        } }
        ensures step { result ≡ Step.Going }
    {
        let new = self.allocate(size);
        if new == 0 {
            return self.give(to, 0);
        }
        self.copy_bytes(new, address, old.min(size));
        self.release(address);
        self.give(to, new)
    }

    /// C11's `free`.
    pub(super) fn free(&mut self, checked: bool, to: u32) -> Step
        requires running { IsGoing self.old }
        requires call { StandsAtCall self.old LibFn.Free checked to }
        ensures program { self.new.program ≡ self.old.program }
        ensures performed { (all : Streams) → Performs self.old self.new result all all }
    {
        let _checked = checked;
        let address = self.slot(0);
        if address == 0 {
            return self.give(to, 0);
        }
        match self.block(address) {
            Some(_) => {
                self.release(address);
                self.give(to, 0)
            }
            None => self.stop(Stop::Ended(End::BadAddress)),
        }
    }

    /// The address of a new block of so many bytes, or 0.
    fn allocate(&mut self, size: u64) -> u64
        ensures address { result ≡ block_address (place_for size self.old.core.heap) }
        ensures state { self.new ≡ record self.old { core = record self.old.core { heap = after_take size self.old.core.heap } } }
        ensures inside { result ≢ 0 → are_valid result size ≡ true }
    {
        match self.heap.take(size) {
            Some(place) => HEAP_START + place,
            None => 0,
        }
    }

    /// The size that was asked for of the live block at the address.
    fn block(&self, address: u64) -> Option<u64>
        ensures size { result ≡ block_in self.now.core.heap address }
        ensures inside { IfSome result (λ size. are_valid address size ≡ true) }
    {
        if address < HEAP_START {
            return None;
        }
        self.heap.size_at(address - HEAP_START)
    }

    /// Lets go of the block at the address, which is in the heap.
    fn release(&mut self, address: u64)
        requires { heap_start ≤ address }
        ensures { self.new ≡ record self.old { core = record self.old.core { heap = after_give (address - heap_start) self.old.core.heap } } }
    {
        match self.heap.give(address - HEAP_START) {
            Ok(_) => {}
            Err(_) => {}
        }
    }
}
