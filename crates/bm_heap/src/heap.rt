//! The heap.

ghost use Rattle.std.specs.Prelude.{◌≡◌, ◌+◌, ◌<◌, ◌≤◌, ◌%◌, ◌/◌, None, Some, IfSome, IfOk, IsErr, replicate};
ghost use Rattle.bm_heap.specs.Heaps.{whole_heap, heap_size, block_bytes, block_at, IsHeap, place_for, after_take, after_give, heap_places};

use crate::holes::{Hole, give_to, take_from};
use fc_base::NoMemory;
use std::alloc::Global;
use std::marker::Model;

/// How many bytes the region has.
const HEAP_SIZE: u64 = 8_388_608;

/// No live block is at the place.
#[derive(Clone, Copy)]
pub struct NotABlock;

/// One region's holes in the order of their places, in room for as many as there can be, and for each multiple of 16 one more
/// than the size that was asked for of the live block that begins there, or 0.
#[derive(Drop)]
pub struct Heap {
    holes: Vec<Hole>,
    sizes: Vec<u32>,
}

impl Model for Heap {
    ghost use Rattle.bm_heap.specs.Heaps.{Heap};
    ghost use Rattle.bm_heap.specs.View.{heap_of, IsKept};

    ghost Value = { Heap };

    ghost view = { heap_of };

    ghost invariant = { IsKept };
}

impl Heap {
    /// A heap that nothing was asked of. All memory is taken here.
    pub fn new(alloc: Global) -> Result<Heap, NoMemory>
        ensures { IfOk result (λ heap. heap ≡ whole_heap) }
    {
        let mut holes = Vec::with_capacity(alloc, most_holes())?;
        holes.push(Hole {
            start: 0,
            count: 8_388_608,
        })?;
        let sizes = zeros(alloc, places())?;
        Ok(Heap { holes, sizes })
    }

    /// The place of a new block of so many bytes.
    pub fn take(&mut self, size: u64) -> Option<u64>
        ensures place { result ≡ place_for size self.old }
        ensures heap { self.new ≡ after_take size self.old }
        ensures inside { IfSome result (λ place. place + block_bytes size ≤ heap_size) }
    {
        if size >= HEAP_SIZE {
            let _holes = &self.holes;
            return None;
        }
        let size = size as u32;
        let place = take_from(&mut self.holes, block_bytes(size))?;
        self.sizes[(place / 16) as usize] = size + 1;
        Some(u64::from(place))
    }

    /// Lets go of the block at the place, and tells the size that was asked for.
    pub fn give(&mut self, place: u64) -> Result<u64, NotABlock>
        ensures size { IfOk result (λ size. block_at self.old place ≡ Some size) }
        ensures heap { self.new ≡ after_give place self.old }
        ensures none { IsErr result → block_at self.old place ≡ None }
    {
        let Some(size) = self.size_at(place) else {
            return Err(NotABlock);
        };
        give_to(&mut self.holes, place as u32, block_bytes(size as u32));
        self.sizes[(place / 16) as usize] = 0;
        Ok(size)
    }

    /// The size that was asked for of the live block at the place.
    pub fn size_at(&self, place: u64) -> Option<u64>
        ensures size { result ≡ block_at self.now place }
        ensures whole { IsHeap self.now.holes (block_at self.now) }
    {
        let sizes = &self.sizes;
        if place >= HEAP_SIZE {
            return None;
        }
        if place % 16 != 0 {
            return None;
        }
        let size = sizes[(place / 16) as usize];
        if size == 0 {
            return None;
        }
        Some(u64::from(size - 1))
    }
}

/// How many bytes a request takes: one more, rounded up to a multiple of 16.
fn block_bytes(size: u32) -> u32
    requires { size < 8388608 }
    ensures { result ≡ block_bytes size }
{
    (size + 1).div_ceil(16) * 16
}

/// That many zeros.
fn zeros(alloc: Global, count: usize) -> Result<Vec<u32>, NoMemory>
    ensures { IfOk result (λ zeros. zeros.items ≡ replicate count 0) }
{
    Ok(vec![in alloc; 0; count]?)
}

/// How many places there are. No proof may write out as many zeros, so the number comes from a call.
fn places() -> usize
    ensures { result ≡ heap_places }
{
    524_288
}

/// How many holes there can be, and one more: each holds at least 16 bytes, and so does each block between two of them.
fn most_holes() -> usize
    ensures { result ≡ 262145 }
{
    262_145
}
