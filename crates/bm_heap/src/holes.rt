//! The free bytes of the region.

ghost use Rattle.std.specs.Prelude.{◌≡◌, ◌+◌, ◌++◌, ◌<◌, ◌≤◌, ◌^◌, All, length, take, drop, vec_len, vec_capacity};
ghost use Rattle.bm_heap.specs.Heaps.{first_fit, take_from, put_before, give_to, heap_size};

/// A stretch of free bytes, as large as it can be. Its place counts from the region's start.
#[derive(Clone, Copy)]
pub struct Hole {
    pub start: u32,
    pub count: u32,
}

/// Takes so many bytes from the front of the first hole that holds them, and tells where they are.
pub fn take_from(holes: &mut Vec<Hole>, count: u32) -> Option<u32>
    requires { All (λ h. h.start + h.count < 2 ^ 32) holes.old.items }
    ensures place { result ≡ first_fit count holes.old.items }
    ensures rest { holes.new.items ≡ take_from count holes.old.items }
    ensures room { vec_capacity holes.new ≡ vec_capacity holes.old }
{
    for i in 0..holes.len() {
        let hole = holes[i];
        if count <= hole.count {
            if hole.count == count {
                holes.remove(i);
            } else {
                holes[i] = Hole {
                    start: hole.start + count,
                    count: hole.count - count,
                };
            }
            return Some(hole.start);
        }
    }
    None
}

/// Puts so many bytes before the holes from a number on, as one with the first of them where they touch it.
fn put_before(holes: &mut Vec<Hole>, at: usize, place: u32, count: u32)
    requires at { at ≤ length holes.old.items }
    requires small { All (λ h. h.start + h.count ≤ heap_size) holes.old.items }
    requires inside { place + count ≤ heap_size }
    requires room { vec_len holes.old < vec_capacity holes.old }
    ensures holes { holes.new.items ≡ take at holes.old.items ++ put_before place count (drop at holes.old.items) }
    ensures room { vec_capacity holes.new ≡ vec_capacity holes.old }
{
    if at < holes.len() {
        let next = holes[at];
        if place + count == next.start {
            holes[at] = Hole {
                start: place,
                count: count + next.count,
            };
            return;
        }
    }
    let hole = Hole {
        start: place,
        count,
    };
    if holes.insert(at, hole).is_err() {
        unreachable!();
    }
}

/// Adds so many bytes at a place to the holes, as one with the holes that they touch.
pub fn give_to(holes: &mut Vec<Hole>, place: u32, count: u32)
    requires small { All (λ h. h.start + h.count ≤ heap_size) holes.old.items }
    requires inside { place + count ≤ heap_size }
    requires room { vec_len holes.old < vec_capacity holes.old }
    ensures holes { holes.new.items ≡ give_to place count holes.old.items }
    ensures room { vec_capacity holes.new ≡ vec_capacity holes.old }
{
    for i in 0..holes.len() {
        let hole = holes[i];
        if hole.start >= place {
            return put_before(holes, i, place, count);
        }
        if hole.start + hole.count == place {
            holes.remove(i);
            return put_before(holes, i, hole.start, hole.count + count);
        }
    }
    let end = holes.len();
    put_before(holes, end, place, count);
}
