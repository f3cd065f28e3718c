//! How a row's pointer comes about.

use fc_base::{NoMemory, UndefKind};
use src_values::{Memory, PtrValue, forgot, fresh, null};
use std::alloc::Global;

/// The variable `struct { char a[4]; char b[8]; char tail[4]; }`, uninitialised.
pub const VARIABLE: u64 = 0;

/// The string literal "abc".
pub const LITERAL: u64 = 1;

/// An object that has ended.
pub const ENDED: u64 = 2;

/// 24 zero bytes.
pub const ZEROED: u64 = 3;

/// No object and no member of a row has more bytes.
const MOST_BYTES: u64 = 1 << 32;

/// A rule by which the next pointer comes from the one before, or from nothing.
#[derive(Clone, Copy)]
pub enum Step {
    Null,
    Home(u64),
    /// The result of malloc: its object, or null.
    Fresh(Option<u64>, u64),
    Forgot,
    Named(u64, u64),
    Part(u64, u64),
    Trail(u64),
    Moved(i64),
    Attributed(u64),
}

/// The objects of the rows.
pub fn objects(alloc: Global) -> Result<Memory, NoMemory> {
    let mut memory = Memory::new(alloc);
    memory.add(16, true, false)?;
    let literal = memory.add(4, false, true)?;
    if memory.object_size(literal) == 4 {
        memory.fill(literal, b"abc\0");
    }
    let ended = memory.add(8, true, true)?;
    if memory.is_live(ended) {
        memory.finish(ended);
    }
    memory.add(24, true, true)?;
    Ok(memory)
}

/// The pointer at the end of the steps, or the kind of the first that is undefined. A row whose rule doesn't apply is `bad-free`,
/// which none of them gives.
pub fn walk(memory: &Memory, steps: &[Step]) -> Result<PtrValue, UndefKind> {
    let mut at = null();
    for &step in steps {
        at = next(memory, at, step)?;
    }
    Ok(at)
}

fn next(memory: &Memory, at: PtrValue, step: Step) -> Result<PtrValue, UndefKind> {
    if !memory.is_pointer(at) {
        return Err(UndefKind::BadFree);
    }
    match step {
        Step::Null => Ok(null()),
        Step::Home(object) => home(memory, object),
        Step::Fresh(object, size) => new(object, size),
        Step::Forgot => Ok(forgot(at)),
        Step::Named(k, size) => {
            if k > MOST_BYTES || size > MOST_BYTES {
                return Err(UndefKind::BadFree);
            }
            memory.named_place(k, size, at)
        }
        Step::Part(k, size) => {
            if k > MOST_BYTES || size > MOST_BYTES {
                return Err(UndefKind::BadFree);
            }
            memory.part_place(k, size, at)
        }
        Step::Trail(k) => {
            if k > MOST_BYTES {
                return Err(UndefKind::BadFree);
            }
            memory.trail_place(k, at)
        }
        Step::Moved(delta) => memory.move_by(at, delta),
        Step::Attributed(size) => memory.attribute_result(size, at),
    }
}

fn home(memory: &Memory, object: u64) -> Result<PtrValue, UndefKind> {
    if memory.object_size(object) > MOST_BYTES {
        return Err(UndefKind::BadFree);
    }
    Ok(memory.home(object))
}

fn new(object: Option<u64>, size: u64) -> Result<PtrValue, UndefKind> {
    match object {
        None => Ok(fresh(None, size)),
        Some(object) => {
            if size > MOST_BYTES {
                return Err(UndefKind::BadFree);
            }
            Ok(fresh(Some(object), size))
        }
    }
}
