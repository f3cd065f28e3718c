//! The machine's memory, and bytes of it.

ghost use Rattle.std.specs.Prelude.{◌≡◌, length, vec_len, IfOk};

use std::alloc::{AllocError, Global};

/// A place in the middle of the valid addresses, and the one behind the last.
pub const A: u64 = 1_048_576;

pub const END: u64 = 17_825_792;

/// The size of a call that isn't checked, and -1.
pub const NO_SIZE: u64 = 18_446_744_073_709_551_615;

/// So many zero bytes.
pub fn zeros(alloc: Global, count: usize) -> Result<Vec<u8>, AllocError>
    ensures { IfOk result (λ bytes. vec_len bytes ≡ count) }
{
    let mut bytes = Vec::new(alloc);
    bytes.resize(count, 0)?;
    Ok(bytes)
}

/// Stores the bytes at the place, where there is room.
pub fn store(mem: &mut [u8], place: u64, bytes: &[u8]) {
    let len = bytes.len();
    if len <= mem.len() && place <= (mem.len() - len) as u64 {
        let start = place as usize;
        mem[start..start + len].copy_from_slice(bytes);
    }
}

/// Stores so many zero bytes at the place, where there is room.
pub fn clear(mem: &mut [u8], place: u64, len: usize) {
    if len <= mem.len() && place <= (mem.len() - len) as u64 {
        let start = place as usize;
        mem[start..start + len].fill(0);
    }
}

/// Whether these bytes stand at the place.
pub fn stand(mem: &[u8], place: u64, bytes: &[u8]) -> bool {
    let len = bytes.len();
    if len > mem.len() || place > (mem.len() - len) as u64 {
        return false;
    }
    let start = place as usize;
    &mem[start..start + len] == bytes
}
