//! Bytes that are tested, stored and copied.

ghost use Rattle.std.specs.Prelude.{◌≡◌, ◌+◌, ◌^◌, ◌<◌, ◌++◌, true, length, replicate};
ghost use Rattle.library_meaning.specs.Memory.{put, are_valid, memory_size, bytes_at};

/// The first address that may be touched.
pub const FIRST_VALID: u64 = 65_536;

/// How many bytes the machine's memory has.
pub const MEMORY_SIZE: u64 = 17_825_792;

/// Whether that many bytes from the address on may be touched. None may be touched anywhere.
pub fn is_valid(address: u64, count: u64) -> bool
    ensures { result ≡ are_valid address count }
{
    count == 0 || address >= FIRST_VALID && address <= MEMORY_SIZE && count <= MEMORY_SIZE - address
}

/// Stores the byte that many times from the address on, where they may be touched.
pub fn fill(memory: &mut [u8], address: u64, byte: u8, count: u64)
    requires size { length memory.old ≡ memory_size }
    requires valid { are_valid address count ≡ true }
    ensures { memory.new ≡ put address (replicate count byte) memory.old }
{
    if count == 0 {
        return;
    }
    let start = address as usize;
    let end = start + count as usize;
    memory[start..end].fill(byte);
}

/// Copies bytes as if through a copy, where both may be touched.
pub fn copy(memory: &mut [u8], to: u64, from: u64, count: u64)
    requires size { length memory.old ≡ memory_size }
    requires to { are_valid to count ≡ true }
    requires from { are_valid from count ≡ true }
    ensures { memory.new ≡ put to (bytes_at memory.old from count) memory.old }
{
    if count == 0 {
        return;
    }
    let n = count as usize;
    let to = to as usize;
    let from = from as usize;
    if to + n <= from {
        let (low, high) = memory.split_at_mut(from);
        low[to..to + n].copy_from_slice(&high[..n]);
    } else if from + n <= to {
        let (low, high) = memory.split_at_mut(to);
        high[..n].copy_from_slice(&low[from..from + n]);
    } else {
        memory.copy_within(from..from + n, to);
    }
}

/// Copies bytes as if through a copy, and stores zero bytes behind them.
pub fn copy_and_fill(memory: &mut [u8], to: u64, from: u64, count: u64, zeros: u64)
    requires size { length memory.old ≡ memory_size }
    requires sum { count + zeros < 2 ^ 64 }
    requires to { are_valid to (count + zeros) ≡ true }
    requires from { are_valid from count ≡ true }
    ensures { memory.new ≡ put to (bytes_at memory.old from count ++ replicate zeros 0) memory.old }
{
    copy(memory, to, from, count);
    if zeros > 0 {
        fill(memory, to + count, 0, zeros);
    }
}
