//! The bytes of memory.

ghost use Rattle.std.specs.Prelude.{◌≡◌, ◌&&◌, true, length, ◌+◌, ◌≤◌, cond, Some, None, replicate};
ghost use Rattle.std.specs.Int.{from_le_bytes, w16, w32, w64};
ghost use Rattle.fc_base.specs.Widths.{width_bytes};
ghost use Rattle.byte_machine.specs.State.{number_at, low_bytes};
ghost use Rattle.library_meaning.specs.Memory.{memory_size, are_valid, put, bytes_at};

use fc_base::Width;
use host_bytes::{copy, fill, is_valid};

/// The number at the address, where its bytes may be touched.
#[inline(always)]
pub fn load(memory: &[u8], address: u64, width: Width) -> Option<u64>
    requires { length memory.now ≡ memory_size }
    ensures { result ≡ cond (are_valid address (width_bytes width)) (Some (number_at width address memory.now)) None }
{
    if is_valid(address, bytes_of(width)) {
        Some(number_at(memory, address, width))
    } else {
        None
    }
}

/// Stores the low bytes of the number from the address on, where they may be touched.
#[inline(always)]
pub fn store(memory: &mut [u8], address: u64, width: Width, number: u64) -> bool
    requires { length memory.old ≡ memory_size }
    ensures valid { result ≡ are_valid address (width_bytes width) }
    ensures bytes { memory.new ≡ cond (are_valid address (width_bytes width)) (put address (low_bytes width number) memory.old) memory.old }
{
    if !is_valid(address, bytes_of(width)) {
        return false;
    }
    store_low(memory, address, width, number);
    true
}

/// Copies that many bytes from the one address to the other, as if through a copy, where all of them may be touched.
pub fn copy_bytes(memory: &mut [u8], to: u64, from: u64, count: u32) -> bool
    requires { length memory.old ≡ memory_size }
    ensures valid { result ≡ (are_valid to count && are_valid from count) }
    ensures bytes { memory.new ≡ cond (are_valid to count && are_valid from count) (put to (bytes_at memory.old from count) memory.old) memory.old }
{
    let count = u64::from(count);
    if is_valid(to, count) && is_valid(from, count) {
        copy(memory, to, from, count);
        true
    } else {
        false
    }
}

/// Stores that many zero bytes from the address on, where they may be touched.
pub fn zero_bytes(memory: &mut [u8], address: u64, count: u32) -> bool
    requires { length memory.old ≡ memory_size }
    ensures valid { result ≡ are_valid address count }
    ensures bytes { memory.new ≡ cond (are_valid address count) (put address (replicate count 0) memory.old) memory.old }
{
    let count = u64::from(count);
    if is_valid(address, count) {
        fill(memory, address, 0, count);
        true
    } else {
        false
    }
}

/// How many bytes the width has.
#[inline(always)]
fn bytes_of(width: Width) -> u64
    ensures { result ≡ width_bytes width }
{
    match width {
        Width::W1 => 1,
        Width::W2 => 2,
        Width::W4 => 4,
        Width::W8 => 8,
    }
}

/// The number at the address, little-endian.
#[inline(always)]
fn number_at(memory: &[u8], address: u64, width: Width) -> u64
    requires size { length memory.now ≡ memory_size }
    requires valid { are_valid address (width_bytes width) ≡ true }
    ensures { result ≡ number_at width address memory.now }
{
    let start = address as usize;
    match width {
        Width::W1 => u64::from(memory[start]),
        Width::W2 => read_2(&memory[start..start + 2]),
        Width::W4 => read_4(&memory[start..start + 4]),
        Width::W8 => read_8(&memory[start..start + 8]),
    }
}

#[inline(always)]
fn read_2(bytes: &[u8]) -> u64
    requires { length bytes.now ≡ 2 }
    ensures { result ≡ from_le_bytes w16 bytes.now }
{
    u64::from(u16::from_le_bytes([bytes[0], bytes[1]]))
}

#[inline(always)]
fn read_4(bytes: &[u8]) -> u64
    requires { length bytes.now ≡ 4 }
    ensures { result ≡ from_le_bytes w32 bytes.now }
{
    u64::from(u32::from_le_bytes([bytes[0], bytes[1], bytes[2], bytes[3]]))
}

#[inline(always)]
fn read_8(bytes: &[u8]) -> u64
    requires { length bytes.now ≡ 8 }
    ensures { result ≡ from_le_bytes w64 bytes.now }
{
    u64::from_le_bytes([
        bytes[0], bytes[1], bytes[2], bytes[3], bytes[4], bytes[5], bytes[6], bytes[7],
    ])
}

/// Stores the low bytes of the number from the address on, little-endian.
#[inline(always)]
fn store_low(memory: &mut [u8], address: u64, width: Width, number: u64)
    requires size { length memory.old ≡ memory_size }
    requires valid { are_valid address (width_bytes width) ≡ true }
    ensures { memory.new ≡ put address (low_bytes width number) memory.old }
{
    let start = address as usize;
    match width {
        Width::W1 => write(memory, start, &[(number % 0x100) as u8]),
        Width::W2 => write(memory, start, &((number % 0x1_0000) as u16).to_le_bytes()),
        Width::W4 => write(
            memory,
            start,
            &((number % 0x1_0000_0000) as u32).to_le_bytes(),
        ),
        Width::W8 => write(memory, start, &number.to_le_bytes()),
    }
}

/// Stores the bytes from the place on.
#[inline(always)]
fn write(memory: &mut [u8], start: usize, bytes: &[u8])
    requires { start + length bytes.now ≤ length memory.old }
    ensures { memory.new ≡ put start bytes.now memory.old }
{
    memory[start..start + bytes.len()].copy_from_slice(bytes);
}
