//! Pieces of a text, and bytes of memory.

ghost use Rattle.std.specs.Prelude.{◌≡◌, ◌+◌, ◌≤◌, true, length, drop};
ghost use Rattle.library_meaning.specs.Memory.{are_valid, bytes_at, memory_size};
ghost use Rattle.print_texts.specs.Numbers.{sign_text};

pub fn sign_bytes(negative: bool) -> &'static [u8]
    ensures { result.now ≡ sign_text negative }
{
    if negative { b"-" } else { b"" }
}

/// How many characters a number of so many digits has.
pub fn characters(negative: bool, digits: u64) -> u64
    requires { digits ≤ 22 }
    ensures { result ≡ length (sign_text negative) + digits }
{
    if negative { 1 + digits } else { digits }
}

/// The bytes from a place on.
pub fn tail(bytes: &[u8], start: usize) -> &[u8]
    requires { start ≤ length bytes.now }
    ensures { result.now ≡ drop start bytes.now }
{
    &bytes[start..]
}

/// So many bytes of memory from an address on.
pub fn bytes(mem: &[u8], address: u64, count: u64) -> &[u8]
    requires memory { length mem.now ≡ memory_size }
    requires valid { are_valid address count ≡ true }
    ensures { result.now ≡ bytes_at mem.now address count }
{
    if count == 0 {
        return &[];
    }
    let start = address as usize;
    &mem[start..start + count as usize]
}
