//! Calls that write.

ghost use Rattle.std.specs.Prelude.{◌≡◌, ◌∷◌, ℕ, ◌≤◌, List, [], length};
ghost use Rattle.run_meaning.specs.Objects.{stream};
ghost use Rattle.library_meaning.specs.Rows.{run};
ghost use Rattle.library_meaning.specs.Table as table;
ghost use Rattle.library_meaning.specs.OnBytes.{on_bytes, quiet};
ghost use Rattle.library_meaning.specs.Memory.{memory_size};
ghost use Rattle.library_meaning.specs.OnStreams.{Writes};

use fc_base::Sink;
use host_bytes::{find, is_valid};
use library_meaning::HostStop;

/// POSIX's `write` of the `n` bytes at `s` on a descriptor that the sink stands for: gives `n`. `BadAddress` where one of them
/// has no valid address, and then nothing is written; `SinkFault` where the sink failed.
pub fn write_c<S: Sink>(mem: &[u8], sink: &mut S, s: u64, n: u64) -> Result<u64, HostStop>
    requires { length mem.now ≡ memory_size }
    ensures row { (descriptor : ℕ) → Writes (descriptor ∷ s ∷ n ∷ [])
        (run (on_bytes (descriptor ∷ s ∷ n ∷ [])) (table.write_on descriptor) mem.now quiet) result
        (stream (S.written sink.old) (S.count sink.old)) (stream (S.written sink.new) (S.count sink.new)) }
    ensures grew { S.count sink.old ≤ S.count sink.new }
{
    if !is_valid(s, n) {
        return Err(HostStop::BadAddress);
    }
    if n == 0 {
        return Ok(0);
    }
    let start = s as usize;
    match sink.write(&mem[start..start + n as usize]) {
        Ok(()) => Ok(n),
        Err(_) => Err(HostStop::SinkFault),
    }
}

/// `putchar` of `c` as an unsigned character (C11 7.21.7.8): gives that character. `SinkFault` where the sink failed.
pub fn putchar_c<S: Sink>(sink: &mut S, c: u64) -> Result<u64, HostStop>
    ensures row { (memory : List ℕ) → Writes (c ∷ []) (run (on_bytes (c ∷ [])) table.putchar memory quiet) result
        (stream (S.written sink.old) (S.count sink.old)) (stream (S.written sink.new) (S.count sink.new)) }
    ensures grew { S.count sink.old ≤ S.count sink.new }
{
    let byte = (c % 256) as u8;
    match sink.write(&[byte]) {
        Ok(()) => Ok(u64::from(byte)),
        Err(_) => Err(HostStop::SinkFault),
    }
}

/// `puts` of the text at `s` with a newline behind it (C11 7.21.7.9): gives their length as an int. `BadAddress` where a byte up
/// to the NUL has no valid address, and then nothing is written; `SinkFault` where the sink failed.
pub fn puts_c<S: Sink>(mem: &[u8], sink: &mut S, s: u64) -> Result<u64, HostStop>
    requires { length mem.now ≡ memory_size }
    ensures row { Writes (s ∷ []) (run (on_bytes (s ∷ [])) table.puts mem.now quiet) result
        (stream (S.written sink.old) (S.count sink.old)) (stream (S.written sink.new) (S.count sink.new)) }
    ensures grew { S.count sink.old ≤ S.count sink.new }
{
    let text = find(mem, s, u64::MAX, 0)?;
    let start = s as usize;
    match sink.write(&mem[start..start + text.len as usize]) {
        Ok(()) => {}
        Err(_) => return Err(HostStop::SinkFault),
    }
    match sink.write(b"\n") {
        Ok(()) => Ok((text.len + 1) % (1 << 32)),
        Err(_) => Err(HostStop::SinkFault),
    }
}
