//! The loops over `read` and `write`, for any reader and writer of std.
//!
//! A call that a signal interrupts is made again. Nothing says that this, or an input, ends, so each loop gives up
//! with a fault after 2^64 - 1 calls.

ghost use Rattle.std.specs.Prelude.{◌≡◌, ◌<◌, ◌≤◌, [], take, length, vec_len, Err, IfOk, OnOk, OnErr};
ghost use Rattle.fc_base.specs.Outside.{IfTold, Takes, IsAtEnd, Appends, AppendsFront};

use fc_base::{Failed, FetchFault};
use std::alloc::Global;
use std::io::{ErrorKind, Read, Write};

/// How many bytes of a file one call of `read` asks for at most.
const CHUNK: usize = 4096;

/// One read: the number of bytes at the front of `buf`, 0 at the end.
pub fn read_some<R: Read>(reader: &mut R, buf: &mut [u8]) -> Result<usize, Failed>
    ensures bound { IfOk result (λ n. n ≤ length buf.new) }
    ensures taken { IfOk result
        (λ n. Takes (take n buf.new) (R.remaining reader.old) (R.remaining reader.new)) }
    ensures end { IfOk result (λ n. n ≡ 0 → 0 < length buf.old → IsAtEnd (R.remaining reader.old)) }
    ensures none_taken { OnErr result (Takes [] (R.remaining reader.old) (R.remaining reader.new)) }
{
    for _ in 0..u64::MAX {
        match reader.read(buf) {
            Ok(count) => return Ok(count),
            Err(e) if e.kind() == ErrorKind::Interrupted => {}
            Err(_) => return Err(Failed),
        }
    }
    Err(Failed)
}

/// All bytes up to the end, where they are at most `max`. No more than `max + 1` are read.
pub fn read_at_most<R: Read>(
    alloc: Global,
    reader: &mut R,
    max: usize,
) -> Result<Vec<u8>, FetchFault>
    ensures bound { IfOk result (λ v. vec_len v ≤ max) }
    ensures found { IfOk result (λ v. IfTold (R.remaining reader.old) (λ bytes. v.items ≡ bytes)) }
    ensures too_long { result ≡ Err FetchFault.TooLong →
        IfTold (R.remaining reader.old) (λ bytes. max < length bytes) }
{
    let mut bytes = Vec::new(alloc);
    let mut chunk = [0u8; CHUNK];
    for _ in 0..u64::MAX {
        let left = max - bytes.len();
        let asked = left.saturating_add(1).min(CHUNK);
        let Ok(count) = read_some(reader, &mut chunk[..asked]) else {
            return Err(FetchFault::Failed);
        };
        if count == 0 {
            return Ok(bytes);
        }
        if count > left {
            return Err(FetchFault::TooLong);
        }
        if bytes.extend_from_slice(&chunk[..count]).is_err() {
            return Err(FetchFault::NoMemory);
        }
    }
    Err(FetchFault::Failed)
}

/// One write: the number of bytes that were taken from the front.
fn write_some<W: Write>(writer: &mut W, bytes: &[u8]) -> Result<usize, Failed>
    ensures bound { IfOk result (λ n. n ≤ length bytes.now) }
    ensures appended { IfOk result
        (λ n. Appends (take n bytes.now) (W.contents writer.old) (W.contents writer.new)) }
    ensures none_appended { OnErr result (Appends [] (W.contents writer.old) (W.contents writer.new)) }
{
    for _ in 0..u64::MAX {
        match writer.write(bytes) {
            Ok(count) => return Ok(count),
            Err(e) if e.kind() == ErrorKind::Interrupted => {}
            Err(_) => return Err(Failed),
        }
    }
    Err(Failed)
}

/// Writes the whole piece. A writer that takes nothing of what is left fails.
pub fn write_whole<W: Write>(writer: &mut W, bytes: &[u8]) -> Result<(), Failed>
    ensures appended { OnOk result (Appends bytes.now (W.contents writer.old) (W.contents writer.new)) }
    ensures front_appended { OnErr result
        (AppendsFront bytes.now (W.contents writer.old) (W.contents writer.new)) }
{
    let mut done = 0;
    while done < bytes.len() {
        let count = write_some(writer, &bytes[done..])?;
        if count == 0 {
            return Err(Failed);
        }
        done += count;
    }
    Ok(())
}
