//! A byte that is looked for.

ghost use Rattle.std.specs.Prelude.{◌≡◌, ◌≤◌, length, take, IfOk};
ghost use Rattle.memchr.specs.Find.{IsFirstByte, is_byte};
ghost use Rattle.library_meaning.specs.Memory.{memory_size};
ghost use Rattle.host_bytes.specs.Texts.{byte_scan, found_of, LiesIn};

use crate::bytes::{MEMORY_SIZE, is_valid};
use library_meaning::HostStop;
use memchr::memchr;

/// What a scan for a byte has found: how many bytes are before it, and whether it came before the limit.
#[derive(Clone, Copy)]
pub struct Text {
    pub len: u64,
    pub ended: bool,
}

/// How many bytes are searched at once: fewer would be searched byte by byte.
const BLOCK: u64 = 32;

/// Where the byte stands first, among so many bytes of these.
fn first_of(byte: u8, bytes: &[u8], most: usize) -> Option<usize>
    requires { most ≤ length bytes.now }
    ensures { IsFirstByte (is_byte byte) (take most bytes.now) result }
{
    match memchr(byte, bytes) {
        Some(k) => if k < most { Some(k) } else { None },
        None => None,
    }
}

/// The bytes from the address on up to this byte, at most `limit` of them. `BadAddress` where the byte stands in none of
/// them and they go on past the last valid address, or where the first has no valid address.
pub fn find(memory: &[u8], address: u64, limit: u64, byte: u8) -> Result<Text, HostStop>
    requires { length memory.now ≡ memory_size }
    ensures found { byte_scan byte memory.now address limit ≡ found_of byte memory.now address result }
    ensures lies { IfOk result (λ t. LiesIn byte memory.now address limit t) }
{
    if limit == 0 {
        return Ok(Text {
            len: 0,
            ended: false,
        });
    }
    if !is_valid(address, 1) {
        return Err(HostStop::BadAddress);
    }
    let room = MEMORY_SIZE - address;
    let most = limit.min(room);
    let reach = most.max(BLOCK).min(room);
    let start = address as usize;
    match first_of(byte, &memory[start..start + reach as usize], most as usize) {
        Some(k) => Ok(Text {
            len: k as u64,
            ended: true,
        }),
        None => {
            if most == limit {
                Ok(Text {
                    len: limit,
                    ended: false,
                })
            } else {
                Err(HostStop::BadAddress)
            }
        }
    }
}
