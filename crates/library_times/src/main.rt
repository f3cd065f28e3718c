//! Makes one of the library's calls many times, to be timed beside glibc's by `bench/library`. Its words are the number of the call,
//! the length of its text or bytes, and how often it is made.
#![tactic(auto)]

ghost use Rattle.std.specs.Prelude.{◌≡◌, ◌≤◌, length, vec_len, IfOk};
ghost use Rattle.library_meaning.specs.Memory.{memory_size};

use library_meaning::HostStop;
use mem_chk::{memcmp_c, memcpy_c, memmove_c, memset_c};
use print_chk::print_mem;
use std::alloc::{AllocError, Global};
use std::{env, io};
use str_chk::{strcat_c, strchr_c, strcmp_c, strcpy_c, strlen_c, strncpy_c};

/// Where the texts lie, and one of a single byte.
const FROM: u64 = 1_048_576;

const TO: u64 = 9_437_184;

const LETTER: u64 = 65_536;

/// Where a format and a string for it lie.
const FORMAT: u64 = 65_552;

const STRING: u64 = 65_568;

/// The longest text.
const LONGEST: u64 = 4_194_304;

/// The size of a call that isn't checked.
const NO_SIZE: u64 = 18_446_744_073_709_551_615;

/// Appends one byte to the text, and takes it away again.
fn appended(mem: &mut [u8], n: u64) -> Result<u64, HostStop>
    requires memory { length mem.old ≡ memory_size }
    requires short { n ≤ 4194304 }
{
    match strcat_c(mem, FROM, LETTER, NO_SIZE) {
        Ok(_) => memset_c(mem, FROM + n, 0, 1, 1),
        Err(stop) => Err(stop),
    }
}

/// Prints an int, a string and a long into 64 bytes.
fn printed(mem: &mut [u8]) -> Result<u64, HostStop>
    requires { length mem.old ≡ memory_size }
{
    print_mem(mem, TO, 64, 64, FORMAT, &[123_456, STRING, 48_879], true)
}

/// The call of a number, on texts of so many bytes.
fn once(mem: &mut [u8], call: u64, n: u64) -> Result<u64, HostStop>
    requires memory { length mem.old ≡ memory_size }
    requires short { n ≤ 4194304 }
{
    match call {
        0 => memcpy_c(mem, TO, FROM, n, n),
        1 => memmove_c(mem, FROM + 1, FROM, n, n),
        2 => memset_c(mem, TO, 97, n, n),
        3 => memcmp_c(mem, TO, FROM, n),
        4 => strlen_c(mem, FROM),
        5 => strcmp_c(mem, TO, FROM),
        6 => strchr_c(mem, FROM, 98),
        7 => strcpy_c(mem, TO, FROM, NO_SIZE),
        8 => strncpy_c(mem, TO, FROM, n, n),
        9 => printed(mem),
        _ => appended(mem, n),
    }
}

/// All calls, and what their answers come to.
fn all(mem: &mut [u8], call: u64, n: u64, turns: u64) -> u64
    requires memory { length mem.old ≡ memory_size }
    requires short { n ≤ 4194304 }
{
    let mut sum = 0;
    for _ in 0..turns {
        match once(mem, call, n) {
            Ok(answer) => sum ^= answer,
            Err(_) => {}
        }
    }
    sum
}

/// Stores the bytes of the format and of its string.
fn write_format(mem: &mut [u8])
    requires { length mem.old ≡ memory_size }
    ensures { length mem.new ≡ memory_size }
{
    let format = FORMAT as usize;
    let string = STRING as usize;
    mem[format..format + 12].copy_from_slice(b"%d %s %05lx\0");
    mem[string..string + 4].copy_from_slice(b"abc\0");
}

/// The texts, of the letter a, and a format.
fn write(mem: &mut [u8], n: u64)
    requires memory { length mem.old ≡ memory_size }
    requires short { n ≤ 4194304 }
{
    write_format(mem);
    let _from = memset_c(mem, FROM, 97, n, n);
    let _to = memset_c(mem, TO, 97, n, n);
    let _letter = memset_c(mem, LETTER, 97, 1, 1);
}

fn zeros(alloc: Global, count: usize) -> Result<Vec<u8>, AllocError>
    ensures { IfOk result (λ bytes. vec_len bytes ≡ count) }
{
    let mut bytes = Vec::new(alloc);
    bytes.resize(count, 0)?;
    Ok(bytes)
}

fn answer(alloc: Global, call: u64, n: u64, turns: u64) -> Result<u64, AllocError> {
    let mut mem = zeros(alloc, 17_825_792)?;
    let n = n.min(LONGEST);
    write(&mut mem, n);
    Ok(all(&mut mem, call, n, turns))
}

fn number(word: &str) -> u64 {
    word.parse::<u64>().unwrap_or(0)
}

fn main(rt: HostRuntime) -> io::Result<()> {
    let mut numbers = [0u64; 3];
    let mut k = 0;
    for word in env::args(&rt)?.skip(1) {
        if k < 3 {
            numbers[k] = number(word.as_str());
            k += 1;
        }
    }
    let found = answer(rt.alloc(), numbers[0], numbers[1], numbers[2])?;
    println!(rt; "{found}")
}
