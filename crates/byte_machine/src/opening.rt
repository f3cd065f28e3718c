//! Opening a machine: all memory of a run is taken here.

ghost use Rattle.std.specs.Prelude.{◌≡◌, ℕ, ◌+◌, ◌≤◌, ◌<◌, ◌++◌, None, Some, length, vec_len, replicate, IfOk, slice_get, [], ◌/◌};
ghost use Rattle.std.specs.List.{flat_map};
ghost use Rattle.std.specs.Option.{option_map};
ghost use Rattle.bm_image.specs.Images.{plain_image, IsImage};
ghost use Rattle.library_meaning.specs.Memory.{memory_size, put};
ghost use Rattle.run_meaning.specs.Worlds.{ArgumentsFit};
ghost use Rattle.byte_machine.specs.Opening.{argument_words, argument_section, string_room, string_block, argv_address, first_end, first_memory, first_core};
ghost use Rattle.byte_machine.specs.State.{stack_weights};

use crate::machine::{DATA_START, Stop};
use crate::stack::{STACK_FRAMES, STACK_START, STACK_WEIGHTS};
use crate::windows::{Mark, Windows};
use bm_image::{FnRec, Image};
use fc_base::{End, NoMemory, Words};
use host_bytes::{FIRST_VALID, MEMORY_SIZE};
use std::alloc::Global;

/// The bytes of memory before the first instruction.
pub fn open_memory(alloc: Global, image: &Image, args: &Words) -> Result<Vec<u8>, NoMemory>
    requires image { IsImage (plain_image image.now) }
    requires arguments { ArgumentsFit args.now }
    ensures items { IfOk result (λ memory. memory.items ≡ first_memory (plain_image image.now) args.now) }
    ensures size { IfOk result (λ memory. vec_len memory ≡ memory_size) }
{
    let section = argument_section(alloc, args)?;
    let mut memory = zeros(alloc, size())?;
    store(&mut memory, FIRST_VALID as usize, &section);
    store(&mut memory, DATA_START as usize, &image.bytes);
    Ok(memory)
}

/// The first call, and room for as many as can wait where each has the least weight.
pub fn open_windows(
    alloc: Global,
    image: &Image,
    args: &Words,
    least: u32,
) -> Result<Windows, NoMemory>
    requires image { IsImage (plain_image image.now) }
    requires arguments { ArgumentsFit args.now }
    requires least { 1 ≤ least }
    ensures { IfOk result (λ windows. windows ≡ record {
      running = (first_core (plain_image image.now) args.now).running;
      callers = [];
      room = stack_weights / least;
    }) }
{
    let entry = image.functions[image.entry as usize];
    let first = Mark {
        function: image.entry,
        at: entry.first,
        base: STACK_START,
        start: 0,
    };
    let room = (STACK_WEIGHTS / least) as usize;
    if entry.params == 2 {
        let given = [count(args) as u64, argv_address(args)];
        Windows::open(alloc, first, &given, entry.regs, room)
    } else {
        Windows::open(alloc, first, &[], entry.regs, room)
    }
}

/// An entry that alone passes the stack's limits stops the machine at once.
pub fn open_stop(entry: &FnRec) -> Option<Stop>
    ensures { result ≡ option_map (λ end. Stop.Ended end) (first_end entry.now) }
{
    if entry.frame > STACK_FRAMES || entry.weight > STACK_WEIGHTS {
        Some(Stop::Ended(End::StackFull))
    } else {
        None
    }
}

/// The k-th string that argv points to.
fn argument(args: &Words, k: usize) -> &[u8]
    requires { k < length (argument_words args.now) }
    ensures { slice_get (argument_words args.now) k ≡ Some result.now }
{
    if k == 0 {
        return b"prog";
    }
    match args.get(k - 1) {
        Some(word) => word.as_bytes(),
        None => unreachable!(),
    }
}

/// The room of a string with its NUL.
fn room(word: &[u8]) -> usize
    requires { length word.now ≤ 524288 }
    ensures { result ≡ string_room word.now }
{
    (word.len() + 2).div_ceil(16) * 16
}

/// How many bytes memory has. No proof may write out as many zeros, so the number comes from a call.
fn size() -> usize
    ensures { result ≡ memory_size }
{
    MEMORY_SIZE as usize
}

/// That many zero bytes.
fn zeros(alloc: Global, count: usize) -> Result<Vec<u8>, NoMemory>
    ensures { IfOk result (λ zeros. zeros.items ≡ replicate count 0) }
{
    Ok(vec![in alloc; 0; count]?)
}

/// Stores the bytes from the place on.
fn store(memory: &mut [u8], at: usize, bytes: &[u8])
    requires size { length memory.old ≡ memory_size }
    requires inside { at + length bytes.now ≤ memory_size }
    ensures { memory.new ≡ put at bytes.now memory.old }
{
    memory[at..at + bytes.len()].copy_from_slice(bytes);
}

/// Adds a string, its NUL, and zero bytes up to its room.
fn push_string(section: &mut Vec<u8>, word: &[u8]) -> Result<(), NoMemory>
    requires { length word.now ≤ 524288 }
    ensures { IfOk result (λ _. section.new.items ≡ section.old.items ++ string_block word.now) }
{
    let end = section.len() + room(word);
    section.extend_from_slice(word)?;
    section.resize(end, 0)?;
    Ok(())
}

/// How many strings argv points to.
fn count(args: &Words) -> usize
    requires { ArgumentsFit args.now }
    ensures total { result ≡ length (argument_words args.now) }
    ensures small { result ≤ 16385 }
{
    args.len() + 1
}

/// The address of argv, behind the strings.
fn argv_address(args: &Words) -> u64
    requires { ArgumentsFit args.now }
    ensures { result ≡ argv_address args.now }
{
    let mut address = FIRST_VALID;
    for k in 0..count(args) {
        address += room(argument(args, k)) as u64;
    }
    address
}

/// The strings in order.
fn strings(alloc: Global, args: &Words) -> Result<Vec<u8>, NoMemory>
    requires { ArgumentsFit args.now }
    ensures { IfOk result (λ strings. strings.items ≡ flat_map string_block (argument_words args.now)) }
{
    let mut strings = Vec::new(alloc);
    for k in 0..count(args) {
        push_string(&mut strings, argument(args, k))?;
    }
    Ok(strings)
}

/// The strings, their addresses, and a null pointer.
fn argument_section(alloc: Global, args: &Words) -> Result<Vec<u8>, NoMemory>
    requires { ArgumentsFit args.now }
    ensures { IfOk result (λ section. section.items ≡ argument_section args.now) }
{
    let mut section = strings(alloc, args)?;
    let mut address = FIRST_VALID;
    for k in 0..count(args) {
        section.extend_from_slice(&address.to_le_bytes())?;
        address += room(argument(args, k)) as u64;
    }
    section.extend_from_slice(&0u64.to_le_bytes())?;
    Ok(section)
}
