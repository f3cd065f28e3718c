//! Programs as the bytes of an image.

use bm_image::{FnRec, ReadFault, read_image};
use bm_isa::{Instr, encode};
use byte_machine::{Machine, Stop};
use fc_base::{End, MemSink, MemSource, NoMemory, Words};
use std::alloc::Global;

/// The one function of most programs: eight registers and a frame of 32 bytes.
pub const ALONE: FnRec = FnRec {
    first: 0,
    params: 0,
    regs: 8,
    weight: 8,
    frame: 32,
};

/// The bytes of an image that begins with its first function.
pub fn image_bytes(
    alloc: Global,
    functions: &[FnRec],
    code: &[Instr],
    data: &[u8],
) -> Result<Vec<u8>, NoMemory> {
    let mut bytes = Vec::new(alloc);
    bytes.extend_from_slice(b"FC3IMAGE")?;
    let counts = [functions.len(), code.len(), data.len()];
    for word in [1, counts[0], counts[1], counts[2], 0, 0] {
        bytes.extend_from_slice(&((word % 0x1_0000) as u32).to_le_bytes())?;
    }
    for f in functions {
        for word in [f.first, f.params, f.regs, f.weight, f.frame] {
            bytes.extend_from_slice(&word.to_le_bytes())?;
        }
    }
    for instruction in code {
        bytes.extend_from_slice(&encode(instruction))?;
    }
    bytes.extend_from_slice(data)?;
    Ok(bytes)
}

/// A program that makes a library call with these arguments and returns its result.
pub fn calling(alloc: Global, call: u32, args: &[u64]) -> Result<Vec<Instr>, NoMemory> {
    let mut code = Vec::new(alloc);
    let mut slot = 0;
    for &number in args {
        code.push(Instr::Const { to: 0, number })?;
        code.push(Instr::Argument { from: 0, slot })?;
        slot = slot % 64 + 1;
    }
    code.push(Instr::Host {
        to: 0,
        call,
        count: slot,
    })?;
    code.push(Instr::Return { from: 0 })?;
    Ok(code)
}

/// The end of a run, where the stop is one.
pub fn ended(stop: Stop) -> Option<End> {
    match stop {
        Stop::Ended(end) => Some(end),
        _ => None,
    }
}

/// How a program of one function ends within 100 instructions. None where it doesn't, or is none.
pub fn end_of(alloc: Global, code: &[Instr]) -> Result<Option<End>, NoMemory> {
    end_within(alloc, &[ALONE], code, 100)
}

/// How a program ends within so many instructions.
pub fn end_within(
    alloc: Global,
    functions: &[FnRec],
    code: &[Instr],
    steps: u64,
) -> Result<Option<End>, NoMemory> {
    let bytes = image_bytes(alloc, functions, code, b"")?;
    match read_image(alloc, &bytes) {
        Ok(image) => {
            let mut machine = Machine::open(alloc, &image, &Words::new(alloc))?;
            let mut input = MemSource::new(alloc, b"")?;
            let mut out = MemSink::sized(alloc, 0)?;
            let mut err = MemSink::sized(alloc, 45)?;
            Ok(ended(machine.run(&mut input, &mut out, &mut err, steps)))
        }
        Err(ReadFault::NoMemory) => Err(NoMemory),
        Err(ReadFault::Refused(_)) => Ok(None),
    }
}
