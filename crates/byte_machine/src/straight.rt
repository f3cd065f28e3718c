//! Instructions that stay in one call: its registers, memory and the argument slots.

ghost use Rattle.std.specs.Prelude.{◌≡◌, ℕ, ◌≤◌, length, true};
ghost use Rattle.bm_image.specs.declared.images.Bounds.{Bounds};
ghost use Rattle.bm_image.specs.Images.{fits, IsCode};
ghost use Rattle.library_meaning.specs.Memory.{memory_size};
ghost use Rattle.byte_machine.specs.State.{after};
ghost use Rattle.byte_machine.specs.Stack.{window};
ghost use Rattle.byte_machine.specs.View.{IsCall};
ghost use Rattle.byte_machine.specs.Straight.{Around, running_at, Stays, LeadsTo};

use crate::memory::{copy_bytes, load, store, zero_bytes};
use crate::windows::Mark;
use bm_arithmetic::{binary_value, divide_value};
use bm_image::FnRec;
use bm_isa::Instr;
use fc_base::{End, extend};

/// What an instruction leads to: the one behind it, the one at a place, the end of the run, or it is none of this module's. The first two
/// stand apart so that a conditional jump stays a jump of the processor's: as one number it becomes a conditional move, and each turn of a
/// loop waits for the numbers of the one before.
#[derive(Clone, Copy)]
pub enum Next {
    Behind,
    To(u32),
    Ends(End),
    Other,
}

/// A stretch of straight code: where it stopped, and after how many instructions.
#[derive(Clone, Copy)]
pub struct Stretch {
    pub at: usize,
    pub done: u64,
}

/// The functions of a program and their code.
#[derive(Clone, Copy)]
pub struct Functions<'a> {
    pub records: &'a [FnRec],
    pub code: &'a [Instr],
}

/// Carries out one instruction, where it stays in its call.
#[inline(always)]
pub fn perform(
    i: Instr,
    base: u32,
    registers: &mut [u64],
    memory: &mut [u8],
    slots: &mut [u64; 64],
) -> Next
    requires fits { (b : Bounds) × (fits (record b { registers = length registers.old }) i ≡ true) }
    requires size { length memory.old ≡ memory_size }
    ensures stays { (b : Bounds) → fits (record b { registers = length registers.old }) i ≡ true → Stays b i result }
    ensures leads { LeadsTo i base registers.old memory.old slots.old result registers.new memory.new slots.new }
{
    match i {
        Instr::Const { to, number } => {
            registers[to as usize] = number;
            Next::Behind
        }
        Instr::Move { to, from } => {
            registers[to as usize] = registers[from as usize];
            Next::Behind
        }
        Instr::Slot { to, offset } => {
            registers[to as usize] = u64::from(base) + u64::from(offset);
            Next::Behind
        }
        Instr::Binary {
            op,
            to,
            left,
            right,
        } => match binary_value(op, registers[left as usize], registers[right as usize]) {
            Some(number) => {
                registers[to as usize] = number;
                Next::Behind
            }
            None => Next::Ends(End::Fpe),
        },
        Instr::Divide {
            op,
            width,
            to,
            left,
            right,
        } => match divide_value(
            op,
            width,
            registers[left as usize],
            registers[right as usize],
        ) {
            Some(number) => {
                registers[to as usize] = number;
                Next::Behind
            }
            None => Next::Ends(End::Fpe),
        },
        Instr::Extend {
            signed,
            width,
            to,
            from,
        } => {
            registers[to as usize] = extend(registers[from as usize], width, signed);
            Next::Behind
        }
        Instr::Select { to, test, from } => {
            if registers[test as usize] == 0 {
                Next::Behind
            } else {
                registers[to as usize] = registers[from as usize];
                Next::Behind
            }
        }
        Instr::Load {
            signed,
            width,
            to,
            at,
        } => match load(memory, registers[at as usize], width) {
            Some(number) => {
                registers[to as usize] = extend(number, width, signed);
                Next::Behind
            }
            None => Next::Ends(End::BadAddress),
        },
        Instr::Store { width, from, at } => {
            if store(
                memory,
                registers[at as usize],
                width,
                registers[from as usize],
            ) {
                Next::Behind
            } else {
                Next::Ends(End::BadAddress)
            }
        }
        Instr::Copy {
            to_at,
            from_at,
            count,
        } => {
            if copy_bytes(
                memory,
                registers[to_at as usize],
                registers[from_at as usize],
                count,
            ) {
                Next::Behind
            } else {
                Next::Ends(End::BadAddress)
            }
        }
        Instr::Zero { at, count } => {
            if zero_bytes(memory, registers[at as usize], count) {
                Next::Behind
            } else {
                Next::Ends(End::BadAddress)
            }
        }
        Instr::Jump { target } => Next::To(target),
        Instr::JumpIfZero { test, target } => {
            if registers[test as usize] == 0 {
                Next::To(target)
            } else {
                Next::Behind
            }
        }
        Instr::JumpIfNotZero { test, target } => {
            if registers[test as usize] == 0 {
                Next::Behind
            } else {
                Next::To(target)
            }
        }
        Instr::Argument { from, slot } => {
            slots[slot as usize] = registers[from as usize];
            Next::Behind
        }
        Instr::Call { .. } | Instr::Return { .. } | Instr::Host { .. } => Next::Other,
    }
}

/// At most `budget` instructions from where the call stands, up to one that leaves it or ends the run.
pub fn straight(
    functions: Functions<'_>,
    mark: Mark,
    registers: &mut [u64],
    memory: &mut [u8],
    slots: &mut [u64; 64],
    budget: u64,
) -> Stretch
    requires code { IsCode functions.records.now functions.code.now }
    requires call { IsCall (record { functions = functions.records.now; code = functions.code.now }) (window mark registers.old) }
    requires size { length memory.old ≡ memory_size }
    ensures done { result.done ≤ budget }
    ensures call { IsCall (record { functions = functions.entry.records.now; code = functions.entry.code.now }) (record (window mark registers.new) { at = result.at }) }
    ensures stays { (a : Around) → after (record { functions = functions.entry.records.now; code = functions.entry.code.now }) result.done
        (running_at a mark.base mark.at registers.old memory.old slots.old)
        ≡ running_at a mark.base result.at registers.new memory.new slots.new }
{
    let mut at = mark.at as usize;
    for turn in 0..budget {
        match perform(functions.code[at], mark.base, registers, memory, slots) {
            Next::Behind => at += 1,
            Next::To(target) => at = target as usize,
            _ => return Stretch { at, done: turn },
        }
    }
    Stretch { at, done: budget }
}
