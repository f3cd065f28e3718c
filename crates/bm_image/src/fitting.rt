//! Which instructions may stand in a function.

ghost use Rattle.std.specs.Prelude.{◌≡◌, ◌^◌, nat_lt};
ghost use Rattle.bm_image.specs.Images.{form_takes, host_takes, fits, ends_function};

use crate::images::Bounds;
use bm_isa::Instr;
use c_library::{LibFn, host_call};

/// Whether a form of the function takes that many argument slots.
fn form_takes(f: LibFn, checked: bool, count: u32) -> bool
    ensures { result ≡ form_takes f checked count }
{
    if checked && f.checked_form().is_none() {
        return false;
    }
    let count = count as usize;
    let slots = f.parameters().len() + usize::from(checked);
    count <= 64
        && if f.is_variadic() {
            slots <= count
        } else {
            count == slots
        }
}

/// Whether a library call of that number takes that many argument slots.
fn host_takes(call: u32, count: u32) -> bool
    ensures { result ≡ host_takes call count }
{
    match host_call(call) {
        Some((f, checked)) => form_takes(f, checked, count),
        None => false,
    }
}

/// Each number of this type has 64 bits.
fn is_word(number: u64) -> bool
    ensures { result ≡ nat_lt number (2 ^ 64) }
{
    let _number = number;
    true
}

/// Each number of this type has 32 bits.
fn is_count(count: u32) -> bool
    ensures { result ≡ nat_lt count (2 ^ 32) }
{
    let _count = count;
    true
}

/// Whether an instruction's operands are within these bounds.
pub fn fits(b: &Bounds, instruction: &Instr) -> bool
    ensures { result ≡ fits b.now instruction.now }
{
    match *instruction {
        Instr::Const { to, number } => to < b.registers && is_word(number),
        Instr::Slot { to, offset } => to < b.registers && offset < b.frame.max(1),
        Instr::Argument { from, slot } => from < b.registers && slot < 64,
        Instr::Return { from } => from < b.registers,
        Instr::Host { to, call, count } => to < b.registers && host_takes(call, count),
        Instr::Move { to, from } => to < b.registers && from < b.registers,
        Instr::Binary {
            to,
            left,
            right,
            ..
        } => to < b.registers && (left < b.registers && right < b.registers),
        Instr::Divide {
            to,
            left,
            right,
            ..
        } => to < b.registers && (left < b.registers && right < b.registers),
        Instr::Extend { to, from, .. } => to < b.registers && from < b.registers,
        Instr::Select { to, test, from } => {
            to < b.registers && (test < b.registers && from < b.registers)
        }
        Instr::Load { to, at, .. } => to < b.registers && at < b.registers,
        Instr::Store { from, at, .. } => from < b.registers && at < b.registers,
        Instr::Zero { at, count } => at < b.registers && is_count(count),
        Instr::Jump { target } => b.first <= target && target < b.end,
        Instr::JumpIfZero { test, target } => {
            test < b.registers && (b.first <= target && target < b.end)
        }
        Instr::JumpIfNotZero { test, target } => {
            test < b.registers && (b.first <= target && target < b.end)
        }
        Instr::Copy {
            to_at,
            from_at,
            count,
        } => to_at < b.registers && (from_at < b.registers && is_count(count)),
        Instr::Call { to, function } => to < b.registers && function < b.functions,
    }
}

/// Whether control doesn't go on behind an instruction.
pub fn ends_function(instruction: &Instr) -> bool
    ensures { result ≡ ends_function instruction.now }
{
    matches!(*instruction, Instr::Jump { .. } | Instr::Return { .. })
}
