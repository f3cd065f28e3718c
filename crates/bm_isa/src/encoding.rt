//! The sixteen bytes of an instruction.

ghost use Rattle.std.specs.Prelude.{◌≡◌};
ghost use Rattle.bm_isa.specs.Encoding.{as_width, binary_number, divide_number, without_width, with_width, instruction_bytes};
ghost use Rattle.fc_base.specs.Widths.{width_bytes};

use crate::instructions::{BinaryOp, DivideOp, DivideWidth, Instr};
use fc_base::Width;

fn width_byte(width: Width) -> u8
    ensures { result ≡ width_bytes width }
{
    match width {
        Width::W1 => 1,
        Width::W2 => 2,
        Width::W4 => 4,
        Width::W8 => 8,
    }
}

fn divide_width_byte(width: DivideWidth) -> u8
    ensures { result ≡ width_bytes (as_width width) }
{
    match width {
        DivideWidth::W4 => 4,
        DivideWidth::W8 => 8,
    }
}

fn binary_byte(op: BinaryOp) -> u8
    ensures { result ≡ binary_number op }
{
    match op {
        BinaryOp::Add => 3,
        BinaryOp::Sub => 4,
        BinaryOp::Mul => 5,
        BinaryOp::And => 6,
        BinaryOp::Or => 7,
        BinaryOp::Xor => 8,
        BinaryOp::ShiftLeft => 9,
        BinaryOp::ShiftRightUnsigned => 10,
        BinaryOp::ShiftRightSigned => 11,
        BinaryOp::MulHigh => 12,
        BinaryOp::DivUnsigned => 13,
        BinaryOp::RemUnsigned => 14,
        BinaryOp::Equal => 19,
        BinaryOp::NotEqual => 20,
        BinaryOp::LessUnsigned => 21,
        BinaryOp::AtMostUnsigned => 22,
        BinaryOp::LessSigned => 23,
        BinaryOp::AtMostSigned => 24,
        BinaryOp::MinSigned => 25,
        BinaryOp::MaxSigned => 26,
        BinaryOp::MinUnsigned => 27,
    }
}

fn divide_byte(op: DivideOp) -> u8
    ensures { result ≡ divide_number op }
{
    match op {
        DivideOp::Div => 15,
        DivideOp::Rem => 16,
    }
}

/// An instruction of one number, with a width and three words.
fn with_width(number: u8, width: u8, a: u32, b: u32, c: u32) -> [u8; 16]
    ensures { result ≡ with_width number width a b c }
{
    let [a0, a1, a2, a3] = a.to_le_bytes();
    let [b0, b1, b2, b3] = b.to_le_bytes();
    let [c0, c1, c2, c3] = c.to_le_bytes();
    [
        number, width, 0, 0, a0, a1, a2, a3, b0, b1, b2, b3, c0, c1, c2, c3,
    ]
}

/// The same with no width.
fn without_width(number: u8, a: u32, b: u32, c: u32) -> [u8; 16]
    ensures { result ≡ without_width number a b c }
{
    with_width(number, 0, a, b, c)
}

/// The instruction's sixteen bytes: number, width, two zero bytes, and three little-endian words.
pub fn encode(i: &Instr) -> [u8; 16]
    ensures { result ≡ instruction_bytes i.now }
{
    match *i {
        Instr::Const { to, number } => {
            let low = (number % 0x1_0000_0000) as u32;
            let high = (number / 0x1_0000_0000) as u32;
            without_width(0, to, low, high)
        }
        Instr::Move { to, from } => without_width(1, to, from, 0),
        Instr::Slot { to, offset } => without_width(2, to, offset, 0),
        Instr::Binary {
            op,
            to,
            left,
            right,
        } => without_width(binary_byte(op), to, left, right),
        Instr::Divide {
            op,
            width,
            to,
            left,
            right,
        } => with_width(divide_byte(op), divide_width_byte(width), to, left, right),
        Instr::Extend {
            signed,
            width,
            to,
            from,
        } => with_width(if signed { 17 } else { 18 }, width_byte(width), to, from, 0),
        Instr::Select { to, test, from } => without_width(28, to, test, from),
        Instr::Load {
            signed,
            width,
            to,
            at,
        } => with_width(if signed { 30 } else { 29 }, width_byte(width), to, at, 0),
        Instr::Store { width, from, at } => with_width(31, width_byte(width), from, at, 0),
        Instr::Copy {
            to_at,
            from_at,
            count,
        } => without_width(32, to_at, from_at, count),
        Instr::Zero { at, count } => without_width(33, at, 0, count),
        Instr::Jump { target } => without_width(34, 0, target, 0),
        Instr::JumpIfZero { test, target } => without_width(35, test, target, 0),
        Instr::JumpIfNotZero { test, target } => without_width(36, test, target, 0),
        Instr::Argument { from, slot } => without_width(37, from, slot, 0),
        Instr::Call { to, function } => without_width(38, to, function, 0),
        Instr::Return { from } => without_width(39, from, 0, 0),
        Instr::Host { to, call, count } => without_width(40, to, call, count),
    }
}
