//! Instructions out of their sixteen bytes.

ghost use Rattle.std.specs.Prelude.{◌≡◌, ◌≤◌, ◌+◌, true, length, slice_index, Some, Ok, IfOk, IfErr, ◌⊎◌};
ghost use Rattle.fc_base.specs.Widths.{width_bytes};
ghost use Rattle.bm_isa.specs.Encoding.{as_width, binary_number, instruction_bytes, with_width};
ghost use Rattle.bm_isa.specs.Decoding.{allows_width, others_are_zero, bad_fields, bad_instr, word_at, IsInstr};
ghost use Rattle.bm_isa.specs.declared.instructions.Instr.{Instr};

use crate::instructions::{BinaryOp, DivideOp, DivideWidth, Instr};
use fc_base::Width;

/// What is wrong with sixteen bytes that are no instruction: the first of these that is.
#[derive(Clone, Copy)]
pub enum BadInstr {
    /// No instruction has the number in byte 0.
    Opcode,
    /// The instruction can't have the width in byte 1.
    WidthByte,
    /// Another field that the instruction doesn't name isn't 0.
    Spare,
}

/// The instruction that has these sixteen bytes.
pub fn decode(bytes: &[u8; 16]) -> Result<Instr, BadInstr>
    ensures instruction { IfOk result (λ i. instruction_bytes i ≡ bytes.now) }
    ensures is { IfOk result IsInstr }
    ensures bad { IfErr result (λ bad. bad_instr bytes.now ≡ Some bad) }
    ensures exact { (i : Instr) → IsInstr i → bytes.now ≡ instruction_bytes i → result ≡ Ok i }
{
    let number = bytes[0];
    let width = bytes[1];
    let a = word_at(bytes, 4);
    let b = word_at(bytes, 8);
    let c = word_at(bytes, 12);
    match bad_fields(number, width, [bytes[2], bytes[3]], a, b, c) {
        Some(bad) => Err(bad),
        None => Ok(instruction(number, width, a, b, c)),
    }
}

/// The number that four bytes at a place are, little-endian.
pub fn word_at(bytes: &[u8], at: usize) -> u32
    requires { at + 4 ≤ length bytes.now }
    ensures { result ≡ word_at bytes.now at }
{
    u32::from_le_bytes([bytes[at], bytes[at + 1], bytes[at + 2], bytes[at + 3]])
}

/// What is wrong with a number, a width, two spare bytes and three words.
fn bad_fields(number: u8, width: u8, spare: [u8; 2], a: u32, b: u32, c: u32) -> Option<BadInstr>
    ensures { result ≡ bad_fields number width (slice_index spare 0, slice_index spare 1) a b c }
{
    let [spare, last] = spare;
    if number > 40 {
        return Some(BadInstr::Opcode);
    }
    if !allows_width(number, width) {
        return Some(BadInstr::WidthByte);
    }
    if !(spare == 0 && last == 0 && others_are_zero(number, a, b, c)) {
        return Some(BadInstr::Spare);
    }
    None
}

/// Whether an instruction of that number may have the width.
fn allows_width(number: u8, width: u8) -> bool
    ensures { result ≡ allows_width number width }
{
    match number {
        15 | 16 => width == 4 || width == 8,
        17 | 18 | 29..=31 => width == 1 || width == 2 || width == 4 || width == 8,
        _ => width == 0,
    }
}

/// Whether the words that an instruction of that number doesn't name are 0.
fn others_are_zero(number: u8, a: u32, b: u32, c: u32) -> bool
    ensures { result ≡ others_are_zero number a b c }
{
    let named_a = number != 34;
    let named_b = number != 33 && number != 39;
    let named_c = match number {
        0 | 3..=16 | 19..=28 | 32 | 33 | 40 => true,
        _ => false,
    };
    (named_a || a == 0) && (named_b || b == 0) && (named_c || c == 0)
}

/// The instruction of that number with its width and its words.
fn instruction(number: u8, width: u8, a: u32, b: u32, c: u32) -> Instr
    requires number { number ≤ 40 }
    requires width { allows_width number width ≡ true }
    requires others { others_are_zero number a b c ≡ true }
    ensures bytes { instruction_bytes result ≡ with_width number width a b c }
    ensures is { IsInstr result }
{
    match number {
        0 => Instr::Const {
            to: a,
            number: u64::from(c) * 0x1_0000_0000 + u64::from(b),
        },
        1 => Instr::Move { to: a, from: b },
        2 => Instr::Slot { to: a, offset: b },
        15 => Instr::Divide {
            op: DivideOp::Div,
            width: divide_width(width),
            to: a,
            left: b,
            right: c,
        },
        16 => Instr::Divide {
            op: DivideOp::Rem,
            width: divide_width(width),
            to: a,
            left: b,
            right: c,
        },
        17 => Instr::Extend {
            signed: true,
            width: width_of(width),
            to: a,
            from: b,
        },
        18 => Instr::Extend {
            signed: false,
            width: width_of(width),
            to: a,
            from: b,
        },
        28 => Instr::Select {
            to: a,
            test: b,
            from: c,
        },
        29 => Instr::Load {
            signed: false,
            width: width_of(width),
            to: a,
            at: b,
        },
        30 => Instr::Load {
            signed: true,
            width: width_of(width),
            to: a,
            at: b,
        },
        31 => Instr::Store {
            width: width_of(width),
            from: a,
            at: b,
        },
        32 => Instr::Copy {
            to_at: a,
            from_at: b,
            count: c,
        },
        33 => Instr::Zero { at: a, count: c },
        34 => Instr::Jump { target: b },
        35 => Instr::JumpIfZero { test: a, target: b },
        36 => Instr::JumpIfNotZero { test: a, target: b },
        37 => Instr::Argument { from: a, slot: b },
        38 => Instr::Call { to: a, function: b },
        39 => Instr::Return { from: a },
        40 => Instr::Host {
            to: a,
            call: b,
            count: c,
        },
        _ => Instr::Binary {
            op: binary_op(number),
            to: a,
            left: b,
            right: c,
        },
    }
}

/// The width of a signed division.
fn divide_width(width: u8) -> DivideWidth
    requires { allows_width 15 width ≡ true }
    ensures { width_bytes (as_width result) ≡ width }
{
    match width {
        4 => DivideWidth::W4,
        _ => DivideWidth::W8,
    }
}

/// The width of an instruction that extends, loads or stores.
fn width_of(width: u8) -> Width
    requires { allows_width 17 width ≡ true }
    ensures { width_bytes result ≡ width }
{
    match width {
        1 => Width::W1,
        2 => Width::W2,
        4 => Width::W4,
        _ => Width::W8,
    }
}

/// The operation on two registers of that number.
fn binary_op(number: u8) -> BinaryOp
    requires least { 3 ≤ number }
    requires most { number ≤ 27 }
    requires apart { (number ≤ 14) ⊎ (19 ≤ number) }
    ensures { binary_number result ≡ number }
{
    match number {
        3 => BinaryOp::Add,
        4 => BinaryOp::Sub,
        5 => BinaryOp::Mul,
        6 => BinaryOp::And,
        7 => BinaryOp::Or,
        8 => BinaryOp::Xor,
        9 => BinaryOp::ShiftLeft,
        10 => BinaryOp::ShiftRightUnsigned,
        11 => BinaryOp::ShiftRightSigned,
        12 => BinaryOp::MulHigh,
        13 => BinaryOp::DivUnsigned,
        14 => BinaryOp::RemUnsigned,
        19 => BinaryOp::Equal,
        20 => BinaryOp::NotEqual,
        21 => BinaryOp::LessUnsigned,
        22 => BinaryOp::AtMostUnsigned,
        23 => BinaryOp::LessSigned,
        24 => BinaryOp::AtMostSigned,
        25 => BinaryOp::MinSigned,
        26 => BinaryOp::MaxSigned,
        _ => BinaryOp::MinUnsigned,
    }
}
