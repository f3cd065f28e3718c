//! The integers of a condition: 64-bit numbers, signed or unsigned.

ghost use Rattle.std.specs.Prelude.{◌≡◌, not};
ghost use Rattle.fc_base.specs.declared.levels.Width.TheVariants.{W8};
ghost use Rattle.macro_conditions.specs.Values.{is_true, truth, literal_value, character_value, arithmetic, shift, comparison, combined, evaluates_right, prefixed, chosen, joint};

use c_arithmetic::{BinaryOperator, IntType, UnaryOperator, binary, unary};
use c_tokens::Punct;
use fc_base::Width;

/// The 64 bits of a number, in two's complement where it is signed.
#[derive(Clone, Copy)]
pub struct Value {
    pub bits: u64,
    pub unsigned: bool,
}

const SIGN: u64 = 1 << 63;

pub fn is_true(value: Value) -> bool
    ensures { result ≡ is_true value }
{
    value.bits != 0
}

/// 1 or 0, signed.
pub fn truth(holds: bool) -> Value
    ensures { result ≡ truth holds }
{
    let bits = if holds { 1 } else { 0 };
    Value {
        bits,
        unsigned: false,
    }
}

/// A literal is unsigned where it says so, and where no signed number holds it.
pub fn literal_value(bits: u64, unsigned: bool) -> Value
    ensures { result ≡ literal_value bits unsigned }
{
    Value {
        bits,
        unsigned: unsigned || bits >= SIGN,
    }
}

/// A character constant has the value of a signed char.
pub fn character_value(byte: u8) -> Value
    ensures { result ≡ character_value byte }
{
    let bits = if byte < 128 {
        byte as u64
    } else {
        u64::MAX - 255 + byte as u64
    };
    Value {
        bits,
        unsigned: false,
    }
}

fn joint(a: Value, b: Value, bits: u64) -> Value
    ensures { result ≡ joint a b bits }
{
    Value {
        bits,
        unsigned: a.unsigned || b.unsigned,
    }
}

/// The type of 64 bits.
fn type_of(unsigned: bool) -> IntType
    ensures { result ≡ record { width = W8; signed = not unsigned } }
{
    IntType {
        width: Width::W8,
        signed: !unsigned,
    }
}

fn arithmetic(evaluated: bool, operator: BinaryOperator, a: Value, b: Value) -> Option<Value>
    ensures { result ≡ arithmetic evaluated operator a b }
{
    match binary(operator, type_of(a.unsigned || b.unsigned), a.bits, b.bits) {
        Ok(bits) => Some(joint(a, b, bits)),
        Err(_) if evaluated => None,
        Err(_) => Some(joint(a, b, 0)),
    }
}

fn shift(evaluated: bool, operator: BinaryOperator, a: Value, b: Value) -> Option<Value>
    ensures { result ≡ shift evaluated operator a b }
{
    match binary(operator, type_of(a.unsigned), a.bits, b.bits) {
        Ok(bits) => Some(Value {
            bits,
            unsigned: a.unsigned,
        }),
        Err(_) if evaluated => None,
        Err(_) => Some(Value {
            bits: 0,
            unsigned: a.unsigned,
        }),
    }
}

fn comparison(evaluated: bool, operator: BinaryOperator, a: Value, b: Value) -> Option<Value>
    ensures { result ≡ comparison evaluated operator a b }
{
    match binary(operator, type_of(a.unsigned || b.unsigned), a.bits, b.bits) {
        Ok(bits) => Some(Value {
            bits,
            unsigned: false,
        }),
        Err(_) if evaluated => None,
        Err(_) => Some(truth(false)),
    }
}

/// The value of a binary operator (C11 6.5.5 to 6.5.14).
pub fn combined(evaluated: bool, operator: Punct, a: Value, b: Value) -> Option<Value>
    ensures { result ≡ combined evaluated operator a b }
{
    match operator {
        Punct::Star => arithmetic(evaluated, BinaryOperator::Multiply, a, b),
        Punct::Slash => arithmetic(evaluated, BinaryOperator::Divide, a, b),
        Punct::Percent => arithmetic(evaluated, BinaryOperator::Remainder, a, b),
        Punct::Plus => arithmetic(evaluated, BinaryOperator::Add, a, b),
        Punct::Minus => arithmetic(evaluated, BinaryOperator::Subtract, a, b),
        Punct::ShiftLeft => shift(evaluated, BinaryOperator::ShiftLeft, a, b),
        Punct::ShiftRight => shift(evaluated, BinaryOperator::ShiftRight, a, b),
        Punct::Less => comparison(evaluated, BinaryOperator::Less, a, b),
        Punct::Greater => comparison(evaluated, BinaryOperator::Greater, a, b),
        Punct::LessEqual => comparison(evaluated, BinaryOperator::LessEqual, a, b),
        Punct::GreaterEqual => comparison(evaluated, BinaryOperator::GreaterEqual, a, b),
        Punct::EqualEqual => comparison(evaluated, BinaryOperator::Equal, a, b),
        Punct::NotEqual => comparison(evaluated, BinaryOperator::NotEqual, a, b),
        Punct::Ampersand => arithmetic(evaluated, BinaryOperator::And, a, b),
        Punct::Caret => arithmetic(evaluated, BinaryOperator::Xor, a, b),
        Punct::Bar => arithmetic(evaluated, BinaryOperator::Or, a, b),
        Punct::AndAnd => Some(truth(is_true(a) && is_true(b))),
        Punct::OrOr => Some(truth(is_true(a) || is_true(b))),
        _ => None,
    }
}

/// Whether the right operand is evaluated, by the left one.
pub fn evaluates_right(evaluated: bool, operator: Punct, a: Value) -> bool
    ensures { result ≡ evaluates_right evaluated operator a }
{
    match operator {
        Punct::AndAnd => evaluated && is_true(a),
        Punct::OrOr => evaluated && !is_true(a),
        _ => evaluated,
    }
}

/// The value of a unary operator (C11 6.5.3.3).
pub fn prefixed(operator: Punct, a: Value) -> Value
    ensures { result ≡ prefixed operator a }
{
    match operator {
        Punct::Minus => Value {
            bits: unary(UnaryOperator::Minus, type_of(a.unsigned), a.bits),
            unsigned: a.unsigned,
        },
        Punct::Tilde => Value {
            bits: unary(UnaryOperator::Complement, type_of(a.unsigned), a.bits),
            unsigned: a.unsigned,
        },
        Punct::Exclamation => truth(!is_true(a)),
        _ => a,
    }
}

/// The value of `c ? a : b`.
pub fn chosen(condition: Value, a: Value, b: Value) -> Value
    ensures { result ≡ chosen condition a b }
{
    let bits = if is_true(condition) { a.bits } else { b.bits };
    joint(a, b, bits)
}
