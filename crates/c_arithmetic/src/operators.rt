//! The operators of C on integers, each on values that are kept as 64 bits.

ghost use Rattle.std.specs.Prelude.{◌≡◌, ◌<◌, ◌≢◌, true, int_div, if◌then◌else◌};
ghost use Rattle.c_arithmetic.specs.Arithmetic.{integer, low_bits, truth, divides_badly, shifts_badly, product, quotient, remainder, sum, difference, shifted_left, shifted_right, is_less, negative, cut, unless, binary, unary, least};
ghost use Rattle.c_arithmetic.specs.declared.operators.BadOperation.TheVariants.{Division, ShiftCount};

use fc_base::{Width, extend};

/// An integer type: how many bytes it has, and whether it is signed.
#[derive(Clone, Copy)]
pub struct IntType {
    pub width: Width,
    pub signed: bool,
}

/// A binary operator (C11 6.5.5 to 6.5.12).
#[derive(Clone, Copy, PartialEq, Eq)]
pub enum BinaryOperator {
    Multiply,
    Divide,
    Remainder,
    Add,
    Subtract,
    ShiftLeft,
    ShiftRight,
    Less,
    Greater,
    LessEqual,
    GreaterEqual,
    Equal,
    NotEqual,
    And,
    Xor,
    Or,
}

/// A unary operator (C11 6.5.3.3).
#[derive(Clone, Copy, PartialEq, Eq)]
pub enum UnaryOperator {
    Plus,
    Minus,
    Complement,
    Not,
}

/// Why an operation has no value: a division by zero or of the least number by -1, or a shift by a count that the
/// left operand's type does not have.
#[derive(Clone, Copy, PartialEq, Eq)]
pub enum BadOperation {
    Division,
    ShiftCount,
}

fn truth(holds: bool) -> u64
    ensures { result ≡ truth holds }
{
    if holds { 1 } else { 0 }
}

fn cut(of: IntType, bits: u64) -> u64
    ensures { result ≡ cut of bits }
{
    extend(bits, of.width, of.signed)
}

fn product(of: IntType, a: u64, b: u64) -> u64
    ensures { result ≡ product of a b }
{
    cut(of, a.wrapping_mul(b))
}

fn sum(of: IntType, a: u64, b: u64) -> u64
    ensures { result ≡ sum of a b }
{
    cut(of, a.wrapping_add(b))
}

fn difference(of: IntType, a: u64, b: u64) -> u64
    ensures { result ≡ difference of a b }
{
    cut(of, a.wrapping_sub(b))
}

fn negative(of: IntType, a: u64) -> u64
    ensures { result ≡ negative of a }
{
    cut(of, 0u64.wrapping_sub(a))
}

fn signed_quotient(a: u64, b: u64) -> u64
    requires { b ≢ 0 }
    ensures { result ≡ low_bits (int_div (integer true a) (integer true b)) }
{
    a.cast_signed()
        .wrapping_div(b.cast_signed())
        .cast_unsigned()
}

fn quotient(of: IntType, a: u64, b: u64) -> u64
    requires { b ≢ 0 }
    ensures { result ≡ quotient of a b }
{
    if of.signed {
        cut(of, signed_quotient(a, b))
    } else {
        cut(of, a / b)
    }
}

fn remainder(of: IntType, a: u64, b: u64) -> u64
    requires { b ≢ 0 }
    ensures { result ≡ remainder of a b }
{
    if of.signed {
        cut(
            of,
            a.cast_signed()
                .wrapping_rem(b.cast_signed())
                .cast_unsigned(),
        )
    } else {
        cut(of, a % b)
    }
}

fn shifted_left(of: IntType, a: u64, count: u64) -> u64
    requires { count < 64 }
    ensures { result ≡ shifted_left of a count }
{
    cut(of, a.wrapping_shl(count as u32))
}

fn shifted_right(of: IntType, a: u64, count: u64) -> u64
    requires { count < 64 }
    ensures { result ≡ shifted_right of a count }
{
    if of.signed {
        cut(of, (a.cast_signed() >> count).cast_unsigned())
    } else {
        cut(of, a >> count)
    }
}

fn is_less(of: IntType, a: u64, b: u64) -> bool
    ensures { result ≡ is_less of a b }
{
    if of.signed {
        a.cast_signed() < b.cast_signed()
    } else {
        a < b
    }
}

/// The bits of the least number of a signed type.
fn least(width: Width) -> u64
    ensures { result ≡ least width }
{
    let bits = match width {
        Width::W1 => 7,
        Width::W2 => 15,
        Width::W4 => 31,
        Width::W8 => 63,
    };
    u64::MAX - ((1u64 << bits) - 1)
}

fn divides_badly(of: IntType, a: u64, b: u64) -> bool
    ensures { result ≡ divides_badly of a b }
{
    b == 0 || (of.signed && (a == least(of.width) && b == u64::MAX))
}

fn shifts_badly(of: IntType, count: u64) -> bool
    ensures { result ≡ shifts_badly of count }
{
    let bits = match of.width {
        Width::W1 => 8,
        Width::W2 => 16,
        Width::W4 => 32,
        Width::W8 => 64,
    };
    bits <= count
}

fn divided(of: IntType, a: u64, b: u64) -> Result<u64, BadOperation>
    ensures { result ≡ unless (divides_badly of a b) Division (quotient of a b) }
{
    if divides_badly(of, a, b) {
        return Err(BadOperation::Division);
    }
    Ok(quotient(of, a, b))
}

fn divided_rest(of: IntType, a: u64, b: u64) -> Result<u64, BadOperation>
    ensures { result ≡ unless (divides_badly of a b) Division (remainder of a b) }
{
    if divides_badly(of, a, b) {
        return Err(BadOperation::Division);
    }
    Ok(remainder(of, a, b))
}

fn shifted(of: IntType, a: u64, count: u64, left: bool) -> Result<u64, BadOperation>
    ensures { result ≡ unless (shifts_badly of count) ShiftCount (if left then shifted_left of a count else shifted_right of a count) }
{
    if shifts_badly(of, count) {
        return Err(BadOperation::ShiftCount);
    }
    if left {
        Ok(shifted_left(of, a, count))
    } else {
        Ok(shifted_right(of, a, count))
    }
}

/// What a binary operator gives on two values of a type, or why it gives none. A shift's count has a type of its own.
pub fn binary(operator: BinaryOperator, of: IntType, a: u64, b: u64) -> Result<u64, BadOperation>
    ensures { result ≡ binary operator of a b }
{
    match operator {
        BinaryOperator::Multiply => Ok(product(of, a, b)),
        BinaryOperator::Divide => divided(of, a, b),
        BinaryOperator::Remainder => divided_rest(of, a, b),
        BinaryOperator::Add => Ok(sum(of, a, b)),
        BinaryOperator::Subtract => Ok(difference(of, a, b)),
        BinaryOperator::ShiftLeft => shifted(of, a, b, true),
        BinaryOperator::ShiftRight => shifted(of, a, b, false),
        BinaryOperator::Less => Ok(truth(is_less(of, a, b))),
        BinaryOperator::Greater => Ok(truth(is_less(of, b, a))),
        BinaryOperator::LessEqual => Ok(truth(!is_less(of, b, a))),
        BinaryOperator::GreaterEqual => Ok(truth(!is_less(of, a, b))),
        BinaryOperator::Equal => Ok(truth(a == b)),
        BinaryOperator::NotEqual => Ok(truth(a != b)),
        BinaryOperator::And => Ok(cut(of, a & b)),
        BinaryOperator::Xor => Ok(cut(of, a ^ b)),
        BinaryOperator::Or => Ok(cut(of, a | b)),
    }
}

/// What a unary operator gives on a value of a type.
pub fn unary(operator: UnaryOperator, of: IntType, a: u64) -> u64
    ensures { result ≡ unary operator of a }
{
    match operator {
        UnaryOperator::Plus => cut(of, a),
        UnaryOperator::Minus => negative(of, a),
        UnaryOperator::Complement => cut(of, u64::MAX - a),
        UnaryOperator::Not => truth(a == 0),
    }
}
