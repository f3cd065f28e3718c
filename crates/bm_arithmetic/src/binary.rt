//! Operations on two numbers.

ghost use Rattle.std.specs.Prelude.{◌≡◌, ◌*◌, ◌/◌, ◌^◌, ◌<◌};
ghost use Rattle.bm_arithmetic.specs.Arithmetic.{binary_value, shifted_by_sign};

use crate::signed::by_sign;
use bm_isa::BinaryOp;

/// What the operation gives. None where it divides by 0.
pub fn binary_value(op: BinaryOp, a: u64, b: u64) -> Option<u64>
    ensures { result ≡ binary_value op a b }
{
    let value = match op {
        BinaryOp::Add => a.wrapping_add(b),
        BinaryOp::Sub => a.wrapping_sub(b),
        BinaryOp::Mul => a.wrapping_mul(b),
        BinaryOp::And => a & b,
        BinaryOp::Or => a | b,
        BinaryOp::Xor => a ^ b,
        BinaryOp::ShiftLeft => a << (b % 64),
        BinaryOp::ShiftRightUnsigned => a >> (b % 64),
        BinaryOp::ShiftRightSigned => shifted_by_sign(a, b % 64),
        BinaryOp::MulHigh => high_product(a, b),
        BinaryOp::DivUnsigned => return a.checked_div(b),
        BinaryOp::RemUnsigned => return a.checked_rem(b),
        BinaryOp::Equal => u64::from(a == b),
        BinaryOp::NotEqual => u64::from(a != b),
        BinaryOp::LessUnsigned => u64::from(a < b),
        BinaryOp::AtMostUnsigned => u64::from(a <= b),
        BinaryOp::LessSigned => u64::from(by_sign(a) < by_sign(b)),
        BinaryOp::AtMostSigned => u64::from(by_sign(a) <= by_sign(b)),
        BinaryOp::MinSigned => if by_sign(b) < by_sign(a) { b } else { a },
        BinaryOp::MaxSigned => if by_sign(b) < by_sign(a) { a } else { b },
        BinaryOp::MinUnsigned => if b < a { b } else { a },
    };
    Some(value)
}

/// The number shifted to the right, with its sign.
fn shifted_by_sign(a: u64, count: u64) -> u64
    requires { count < 64 }
    ensures { result ≡ shifted_by_sign a count }
{
    if a < 1 << 63 {
        a >> count
    } else {
        u64::MAX - ((u64::MAX - a) >> count)
    }
}

/// The high half of the product.
fn high_product(a: u64, b: u64) -> u64
    ensures { result ≡ a * b / 2 ^ 64 }
{
    a.carrying_mul(b, 0).1
}
