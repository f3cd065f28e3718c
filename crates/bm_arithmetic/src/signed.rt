//! Numbers with a sign, in two's complement.

ghost use Rattle.std.specs.Prelude.{◌≡◌, ◌<◌};
ghost use Rattle.bm_arithmetic.specs.Arithmetic.{by_sign, is_negative, magnitude, negated, least_of, divide_value, divided, signed_as};

use bm_isa::{DivideOp, DivideWidth};

/// The number's place among all in the order of their signed values.
pub fn by_sign(n: u64) -> u64
    ensures { result ≡ by_sign n }
{
    n.wrapping_add(1 << 63)
}

fn is_negative(n: u64) -> bool
    ensures { result ≡ is_negative n }
{
    n >= 1 << 63
}

fn negated(n: u64) -> u64
    ensures { result ≡ negated n }
{
    0u64.wrapping_sub(n)
}

fn magnitude(n: u64) -> u64
    ensures { result ≡ magnitude n }
{
    if is_negative(n) { negated(n) } else { n }
}

/// The least signed number of the width.
fn least_of(width: DivideWidth) -> u64
    ensures { result ≡ least_of width }
{
    match width {
        DivideWidth::W4 => 0xFFFF_FFFF_8000_0000,
        DivideWidth::W8 => 0x8000_0000_0000_0000,
    }
}

/// What a signed division gives. None where the divisor is 0, or is -1 under the least number of the width.
pub fn divide_value(op: DivideOp, width: DivideWidth, a: u64, b: u64) -> Option<u64>
    ensures { result ≡ divide_value op width a b }
{
    if b == 0 || b == u64::MAX && a == least_of(width) {
        None
    } else {
        Some(divided(op, a, b))
    }
}

/// The quotient, cut toward zero, or the remainder, which has the dividend's sign.
fn divided(op: DivideOp, a: u64, b: u64) -> u64
    requires { 0 < b }
    ensures { result ≡ divided op a b }
{
    match op {
        DivideOp::Div => signed_as(
            is_negative(a) != is_negative(b),
            magnitude(a) / magnitude(b),
        ),
        DivideOp::Rem => signed_as(is_negative(a), magnitude(a) % magnitude(b)),
    }
}

/// A number with a sign.
fn signed_as(negative: bool, n: u64) -> u64
    ensures { result ≡ signed_as negative n }
{
    if negative { negated(n) } else { n }
}
