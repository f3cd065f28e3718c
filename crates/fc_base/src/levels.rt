//! Widths of integers, levels and modes of checking, and the ends of a run.

ghost use Rattle.std.specs.Prelude.{◌≡◌};
ghost use Rattle.fc_base.specs.Widths.{extended};

/// How many bytes an integer has.
#[derive(Clone, Copy, Debug, PartialEq, Eq)]
pub enum Width {
    W1,
    W2,
    W4,
    W8,
}

/// The value of `_FORTIFY_SOURCE`: no call is checked, or each call with a checked form is.
#[derive(Clone, Copy, Debug, PartialEq, Eq)]
pub enum Level {
    Zero,
    Three,
}

/// The type argument of `__builtin_dynamic_object_size` (GCC manual, "Object Size Checking").
/// The low bit asks for the closest surrounding subobject, the second bit for the minimum.
#[derive(Clone, Copy, Debug, PartialEq, Eq)]
pub enum Mode {
    M0,
    M1,
    M2,
    M3,
}

/// How a run ends: by `exit` or main's return, by `abort`, by a checked call that overflows, by a bad division,
/// past the stack's limit, at an address that is not valid, or at a print's format that is not allowed.
#[derive(Clone, Copy, Debug, PartialEq, Eq)]
pub enum End {
    Exit(u8),
    Abort,
    Overflow,
    Fpe,
    StackFull,
    BadAddress,
    BadFormat,
}

/// Keeps the low bytes of the width and extends them, by the sign bit or by zeros (C11 6.3.1.3).
pub fn extend(value: u64, width: Width, signed: bool) -> u64
    ensures { result ≡ extended value width signed }
{
    let bits = match width {
        Width::W1 => 8,
        Width::W2 => 16,
        Width::W4 => 32,
        Width::W8 => return value,
    };
    let modulus = 1u64 << bits;
    let low = value % modulus;
    if signed && low >= modulus / 2 {
        low + (u64::MAX - (modulus - 1))
    } else {
        low
    }
}
