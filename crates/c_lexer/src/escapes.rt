//! The characters of literals (C11 6.4.4.4).

ghost use Rattle.std.specs.Prelude.{◌≡◌, ◌<◌, ◌≤◌, ◌+◌, ◌*◌, length};
ghost use Rattle.c_tokens.specs.Literals.{simple_escape, byte_value, octal_digits, hexadecimal_digits, escape};
ghost use Rattle.c_lexer.specs.Runs.{first_character};

use crate::bytes::{Class, digit_value, run_length};
use crate::numbers::value_of;

/// The value of a backslash and this byte.
#[tactic(auto, unfolding(c_tokens::specs::Literals::simple_escape))]
fn simple_escape(b: u8) -> Option<u8>
    ensures { result ≡ simple_escape b }
{
    match b {
        b'\'' | b'"' | b'?' | b'\\' => Some(b),
        b'a' => Some(7),
        b'b' => Some(8),
        b'f' => Some(12),
        b'n' => Some(b'\n'),
        b'r' => Some(b'\r'),
        b't' => Some(b'\t'),
        b'v' => Some(11),
        _ => None,
    }
}

/// The number that the digits write, where there is one and it is a byte.
fn byte_value(base: u8, digits: &[u8]) -> Option<u8>
    requires { 0 < base }
    ensures { result ≡ byte_value base digits.now }
{
    if digits.is_empty() {
        return None;
    }
    let value = value_of(base, digits)?;
    if value < 256 { Some(value as u8) } else { None }
}

/// The one to three octal digits at the front.
fn octal_digits(bytes: &[u8]) -> &[u8]
    ensures digits { result.now ≡ octal_digits bytes.now }
    ensures within { length result.now ≤ length bytes.now }
{
    let front = &bytes[..bytes.len().min(3)];
    &front[..run_length(Class::Digit(8), front)]
}

/// The hexadecimal digits at the front.
fn hexadecimal_digits(bytes: &[u8]) -> &[u8]
    ensures digits { result.now ≡ hexadecimal_digits bytes.now }
    ensures within { length result.now ≤ length bytes.now }
{
    &bytes[..run_length(Class::Digit(16), bytes)]
}

/// The escape sequence behind a backslash: how many bytes it has there, and its value.
#[tactic(auto, unfolding(c_tokens::specs::Literals::escape))]
fn escape(bytes: &[u8]) -> (usize, Option<u8>)
    ensures value { result ≡ escape bytes.now }
    ensures within { result.0 ≤ length bytes.now }
{
    let [b, rest @ ..] = bytes else {
        return (0, None);
    };
    if digit_value(*b) < 8 {
        let digits = octal_digits(bytes);
        (digits.len(), byte_value(8, digits))
    } else if *b == b'x' {
        let digits = hexadecimal_digits(rest);
        (digits.len() + 1, byte_value(16, digits))
    } else {
        (1, simple_escape(*b))
    }
}

/// The character at the front: a byte or an escape sequence, how many bytes it has, and its value.
pub fn character(bytes: &[u8]) -> (usize, Option<u8>)
    requires { 0 < length bytes.now }
    ensures value { result ≡ first_character bytes.now }
    ensures within { (1 ≤ result.0) × (result.0 ≤ length bytes.now) }
{
    match bytes {
        [b'\\', rest @ ..] => {
            let (size, value) = escape(rest);
            (size + 1, value)
        }
        [b, ..] => (1, Some(*b)),
        [] => (0, None),
    }
}
