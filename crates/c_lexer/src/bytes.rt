//! Classes of bytes, and how far they go.

ghost use Rattle.std.specs.Prelude.{◌≡◌, ◌≤◌, length, drop, not, false, IsTrue};
ghost use Rattle.std.specs.List.{prefix_len};
ghost use Rattle.std.specs.Char.{digit_value};
ghost use Rattle.c_tokens.specs.Bytes.{is_space, begins_name, goes_on, is_quote, is_sign, is_exponent, is_newline};
ghost use Rattle.c_tokens.specs.Numbers.{in_number};
ghost use Rattle.c_lexer.specs.Runs.{is_in, number_len, literal_end, comment_end, shape_of};

use memchr::memchr;

/// Which bytes go on in a piece.
#[derive(Clone, Copy)]
pub enum Class {
    /// Letters, digits and the underscore.
    Word,
    /// The digits of a base of at most 36.
    Digit(u8),
}

/// White space that is no newline.
pub fn is_space(b: u8) -> bool
    ensures { result ≡ is_space b }
{
    b == b' ' || b == b'\t' || b == 11 || b == 12
}

pub fn begins_name(b: u8) -> bool
    ensures { result ≡ begins_name b }
{
    b.is_ascii_alphabetic() || b == b'_'
}

fn goes_on(b: u8) -> bool
    ensures { result ≡ goes_on b }
{
    b.is_ascii_alphanumeric() || b == b'_'
}

pub fn is_quote(b: u8) -> bool
    ensures { result ≡ is_quote b }
{
    b == b'"' || b == b'\''
}

fn is_sign(b: u8) -> bool
    ensures { result ≡ is_sign b }
{
    b == b'+' || b == b'-'
}

fn is_exponent(b: u8) -> bool
    ensures { result ≡ is_exponent b }
{
    b == b'e' || b == b'E' || b == b'p' || b == b'P'
}

/// The value of a digit or letter, from 0 to 35, and 36 for any other byte.
pub fn digit_value(b: u8) -> u8
    ensures value { result ≡ digit_value b }
    ensures bound { result ≤ 36 }
{
    match b {
        b'0'..=b'9' => b - b'0',
        b'A'..=b'Z' => b - b'A' + 10,
        b'a'..=b'z' => b - b'a' + 10,
        _ => 36,
    }
}

pub fn is_in(class: Class, b: u8) -> bool
    ensures { result ≡ is_in class b }
{
    match class {
        Class::Word => goes_on(b),
        Class::Digit(base) => digit_value(b) < base,
    }
}

fn in_number(before: u8, b: u8) -> bool
    ensures { result ≡ in_number before b }
{
    goes_on(b) || b == b'.' || (is_sign(b) && is_exponent(before))
}

/// How many bytes from the front on are in the class.
pub fn run_length(class: Class, bytes: &[u8]) -> usize
    ensures value { result ≡ prefix_len (is_in class) bytes.now }
    ensures within { result ≤ length bytes.now }
{
    let mut end = 0;
    while end < bytes.len() && is_in(class, bytes[end]) {
        end += 1;
    }
    end
}

/// How many bytes the line has from here on, without its newline.
pub fn line_length(bytes: &[u8]) -> usize
    ensures value { result ≡ prefix_len (λ b. not (is_newline b)) bytes.now }
    ensures within { result ≤ length bytes.now }
{
    memchr(b'\n', bytes).unwrap_or(bytes.len())
}

/// How many bytes from the front on go on in a preprocessing number behind this one.
#[tactic(auto, unfolding(crate::specs::Runs::number_len))]
pub fn number_length(mut before: u8, bytes: &[u8]) -> usize
    ensures value { result ≡ number_len before bytes.now }
    ensures within { result ≤ length bytes.now }
{
    let mut end = 0;
    while end < bytes.len() && in_number(before, bytes[end]) {
        before = bytes[end];
        end += 1;
    }
    end
}

/// How far a literal goes behind its opening byte, and whether it is closed there. Where it isn't, the line or the
/// text ends there.
#[tactic(auto, unfolding(crate::specs::Runs::literal_end))]
pub fn literal_length(close: u8, escapes: bool, bytes: &[u8]) -> (usize, bool)
    ensures value { (result.0, shape_of result.1) ≡ literal_end close escapes false bytes.now }
    ensures within { result.0 ≤ length bytes.now }
    ensures closed { IsTrue result.1 → 1 ≤ result.0 }
{
    let mut end = 0;
    let mut escaped = false;
    while end < bytes.len() && bytes[end] != b'\n' {
        let b = bytes[end];
        end += 1;
        if b == close && !escaped {
            return (end, true);
        }
        escaped = escapes && b == b'\\' && !escaped;
    }
    (end, false)
}

/// How far a comment goes behind `/*`, and whether it is closed there.
#[tactic(auto, unfolding(crate::specs::Runs::comment_end))]
pub fn comment_length(bytes: &[u8]) -> (usize, bool)
    ensures value { (result.0, shape_of result.1) ≡ comment_end false bytes.now }
    ensures within { result.0 ≤ length bytes.now }
{
    let mut star = false;
    let mut end = 0;
    while end < bytes.len() {
        let b = bytes[end];
        end += 1;
        if star && b == b'/' {
            return (end, true);
        }
        star = b == b'*';
    }
    (end, false)
}

/// The bytes from this one on.
pub fn rest_from(bytes: &[u8], at: usize) -> &[u8]
    requires { at ≤ length bytes.now }
    ensures { result.now ≡ drop at bytes.now }
{
    &bytes[at..]
}
