//! Integer literals (C11 6.4.4.1).

ghost use Rattle.std.specs.Prelude.{◌≡◌, ◌+◌, ◌*◌, ◌<◌, [], ◌∷◌, if◌then◌else◌, Some, None, true, false};
ghost use Rattle.std.specs.Str.Parse.{digits_value};
ghost use Rattle.c_tokens.specs.Numbers.{is_u, is_l, is_ll, suffix_of, integer_in, number};
ghost use Rattle.c_lexer.specs.Runs.{fits_64};

use crate::bytes::{Class, digit_value, run_length};
use c_tokens::{NumberKind, Piece, TokenKind};
use fc_base::Rule;

fn is_u(b: u8) -> bool
    ensures { result ≡ is_u b }
{
    b == b'u' || b == b'U'
}

fn is_l(b: u8) -> bool
    ensures { result ≡ is_l b }
{
    b == b'l' || b == b'L'
}

fn is_ll(a: u8, b: u8) -> bool
    ensures { result ≡ is_ll a b }
{
    is_l(a) && a == b
}

/// What a suffix says: whether there is a u, and how many l.
#[tactic(auto, unfolding(c_tokens::specs::Numbers::suffix_of))]
fn suffix_of(text: &[u8]) -> Option<(bool, u8)>
    ensures { result ≡ suffix_of text.now }
{
    match text {
        [] => Some((false, 0)),
        [a] => one_letter(*a),
        [a, b] => two_letters(*a, *b),
        [a, b, c] => three_letters(*a, *b, *c),
        _ => None,
    }
}

fn one_letter(a: u8) -> Option<(bool, u8)>
    ensures { result ≡ (if is_u a then Some (true, 0) else (if is_l a then Some (false, 1) else None)) }
{
    if is_u(a) {
        Some((true, 0))
    } else if is_l(a) {
        Some((false, 1))
    } else {
        None
    }
}

#[tactic(auto, unfolding(c_tokens::specs::Numbers::suffix_of))]
fn two_letters(a: u8, b: u8) -> Option<(bool, u8)>
    ensures { result ≡ suffix_of (a ∷ b ∷ []) }
{
    if (is_u(a) && is_l(b)) || (is_l(a) && is_u(b)) {
        Some((true, 1))
    } else if is_ll(a, b) {
        Some((false, 2))
    } else {
        None
    }
}

#[tactic(auto, unfolding(c_tokens::specs::Numbers::suffix_of))]
fn three_letters(a: u8, b: u8, c: u8) -> Option<(bool, u8)>
    ensures { result ≡ suffix_of (a ∷ b ∷ c ∷ []) }
{
    if (is_u(a) && is_ll(b, c)) || (is_ll(a, b) && is_u(c)) {
        Some((true, 2))
    } else {
        None
    }
}

/// The number with one more digit behind it, where it fits.
fn with_digit(base: u8, number: u64, digit: u8) -> Option<u64>
    ensures { result ≡ fits_64 (number * base + digit) }
{
    number
        .checked_mul(u64::from(base))?
        .checked_add(u64::from(digit))
}

/// The number that the digits write, where it fits.
pub fn value_of(base: u8, digits: &[u8]) -> Option<u64>
    requires { 0 < base }
    ensures { result ≡ fits_64 (digits_value base digits.now) }
{
    let mut value = 0;
    for b in digits {
        value = with_digit(base, value, digit_value(*b))?;
    }
    Some(value)
}

/// The literal of digits in the base and a suffix.
fn integer_in(base: u8, body: &[u8]) -> Piece
    requires { 0 < base }
    ensures { result ≡ integer_in base body.now }
{
    let size = run_length(Class::Digit(base), body);
    let digits = &body[..size];
    let Some((unsigned, longs)) = suffix_of(&body[size..]) else {
        return Piece::Refused(Rule::LeftOutLiteral, 0);
    };
    if digits.is_empty() {
        return Piece::Refused(Rule::LeftOutLiteral, 0);
    }
    let kind = NumberKind {
        decimal: base == 10,
        unsigned,
        longs,
    };
    match value_of(base, digits) {
        Some(value) => Piece::Token(TokenKind::Number { value, kind }),
        None => Piece::Refused(Rule::BigNumber, 0),
    }
}

/// What a preprocessing number is, as a whole.
#[tactic(auto, unfolding(c_tokens::specs::Numbers::number))]
pub fn number(text: &[u8]) -> Piece
    ensures { result ≡ number text.now }
{
    match text {
        [b'0', b'x' | b'X', body @ ..] => integer_in(16, body),
        [b'0', ..] => integer_in(8, text),
        _ => integer_in(10, text),
    }
}
