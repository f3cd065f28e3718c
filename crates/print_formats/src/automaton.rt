//! A format, read byte by byte.

ghost use Rattle.std.specs.Prelude.{◌≡◌};
ghost use Rattle.print_formats.specs.Formats.{is_digit, numeral_of, modifier_of, doubled, modified_width, ended, ended_integer, ended_without_zero, behind_width, in_flags, in_width, in_precision, in_length, step};

use crate::conversions::{Conversion, Directive, LengthModifier, Numeral, Options, Specifier};
use fc_base::Width;

/// How far a directive was read.
#[derive(Clone, Copy)]
pub enum FormatState {
    /// No directive is open.
    Outside,
    /// Behind `%` and the flags so far.
    Flags(Options),
    /// Behind a digit of the field width.
    Width(Options),
    /// Behind `.` and the digits of the precision so far, which stand for this number.
    Precision {
        options: Options,
        precision: u32,
    },
    /// Behind a length modifier.
    Length {
        options: Options,
        modifier: LengthModifier,
    },
}

/// What one more byte does: no format goes on so, the directive goes on, or it ends.
#[derive(Clone, Copy)]
pub enum FormatStep {
    Malformed,
    Goes(FormatState),
    Ends(Directive),
}

/// The greatest field width and precision.
pub const GREATEST: u32 = 4095;

fn is_digit(byte: u8) -> bool
    ensures { result ≡ is_digit byte }
{
    byte >= b'0' && byte <= b'9'
}

fn numeral_of(byte: u8) -> Option<Numeral>
    ensures { result ≡ numeral_of byte }
{
    match byte {
        b'd' | b'i' => Some(Numeral::Signed),
        b'u' => Some(Numeral::Unsigned),
        b'o' => Some(Numeral::Octal),
        b'x' => Some(Numeral::Hexadecimal),
        b'X' => Some(Numeral::UpperHexadecimal),
        _ => None,
    }
}

fn modifier_of(byte: u8) -> Option<LengthModifier>
    ensures { result ≡ modifier_of byte }
{
    match byte {
        b'h' => Some(LengthModifier::H),
        b'l' => Some(LengthModifier::L),
        b'z' => Some(LengthModifier::Z),
        _ => None,
    }
}

fn doubled(modifier: LengthModifier, byte: u8) -> Option<LengthModifier>
    ensures { result ≡ doubled modifier byte }
{
    match modifier {
        LengthModifier::H => if byte == b'h' {
            Some(LengthModifier::Hh)
        } else {
            None
        },
        LengthModifier::L => if byte == b'l' {
            Some(LengthModifier::Ll)
        } else {
            None
        },
        LengthModifier::Hh | LengthModifier::Ll | LengthModifier::Z => None,
    }
}

fn modified_width(modifier: LengthModifier) -> Width
    ensures { result ≡ modified_width modifier }
{
    match modifier {
        LengthModifier::Hh => Width::W1,
        LengthModifier::H => Width::W2,
        LengthModifier::L | LengthModifier::Ll | LengthModifier::Z => Width::W8,
    }
}

fn ended(options: Options, specifier: Specifier) -> FormatStep
    ensures { result ≡ ended options specifier }
{
    FormatStep::Ends(Directive::Converted(Conversion { options, specifier }))
}

fn ended_integer(options: Options, of: Width, byte: u8) -> FormatStep
    ensures { result ≡ ended_integer options of byte }
{
    match numeral_of(byte) {
        Some(numeral) => ended(options, Specifier::Integer { numeral, of }),
        None => FormatStep::Malformed,
    }
}

fn ended_without_zero(options: Options, specifier: Specifier) -> FormatStep
    ensures { result ≡ ended_without_zero options specifier }
{
    if options.zero {
        FormatStep::Malformed
    } else {
        ended(options, specifier)
    }
}

#[inline(always)]
fn behind_width(options: Options, byte: u8) -> FormatStep
    ensures { result ≡ behind_width options byte }
{
    if byte == b'.' {
        return FormatStep::Goes(FormatState::Precision {
            options,
            precision: 0,
        });
    }
    if byte == b'c' {
        return ended_without_zero(options, Specifier::Character);
    }
    if byte == b's' {
        return ended_without_zero(options, Specifier::Text { precision: None });
    }
    match modifier_of(byte) {
        Some(modifier) => FormatStep::Goes(FormatState::Length { options, modifier }),
        None => ended_integer(options, Width::W4, byte),
    }
}

#[inline(always)]
fn in_flags(options: Options, byte: u8) -> FormatStep
    ensures { result ≡ in_flags options byte }
{
    if byte == b'-' {
        if options.left {
            return FormatStep::Malformed;
        }
        return FormatStep::Goes(FormatState::Flags(Options {
            left: true,
            zero: options.zero,
            width: options.width,
        }));
    }
    if byte == b'0' {
        if options.zero {
            return FormatStep::Malformed;
        }
        return FormatStep::Goes(FormatState::Flags(Options {
            left: options.left,
            zero: true,
            width: options.width,
        }));
    }
    if byte == b'%' {
        if options.left || options.zero {
            return FormatStep::Malformed;
        }
        return FormatStep::Ends(Directive::Ordinary(byte));
    }
    in_width(options, byte)
}

#[inline(always)]
fn in_width(options: Options, byte: u8) -> FormatStep
    ensures { result ≡ in_width options byte }
{
    if !is_digit(byte) {
        return behind_width(options, byte);
    }
    if options.width > GREATEST / 10 {
        return FormatStep::Malformed;
    }
    let width = options.width * 10 + u32::from(byte - b'0');
    if width > GREATEST {
        return FormatStep::Malformed;
    }
    FormatStep::Goes(FormatState::Width(Options {
        left: options.left,
        zero: options.zero,
        width,
    }))
}

fn in_precision(options: Options, precision: u32, byte: u8) -> FormatStep
    ensures { result ≡ in_precision options precision byte }
{
    if !is_digit(byte) {
        if byte == b's' {
            return ended_without_zero(
                options,
                Specifier::Text {
                    precision: Some(precision),
                },
            );
        }
        return FormatStep::Malformed;
    }
    if precision > GREATEST / 10 {
        return FormatStep::Malformed;
    }
    let precision = precision * 10 + u32::from(byte - b'0');
    if precision > GREATEST {
        return FormatStep::Malformed;
    }
    FormatStep::Goes(FormatState::Precision { options, precision })
}

fn in_length(options: Options, modifier: LengthModifier, byte: u8) -> FormatStep
    ensures { result ≡ in_length options modifier byte }
{
    match doubled(modifier, byte) {
        Some(modifier) => FormatStep::Goes(FormatState::Length { options, modifier }),
        None => ended_integer(options, modified_width(modifier), byte),
    }
}

/// What one more byte of a format does.
#[inline(always)]
pub fn advance(state: FormatState, byte: u8) -> FormatStep
    ensures { result ≡ step state byte }
{
    match state {
        FormatState::Outside => {
            if byte == b'%' {
                FormatStep::Goes(FormatState::Flags(Options {
                    left: false,
                    zero: false,
                    width: 0,
                }))
            } else {
                FormatStep::Ends(Directive::Ordinary(byte))
            }
        }
        FormatState::Flags(options) => in_flags(options, byte),
        FormatState::Width(options) => in_width(options, byte),
        FormatState::Precision { options, precision } => in_precision(options, precision, byte),
        FormatState::Length { options, modifier } => in_length(options, modifier, byte),
    }
}
