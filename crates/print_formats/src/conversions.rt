//! What a format is made of (C11 7.21.6.1).

ghost use Rattle.std.specs.Prelude.{◌≡◌};
ghost use Rattle.print_formats.specs.Texts.{argument_of};

use fc_base::Width;

/// How an integer is written: `d` and `i`, `u`, `o`, `x`, `X`.
#[derive(Clone, Copy, PartialEq, Eq)]
pub enum Numeral {
    Signed,
    Unsigned,
    Octal,
    Hexadecimal,
    UpperHexadecimal,
}

/// A length modifier: `hh`, `h`, `l`, `ll`, `z`.
#[derive(Clone, Copy, PartialEq, Eq)]
pub enum LengthModifier {
    Hh,
    H,
    L,
    Ll,
    Z,
}

/// The flags `-` and `0`, and the field width, which is 0 where the format has none.
#[derive(Clone, Copy)]
pub struct Options {
    pub left: bool,
    pub zero: bool,
    pub width: u32,
}

/// What is converted: the low bytes of an integer argument, an unsigned character, or the characters up to a NUL, at most as
/// many as the precision.
#[derive(Clone, Copy)]
pub enum Specifier {
    Integer { numeral: Numeral, of: Width },
    Character,
    Text { precision: Option<u32> },
}

/// A conversion specification: it takes one argument.
#[derive(Clone, Copy)]
pub struct Conversion {
    pub options: Options,
    pub specifier: Specifier,
}

/// A directive of a format: a byte that is printed as it is, as `%` is for `%%`, or a conversion specification.
#[derive(Clone, Copy)]
pub enum Directive {
    Ordinary(u8),
    Converted(Conversion),
}

/// What a conversion's argument is after the default argument promotions (C11 6.5.2.2p7): an integer of 4 bytes, one of 8, or a
/// pointer to a character type.
#[derive(Clone, Copy, PartialEq, Eq)]
pub enum Argument {
    Int,
    Long,
    Text,
}

/// What the conversion's argument is.
pub fn argument_of(specifier: Specifier) -> Argument
    ensures { result ≡ argument_of specifier }
{
    match specifier {
        Specifier::Integer { numeral: _, of } => match of {
            Width::W8 => Argument::Long,
            _ => Argument::Int,
        },
        Specifier::Character => Argument::Int,
        Specifier::Text { precision: _ } => Argument::Text,
    }
}
