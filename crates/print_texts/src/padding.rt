//! The field width of a conversion.

ghost use Rattle.std.specs.Prelude.{◌≡◌};
ghost use Rattle.print_texts.specs.Paddings.{padding_of};

use print_formats::Options;

/// How many spaces stand before a conversion's characters, zeros between its sign and its digits, and spaces behind.
#[derive(Clone, Copy)]
pub struct Padding {
    pub before: u64,
    pub zeros: u64,
    pub behind: u64,
}

/// The padding of so many characters.
pub fn padding_of(options: Options, count: u64) -> Padding
    ensures { result ≡ padding_of options count }
{
    let missing = u64::from(options.width).saturating_sub(count);
    if options.left {
        return Padding {
            before: 0,
            zeros: 0,
            behind: missing,
        };
    }
    if options.zero {
        return Padding {
            before: 0,
            zeros: missing,
            behind: 0,
        };
    }
    Padding {
        before: missing,
        zeros: 0,
        behind: 0,
    }
}
