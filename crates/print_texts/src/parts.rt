//! A format, part by part.

ghost use Rattle.std.specs.Prelude.{◌≡◌, ◌≤◌, ◌<◌, ◌-◌, drop, take, length};
ghost use Rattle.print_formats.specs.Formats.{directives_of};
ghost use Rattle.print_texts.specs.Parts.{PartAt};
ghost use Rattle.print_texts.specs.Printing.{ordinary};

use print_formats::{Conversion, Directive, Next, next_directive};

/// What stands at a place of a format: its end, no directive, bytes from a place on that are printed as they are, or a conversion;
/// and the place behind it.
#[derive(Clone, Copy)]
pub enum Part {
    End,
    Malformed,
    Run {
        from: usize,
        behind: usize,
    },
    Converted {
        conversion: Conversion,
        behind: usize,
    },
}

/// Where the bytes end that are printed as they are.
fn run_end(format: &[u8], at: usize) -> usize
    requires { at ≤ length format.now }
    ensures is { directives_of (drop at format.now)
        ≡ ordinary (take (result - at) (drop at format.now)) (directives_of (drop result format.now)) }
    ensures up { at ≤ result }
    ensures inside { result ≤ length format.now }
{
    let mut end = at;
    while end < format.len() && format[end] != b'%' {
        end += 1;
    }
    end
}

/// What stands at a place of a format.
#[inline(always)]
pub fn next_part(format: &[u8], at: usize) -> Part
    requires { at ≤ length format.now }
    ensures { PartAt format.now at result }
{
    let end = run_end(format, at);
    if at < end {
        return Part::Run {
            from: at,
            behind: end,
        };
    }
    match next_directive(format, at) {
        Next::End => Part::End,
        Next::Malformed => Part::Malformed,
        Next::Directive { directive, behind } => match directive {
            Directive::Ordinary(_) => Part::Run {
                from: behind - 1,
                behind,
            },
            Directive::Converted(conversion) => Part::Converted { conversion, behind },
        },
    }
}
