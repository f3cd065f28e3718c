//! The directives of a format, one after the other.

ghost use Rattle.std.specs.Prelude.{◌≡◌, ◌≤◌, ◌<◌, drop, length};
ghost use Rattle.print_formats.specs.Reading.{FoundAt};

use crate::automaton::{FormatState, FormatStep, advance};
use crate::conversions::Directive;

/// What stands at a place of a format: its end, no directive, or one and the place behind it.
#[derive(Clone, Copy)]
pub enum Next {
    End,
    Malformed,
    Directive { directive: Directive, behind: usize },
}

/// The directive at a place of a format.
#[inline(always)]
pub fn next_directive(format: &[u8], at: usize) -> Next
    requires { at ≤ length format.now }
    ensures { FoundAt format.now at result }
{
    let mut state = FormatState::Outside;
    for i in at..format.len() {
        match advance(state, format[i]) {
            FormatStep::Malformed => return Next::Malformed,
            FormatStep::Goes(next) => state = next,
            FormatStep::Ends(directive) => {
                return Next::Directive {
                    directive,
                    behind: i + 1,
                };
            }
        }
    }
    match state {
        FormatState::Outside => Next::End,
        _ => Next::Malformed,
    }
}
