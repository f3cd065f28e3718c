//! The formats of the prints: what a format is, which directives it has, and what each of them prints.
#![tactic(auto)]

mod automaton;
mod conversions;
mod directives;
mod laws;

pub use automaton::{FormatState, FormatStep, advance};
pub use conversions::{
    Argument, Conversion, Directive, LengthModifier, Numeral, Options, Specifier, argument_of,
};
pub use directives::{Next, next_directive};
pub use laws::{number_law, width_law};
