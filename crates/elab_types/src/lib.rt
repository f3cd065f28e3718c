//! Specifiers, declarators, parameters and type names (C11 6.7.2 to 6.7.7), over a function that types expressions.
#![tactic(auto)]

mod aggregates;
mod checks;
mod declarations;
mod declarators;
mod enumerations;
mod forming;
mod laws;
mod parameters;
mod shapes;
mod specifiers;
mod typer;
mod words;

pub use declarators::{is_function, name_of, place_of, stars};
pub use enumerations::enum_tag;
pub use forming::{Broken, Formed, MOST_PARAMETERS, Made};
pub use laws::keeping_law;
pub use shapes::{Bound, Parameter, Part, formed};
pub use specifiers::Specifiers;
pub use typer::Typer;
pub use words::{Words, words_law};
