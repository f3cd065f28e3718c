//! The top call: the words of a command line over a store, a source and two sinks.
#![tactic(auto)]

mod compiled;
mod top;

pub use fort_words::{Outcome, fault_line, status};
pub use top::fort;
