//! The plain meaning: what a typed source does on arguments and input, step by step, with its events and its first undefined operation.
#![tactic(auto)]

mod laws;

pub use laws::{bound_law, events_law, shown_law};
