//! The plain meaning move by move: a machine with pending work that comes to what the definition says.
#![tactic(auto)]

mod laws;

pub use laws::{end_law, move_law};
