//! What typing keeps of a file while it reads it: the scope, and what stands beside it.
#![tactic(auto)]

mod beside;
mod bodies;
mod initialised;
mod names;
mod numbered;
mod numbers;
mod scope;
mod state;
mod tags;

pub use beside::{Beside, Facts};
pub use scope::Scope;
pub use state::State;
