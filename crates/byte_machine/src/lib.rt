//! The plain byte-addressed machine: it opens an image, and runs it instruction by instruction.
#![tactic(auto)]

mod laws;
mod machine;
mod memory;
mod opening;
mod rows;
mod stack;
mod straight;
mod windows;

pub use laws::stopped_stays;
pub use machine::{Machine, Step, Stop};
