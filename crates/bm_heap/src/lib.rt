//! The heap of a run: first fit over holes in the order of their addresses.
#![tactic(auto)]

mod heap;
mod holes;

pub use heap::{Heap, NotABlock};
pub use holes::Hole;
