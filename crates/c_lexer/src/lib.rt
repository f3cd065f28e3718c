//! A source cut into its tokens (C11 6.4).
#![tactic(auto)]

mod bytes;
mod escapes;
mod joined;
mod laws;
mod literals;
mod numbers;
mod pieces;
mod puncts;
mod reader;

pub use laws::{cuts_of_sources, longest_fronts, readings_of_spellings};
pub use reader::tokens;
