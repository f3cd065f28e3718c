//! A value with several owners that contracts see as the value, so that a tree which shares its parts is plain data.
#![tactic(auto)]

mod shared;

pub use shared::Shared;
