//! What a run shows and how it stands: the words that the plain meaning, modules and the machine share.
#![tactic(auto)]

mod laws;
mod streams;

pub use laws::follows_composes;
pub use streams::Stream;
