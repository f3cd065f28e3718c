//! The preprocessor (C11 6.10): directives, inclusions and the texts between them.
#![tactic(auto)]

mod directives;
mod expansion;

pub use expansion::expand;
