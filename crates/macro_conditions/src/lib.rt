//! The conditions of `if` and `elif` directives (C11 6.10.1).
#![tactic(auto)]

mod laws;
mod machine;
mod precedence;
mod values;

pub use laws::one_decision;
pub use machine::condition;
pub use values::Value;
