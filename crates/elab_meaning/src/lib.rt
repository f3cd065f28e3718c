//! Types, rules and weights: from the tree of a source as it is written to its typed tree, or the first rule that it breaks.
#![tactic(auto)]

mod addresses;
mod names;
mod operations;

pub use addresses::{AddressConstant, Pointer, Spot};
pub use names::NameUse;
pub use operations::{Operation, Single};
