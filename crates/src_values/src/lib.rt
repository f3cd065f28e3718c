//! The memory of the plain meaning: objects, the cells in them, and pointers with what is known of the bytes behind them.
#![tactic(auto)]

mod cells;
mod copies;
mod loads;
mod memory;
mod moves;
mod objects;
mod pages;
mod parts;
mod places;
mod rules;
mod sizes;
mod stores;
mod table;
mod validity;

pub use memory::Memory;
pub use object_meaning::{Cell, Ptr, PtrValue, Tag};
pub use objects::Object;
pub use rules::{forgot, fresh, null};
