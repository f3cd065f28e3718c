//! The prints of the library.
#![tactic(auto)]

mod formats;
mod memory;
mod pieces;
mod printing;
mod sizes;
mod storing;

pub use memory::print_mem;
pub use printing::print_out;
pub use sizes::print_size;
