//! Memory as objects without addresses: cells, pointer values with what is known of them, and the library's rows over them.
#![tactic(auto)]

mod laws;
mod values;

pub use laws::{memory_law, rules_law, sizes_law};
pub use values::{Cell, Ptr, PtrValue, Tag, Value};
