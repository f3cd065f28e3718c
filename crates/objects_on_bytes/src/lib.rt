//! That the machine's bytes follow objects: the relation of the two memories, and the law of the library's rows.
#![tactic(auto)]

mod laws;

pub use laws::{calls_follow, rows_law, table_is_bytewise};
