//! The headers that a source can include, one row each.
#![tactic(auto)]

mod headers;
mod laws;

pub use headers::{HeaderId, HeaderMacro, HeaderNumber, HeaderType, MacroValue, lib_by_name};
pub use laws::{declarations_law, headers_law};
