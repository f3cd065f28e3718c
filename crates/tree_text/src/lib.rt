//! Trees of sources as short texts, for the rows of tests.
#![tactic(auto)]

mod declarations;
mod expressions;
mod files;
mod labels;
mod output;
mod specifiers;
mod statements;

pub use expressions::push_expr;
pub use files::push_file;
pub use output::Output;
