//! Files as a store, and readers and writers of std, such as the standard streams, as sources and sinks.
#![tactic(auto)]

mod failures;
mod files;
mod streams;
mod transfer;

pub use files::FileStore;
pub use streams::{StdSink, StdSource};
