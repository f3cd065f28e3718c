//! The words that every layer shares: faults, refusals, places, texts, and the outside world.
#![tactic(auto)]

mod faults;
mod levels;
mod memory_store;
mod memory_streams;
mod outside;
mod parts;
mod refusals;
mod rules;
mod texts;
mod undefined;

pub use faults::{Failed, FetchFault, KeepFault, NoMemory};
pub use levels::{End, Level, Mode, Width, extend};
pub use memory_store::MemStore;
pub use memory_streams::{MemSink, MemSource};
pub use outside::{Sink, Source, Store};
pub use parts::both;
pub use refusals::{Fault, Place, Refusal};
pub use rules::Rule;
pub use texts::{Text, Words};
pub use undefined::UndefKind;
