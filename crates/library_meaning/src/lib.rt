//! The library's rows: what each call reads, tests, stores, gives, takes and shows, over bytes and over objects alike.
#![tactic(auto)]

mod laws;
mod stops;

pub use laws::{checks_law, order_law, results_law};
pub use stops::HostStop;
