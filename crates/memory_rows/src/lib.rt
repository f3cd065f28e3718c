//! Rows of calls on the store, the source and the sink in memory. There is nothing here but tests: they stand apart
//! from the crate that everything stands on, so that it isn't proved again for its rows.
#![tactic(auto)]

#[cfg(test)]
mod stores;
#[cfg(test)]
mod streams;
#[cfg(test)]
mod values;
