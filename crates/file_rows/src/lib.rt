//! Rows of calls on real files, and on a reader and a writer that fail in mid-stream. There is nothing here but tests:
//! they stand apart from `fort_files`, so that it isn't proved again for its rows.
#![tactic(auto)]

#[cfg(test)]
mod stores;
#[cfg(test)]
mod streams;
#[cfg(test)]
mod values;
