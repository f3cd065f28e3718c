//! Rows of calls on instructions, images and the heap, worked out by hand. There is nothing here but tests: they stand apart from
//! the crates that the machine stands on, so that these aren't proved again for their rows.
#![tactic(auto)]

#[cfg(test)]
mod heaps;
#[cfg(test)]
mod images;
#[cfg(test)]
mod instructions;
