//! Rows of the library's calls on bytes. There is nothing here but tests: they stand apart from the crates that have the calls,
//! so that these aren't proved again for their rows.
#![tactic(auto)]

#[cfg(test)]
mod blocks;
#[cfg(test)]
mod calls;
#[cfg(test)]
mod conversions;
#[cfg(test)]
mod memory;
#[cfg(test)]
mod moving;
#[cfg(test)]
mod prints;
#[cfg(test)]
mod prints_apart;
#[cfg(test)]
mod streams;
#[cfg(test)]
mod texts;
