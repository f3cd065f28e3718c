//! Rows of pointers and of memory, worked by hand. There is nothing here but tests.
#![tactic(auto)]

#[cfg(test)]
mod accesses;
#[cfg(test)]
mod begun;
#[cfg(test)]
mod sizes;
#[cfg(test)]
mod steps;
