//! Rows of the machine: short programs, and how each of them ends. There is nothing here but tests: they stand apart from
//! the machine, so that it isn't proved again for its rows.
#![tactic(auto)]

#[cfg(test)]
mod calls;
#[cfg(test)]
mod heap;
#[cfg(test)]
mod memory;
#[cfg(test)]
mod numbers;
#[cfg(test)]
mod openings;
#[cfg(test)]
mod operands;
#[cfg(test)]
mod prints;
#[cfg(test)]
mod programs;
#[cfg(test)]
mod stacks;
#[cfg(test)]
mod streams;
#[cfg(test)]
mod values;
