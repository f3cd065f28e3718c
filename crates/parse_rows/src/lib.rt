//! Rows of sources with their trees and refusals, worked out by hand from C11. There is nothing here but tests: they
//! stand apart from the parsers, so that no proof is repeated for them.
#![tactic(auto)]

#[cfg(test)]
mod declarations;
#[cfg(test)]
mod expressions;
#[cfg(test)]
mod files;
#[cfg(test)]
mod sources;
#[cfg(test)]
mod statements;
