//! Rows of types with their layouts, of the library's functions and of weights, and large trees that are freed. There
//! is nothing here but tests: they stand apart from types and trees, so that neither is proved again for its rows.
#![tactic(auto)]

#[cfg(test)]
mod layouts;
#[cfg(test)]
mod library;
#[cfg(test)]
mod trees;
#[cfg(test)]
mod weights;
