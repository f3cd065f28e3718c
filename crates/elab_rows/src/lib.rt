//! Rows of typing, worked by hand from C11. There is nothing here but tests: they stand apart from what they try, so that
//! no proof is repeated for them.
#![tactic(auto)]

#[cfg(test)]
mod scopes;
