//! Rows for tokens and the phases before the parser. There is nothing here but tests: they stand apart from the phases, so that a
//! phase isn't proved again for its rows.
#![tactic(auto)]

#[cfg(test)]
mod conditions;
#[cfg(test)]
mod lexing;
#[cfg(test)]
mod macros;
#[cfg(test)]
mod spellings;
#[cfg(test)]
mod texts;
#[cfg(test)]
mod values;
