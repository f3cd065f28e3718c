//! Rows of whole sources and of whole commands. There is nothing here but tests: they stand apart from the front and the
//! top call, so that neither is proved again for its rows.
#![tactic(auto)]

#[cfg(test)]
mod commands;
#[cfg(test)]
mod images;
#[cfg(test)]
mod outcomes;
#[cfg(test)]
mod sources;
#[cfg(test)]
mod values;
