//! Initialisers, declarators with initialisers, and the declarations of blocks, read from tokens (C11 6.7 and 6.7.9).
#![tactic(auto)]

mod declarations;
mod initialisers;

pub use declarations::{Declared, Local, NamedInits, init_declarators, local_declaration};
