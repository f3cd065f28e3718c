//! The words of a command line, and what a command comes to.
#![tactic(auto)]

mod commands;
mod outcomes;
mod parts;

pub use commands::{
    Arguments, Command, ExecCommand, RunCommand, argument_list, command_is_its_words, read_command,
};
pub use outcomes::{Outcome, fault_line, status};
