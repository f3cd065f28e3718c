//! The library's calls over objects.
#![tactic(auto)]

mod acts;
mod blocks;
mod copies;
mod ends;
mod owners;
mod pairs;
mod reaches;
mod requests;
mod state;
mod strings;
mod texts;

pub use acts::act;
pub use blocks::memcmp;
pub use copies::{bzero, memcpy, memmove, mempcpy, memset};
pub use ends::Stop;
pub use owners::Blocks;
pub use pairs::strcmp;
pub use requests::{SizeCheck, request};
pub use state::State;
pub use strings::{stpcpy, strcat, strchr, strcpy, strlen, strncat, strncpy};
