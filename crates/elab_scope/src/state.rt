//! What typing reads and changes as it goes through a file.

use crate::beside::Beside;
use crate::scope::Scope;

/// A scope, and what a file has besides.
#[derive(Drop)]
pub struct State {
    pub scope: Scope,
    pub beside: Beside,
}
