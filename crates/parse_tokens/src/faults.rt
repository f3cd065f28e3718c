//! What the parsers give: a tree with its height, or why there is none.

use fc_base::NoMemory;
use std::alloc::{AllocError, AllocFailed};
use thiserror::Error;
use tree_drops::LetGo;

/// Why tokens gave no tree. No clause ties want of memory to its cause.
#[derive(Clone, Copy, Debug, PartialEq, Eq, Error)]
pub enum ParseFault {
    #[error("the grammar derives no tree")]
    NoDerivation,
    #[error("no memory")]
    NoMemory,
}

impl From<NoMemory> for ParseFault {
    ghost use Rattle.std.specs.Prelude.{◌≡◌};
    ghost use Rattle.parse_tokens.specs.declared.faults.ParseFault.TheVariants as fault;

    ghost from_gives = { λ _ e. e ≡ fault.NoMemory };

    fn from(_: NoMemory) -> ParseFault {
        ParseFault::NoMemory
    }
}

impl From<AllocError> for ParseFault {
    ghost use Rattle.std.specs.Prelude.{◌≡◌};
    ghost use Rattle.parse_tokens.specs.declared.faults.ParseFault.TheVariants as fault;

    ghost from_gives = { λ _ e. e ≡ fault.NoMemory };

    fn from(_: AllocError) -> ParseFault {
        ParseFault::NoMemory
    }
}

impl<T: Drop> From<AllocFailed<T>> for ParseFault {
    ghost use Rattle.std.specs.Prelude.{◌≡◌};
    ghost use Rattle.parse_tokens.specs.declared.faults.ParseFault.TheVariants as fault;

    ghost from_gives = { λ _ e. e ≡ fault.NoMemory };

    fn from(_: AllocFailed<T>) -> ParseFault {
        ParseFault::NoMemory
    }
}

/// A tree, and how many nodes stand on the longest way from its root to a leaf.
#[derive(Drop)]
pub struct WithHeight<T> {
    pub tree: T,
    pub height: usize,
}

impl<T: LetGo> LetGo for WithHeight<T> {
    fn let_go(self) {
        self.tree.let_go();
    }
}
