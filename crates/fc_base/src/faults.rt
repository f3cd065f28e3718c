//! Why a call gave no answer: want of memory, and the faults of the outside.

ghost use Rattle.fc_base.specs.declared.faults.FetchFault.TheVariants.{NoMemory as FetchNoMemory};
ghost use Rattle.std.specs.Prelude.{◌≡◌};

use std::alloc::{AllocError, AllocFailed};
use thiserror::Error;

/// No memory was left. The one answer that no clause ties to its cause.
#[derive(Clone, Copy, Debug, PartialEq, Eq, Error)]
#[error("no memory")]
pub struct NoMemory;

/// An outside object failed, and counted it.
#[derive(Clone, Copy, Debug, PartialEq, Eq, Error)]
#[error("an outside object failed")]
pub struct Failed;

/// Why a store gave no bytes.
#[derive(Clone, Copy, Debug, PartialEq, Eq, Error)]
pub enum FetchFault {
    #[error("the store failed")]
    Failed,
    #[error("more bytes than were asked for")]
    TooLong,
    #[error("no memory")]
    NoMemory,
}

/// Why a store kept no bytes.
#[derive(Clone, Copy, Debug, PartialEq, Eq, Error)]
pub enum KeepFault {
    #[error("the store failed")]
    Failed,
    #[error("no memory")]
    NoMemory,
}

impl From<AllocError> for NoMemory {
    fn from(_: AllocError) -> NoMemory {
        NoMemory
    }
}

impl<T: Drop> From<AllocFailed<T>> for NoMemory {
    fn from(_: AllocFailed<T>) -> NoMemory {
        NoMemory
    }
}
