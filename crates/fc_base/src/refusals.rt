//! Where and why a source is refused.

ghost use Rattle.std.specs.Prelude.{◌≡◌};
ghost use Rattle.fc_base.specs.declared.refusals.Fault.TheVariants.{NoMemory as MemoryFault};

use crate::faults::NoMemory;
use crate::rules::Rule;
use std::alloc::{AllocError, AllocFailed};

/// A line and a column of a source, both from 1. Columns count bytes.
#[derive(Clone, Copy, Debug, PartialEq, Eq)]
pub struct Place {
    pub line: u32,
    pub col: u32,
}

/// The rule that a source breaks first, and where.
#[derive(Clone, Copy, Debug, PartialEq, Eq)]
pub struct Refusal {
    pub rule: Rule,
    pub place: Place,
}

/// Why a phase gave no result.
#[derive(Clone, Copy, Debug, PartialEq, Eq)]
pub enum Fault {
    Refused(Refusal),
    NoMemory,
}

impl Fault {
    /// The source breaks the rule at the place.
    pub fn refused(rule: Rule, place: Place) -> Fault
        ensures { result ≡ Fault.Refused (record { rule = rule; place = place }) }
    {
        Fault::Refused(Refusal { rule, place })
    }
}

impl From<AllocError> for Fault {
    ghost from_gives = { λ _ e. e ≡ MemoryFault };

    fn from(_: AllocError) -> Fault {
        Fault::NoMemory
    }
}

impl<T: Drop> From<AllocFailed<T>> for Fault {
    ghost from_gives = { λ _ e. e ≡ MemoryFault };

    fn from(_: AllocFailed<T>) -> Fault {
        Fault::NoMemory
    }
}

impl From<NoMemory> for Fault {
    ghost from_gives = { λ _ e. e ≡ MemoryFault };

    fn from(_: NoMemory) -> Fault {
        Fault::NoMemory
    }
}
