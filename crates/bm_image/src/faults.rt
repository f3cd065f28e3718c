//! Why bytes are no image.

ghost use Rattle.std.specs.Prelude.{◌≡◌};
ghost use Rattle.bm_image.specs.declared.faults.ReadFault.TheVariants.{NoMemory as MemoryFault, Refused};

use fc_base::NoMemory;
use std::alloc::{AllocError, AllocFailed};

/// What is wrong with the first part of the bytes that is refused.
#[derive(Clone, Copy, Debug, PartialEq, Eq)]
pub enum ImageKind {
    /// The bytes end within the part.
    Short,
    /// They don't begin as an image does.
    Magic,
    Version,
    /// A word of the header isn't within its bounds.
    Count,
    /// A function's record.
    Function,
    Instruction,
    /// Bytes stand behind the data.
    Extra,
}

/// The first part that is refused: what is wrong, and the part's offset in bytes, or the number of all bytes where they end
/// within it.
#[derive(Clone, Copy, Debug, PartialEq, Eq)]
pub struct ImageFault {
    pub kind: ImageKind,
    pub offset: u64,
}

/// Why bytes gave no image.
#[derive(Clone, Copy)]
pub enum ReadFault {
    Refused(ImageFault),
    NoMemory,
}

impl From<ImageFault> for ReadFault {
    ghost from_gives = { λ fault e. e ≡ Refused fault };

    fn from(fault: ImageFault) -> ReadFault {
        ReadFault::Refused(fault)
    }
}

impl From<AllocError> for ReadFault {
    ghost from_gives = { λ _ e. e ≡ MemoryFault };

    fn from(_: AllocError) -> ReadFault {
        ReadFault::NoMemory
    }
}

impl<T: Drop> From<AllocFailed<T>> for ReadFault {
    ghost from_gives = { λ _ e. e ≡ MemoryFault };

    fn from(_: AllocFailed<T>) -> ReadFault {
        ReadFault::NoMemory
    }
}

impl From<NoMemory> for ReadFault {
    ghost from_gives = { λ _ e. e ≡ MemoryFault };

    fn from(_: NoMemory) -> ReadFault {
        ReadFault::NoMemory
    }
}
