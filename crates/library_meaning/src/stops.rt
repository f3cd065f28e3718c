//! Why a library call ends a run.

/// Why a library call stops the machine: a checked call's request exceeds its size, a byte that must be touched has no
/// valid address, a format is outside the rule, or an object outside failed.
#[derive(Clone, Copy)]
pub enum HostStop {
    Overflow,
    BadAddress,
    BadFormat,
    InputFault,
    SinkFault,
}
