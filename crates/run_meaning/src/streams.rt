//! The streams of a run.

/// A stream that a run reads or writes, each by its descriptor: standard input, standard output and standard error.
#[derive(Clone, Copy, PartialEq, Eq)]
pub enum Stream {
    Input,
    Out,
    Err,
}
