//! Values that a function here lets go.

ghost use Rattle.std.specs.Prelude.{◌≡◌, IfOk, IfErr, Ok, Err};

use sqlite_items::Boxed;
use std::alloc::AllocError;

/// A value that its own crate lets go. `Drop` alone would have each crate that holds one prove how each of its parts is freed.
pub trait LetGo {
    /// Lets the value go.
    fn let_go(self);
}

impl<T: LetGo> LetGo for Option<T> {
    fn let_go(self) {
        match self {
            Some(value) => value.let_go(),
            None => (),
        }
    }
}

impl<T: LetGo> LetGo for Boxed<T> {
    fn let_go(self) {
        self.into_inner().let_go();
    }
}

impl<A: LetGo, B: LetGo> LetGo for (A, B) {
    fn let_go(self) {
        let (a, b) = self;
        a.let_go();
        b.let_go();
    }
}

impl<A: LetGo, B: LetGo, C: LetGo> LetGo for (A, B, C) {
    fn let_go(self) {
        let (a, b, c) = self;
        a.let_go();
        b.let_go();
        c.let_go();
    }
}

/// Both parts, if both were made. Else the other one is let go.
pub fn pair<A: LetGo, B: LetGo>(
    first: Result<A, AllocError>,
    second: Result<B, AllocError>,
) -> Result<(A, B), AllocError>
    ensures { IfOk result (λ x. (first ≡ Ok x.0) × (second ≡ Ok x.1)) }
{
    match first {
        Ok(first) => both(first, second),
        Err(fault) => {
            second.ok().let_go();
            Err(fault)
        }
    }
}

/// Both parts, if the second was made. Else the first one is let go, so that the caller holds none where it may fail.
pub fn both<A: LetGo, B, E>(first: A, second: Result<B, E>) -> Result<(A, B), E>
    ensures ok { IfOk result (λ x. (x.0 ≡ first) × (second ≡ Ok x.1)) }
    ensures err { IfErr result (λ e. second ≡ Err e) }
{
    match second {
        Ok(second) => Ok((first, second)),
        Err(fault) => {
            first.let_go();
            Err(fault)
        }
    }
}
