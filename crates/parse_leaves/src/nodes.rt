//! Parts of a node put together. They are let go where memory is wanting, so that what builds a node holds none
//! where it may fail.

ghost use Rattle.std.specs.Prelude.{◌≡◌, IfOk};

use sqlite_items::Boxed;
use std::alloc::{AllocError, Global};
use tree_drops::{IntoBox, LetGo};

/// A part as it is, and another one boxed.
pub fn boxed_behind<A: LetGo, B: IntoBox>(
    alloc: Global,
    a: A,
    b: B,
) -> Result<(A, Boxed<B>), AllocError>
    ensures { IfOk result (λ pair. pair ≡ (a, b)) }
{
    match B::boxed(alloc, b) {
        Ok(b) => Ok((a, b)),
        Err(fault) => {
            a.let_go();
            Err(fault)
        }
    }
}
