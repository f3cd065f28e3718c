//! Why a call does not go on.

ghost use Rattle.std.specs.Prelude.{◌≡◌};
ghost use Rattle.src_lib.specs.Does.{gives};

use fc_base::UndefKind;
use object_meaning::Value;

/// Why a call does not go on: its request exceeds the size of its destination, its format is none, or it is undefined.
#[derive(Clone, Copy)]
pub enum Stop {
    Overflow,
    BadFormat,
    Undefined(UndefKind),
}

/// What a call gives whose last act is told: this value, where it was done.
pub fn gives(done: Result<(), UndefKind>, value: Value) -> Result<Value, Stop>
    ensures { result ≡ gives done value }
{
    match done {
        Ok(()) => Ok(value),
        Err(kind) => Err(Stop::Undefined(kind)),
    }
}
