//! Parts that are made one after the other.

ghost use Rattle.std.specs.Prelude.{◌≡◌, IfOk, IfErr, Ok, Err};

/// Both parts, if the second was made. Else the first one is let go here, whatever its type is, so that the caller holds
/// none where it may fail.
pub fn both<A: Drop, B, E>(first: A, second: Result<B, E>) -> Result<(A, B), E>
    ensures ok { IfOk result (λ x. (x.0 ≡ first) × (second ≡ Ok x.1)) }
    ensures err { IfErr result (λ e. second ≡ Err e) }
{
    match second {
        Ok(second) => Ok((first, second)),
        Err(fault) => Err(fault),
    }
}
