//! What becomes of a part that has been read where a test fails behind it. It is let go here, so that the functions that
//! read on hold none where they may fail.

ghost use Rattle.std.specs.Prelude.{◌≡◌, IfOk, IfErr, true, false};
ghost use Rattle.parse_tokens.specs.declared.faults.ParseFault.TheVariants as fault;

use crate::faults::ParseFault;
use tree_drops::LetGo;

/// The part, if the test holds.
pub fn kept<T: LetGo>(part: T, holds: bool) -> Result<T, ParseFault>
    ensures ok { IfOk result (λ x. (x ≡ part) × (holds ≡ true)) }
    ensures err { IfErr result (λ e. (e ≡ fault.NoDerivation) × (holds ≡ false)) }
{
    if holds {
        Ok(part)
    } else {
        part.let_go();
        Err(ParseFault::NoDerivation)
    }
}
