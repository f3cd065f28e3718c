//! The rules of a node in their order.

ghost use Rattle.elab_meaning.specs.Typing.{judged};
ghost use Rattle.elab_conversions.specs.Answers.{Gives};

use fc_base::{Fault, Place, Rule};

/// A refusal at the place by the first of these rules that is broken.
pub fn judge(at: Place, checks: &[(Rule, bool)]) -> Result<(), Fault>
    ensures { Gives result (judged at checks.now tt) }
{
    for &(rule, broken) in checks {
        if broken {
            return Err(Fault::refused(rule, at));
        }
    }
    Ok(())
}
