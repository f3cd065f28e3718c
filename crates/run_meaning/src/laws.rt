//! The law of runs.

ghost use Rattle.run_meaning.specs.Runs.{FollowsComposes};

/// Following composes: a run that follows one that follows a third follows the third. Runs nothing.
pub fn follows_composes()
    ensures { FollowsComposes }
{}
