//! Laws of the machine: each is the clause of a function that does nothing.

ghost use Rattle.mean_steps.specs.Laws.{EachMoveAdvances, EachRunSettles};

/// A move changes nothing of the answer that the machine is on its way to, and leaves less work before it.
pub fn move_law()
    ensures { EachMoveAdvances }
{}

/// So the machine comes to where it gives its last value, calls a function of the file or is over, with the same answer.
pub fn end_law()
    ensures { EachRunSettles }
{}
