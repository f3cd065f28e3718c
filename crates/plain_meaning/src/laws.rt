//! Laws of the plain meaning: each is the clause of a function that does nothing.

ghost use Rattle.plain_meaning.specs.Laws.{BoundKeeps, EventsGrow, ShownGrows};

/// A bound at which a run is over is large enough: a larger one gives the same events and the same end.
pub fn bound_law()
    ensures { BoundKeeps }
{}

/// The events at a bound are the first of those at a larger one.
pub fn events_law()
    ensures { EventsGrow }
{}

/// What a source shows at a bound is the first of what it shows at a larger one, at each level and with or without size lines.
pub fn shown_law()
    ensures { ShownGrows }
{}
