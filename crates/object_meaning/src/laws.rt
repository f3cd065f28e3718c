//! Laws of pointers: each is the clause of a function that does nothing.

ghost use Rattle.object_meaning.specs.Laws.{MemoryIsKept, RulesKeepPointers, SizesBracket};

/// Each rule gives a valid pointer from a valid one wherever it is defined.
pub fn rules_law()
    ensures { RulesKeepPointers }
{}

/// A computed size is at least the true bytes in the maximum modes and at most those in the minimum modes, and the same where the
/// rules resolve the pointer.
pub fn sizes_law()
    ensures { SizesBracket }
{}

/// Each operation on memory keeps it: each live object has its cells, and the pointers in them are valid.
pub fn memory_law()
    ensures { MemoryIsKept }
{}
