//! Laws of the definitions of layouts: each is the clause of a function that does nothing.

ghost use Rattle.c_layout.specs.Laws.{GivesNextMultiple, HasSmallAlignments, PlacesMembers, PlacesOffsets};

/// What rounding up gives is the first multiple.
pub fn next_multiple_law()
    ensures { GivesNextMultiple }
{}

/// The members of a structure stand one behind another, each at a multiple of its alignment and within the structure.
pub fn placement_law()
    ensures { PlacesMembers }
{}

/// In a structure or union within the limit each member has its offset: a multiple of its alignment, within the whole,
/// behind the members before it in a structure, and 0 in a union.
pub fn offset_law()
    ensures { PlacesOffsets }
{}

/// Each alignment is from 1 to 8.
pub fn alignment_law()
    ensures { HasSmallAlignments }
{}
