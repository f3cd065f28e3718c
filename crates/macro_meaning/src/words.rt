//! The types that the definitions and the code share.

use fc_base::Place;

/// The word that a directive begins with.
#[derive(Clone, Copy)]
pub enum Word {
    If,
    Ifdef,
    Ifndef,
    Elif,
    Else,
    Endif,
    Include,
    Define,
    Undef,
    Unknown,
}

/// How far the groups of a conditional are (C11 6.10.1p6): its group is taken; none was taken so far, so that a later one
/// may be; or the group is skipped, and so is each later one.
#[derive(Clone, Copy)]
pub enum GroupState {
    Taken,
    Waits,
    Over,
}

/// An open conditional, at its `if`: how far its groups are, and whether its `else` was there.
#[derive(Clone, Copy)]
pub struct Group {
    pub place: Place,
    pub state: GroupState,
    pub had_else: bool,
}
