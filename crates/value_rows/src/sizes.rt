//! Sizes in the four modes of pointers that each rule resolves, and of those that it doesn't.

use crate::steps::{ENDED, LITERAL, Step, VARIABLE, objects, walk};
use fc_base::{Mode, UndefKind};
use src_values::{Memory, PtrValue};
use std::process::Abort;
use std::test::Fail;

/// -1 as a size.
const NONE: u64 = u64::MAX;

/// Sizes in the modes 0 to 3.
type Sizes = (u64, u64, u64, u64);

/// The steps of a pointer, its computed sizes in the modes 0 to 3, and its true bytes in a mode of the whole object and in one of the
/// subobject.
type Row = (&'static [Step], Sizes, Option<(u64, u64)>);

const ROWS: &[Row] = &[
    // a variable and a literal
    (&[Step::Home(VARIABLE)], (16, 16, 16, 16), Some((16, 16))),
    (&[Step::Home(LITERAL)], (4, 4, 4, 4), Some((4, 4))),
    // a pointer that was loaded, or that a function got
    (
        &[Step::Home(VARIABLE), Step::Forgot],
        (NONE, NONE, 0, 0),
        Some((16, 16)),
    ),
    // the null constant
    (&[Step::Null], (NONE, NONE, 0, 0), None),
    // malloc, and null that keeps the size; a size that no object has
    (
        &[Step::Fresh(Some(VARIABLE), 16)],
        (16, 16, 16, 16),
        Some((16, 16)),
    ),
    (&[Step::Fresh(None, 100)], (100, 100, 100, 100), None),
    (&[Step::Fresh(None, 1 << 63)], (NONE, NONE, 0, 0), None),
    // a member on a path from a variable
    (
        &[Step::Home(VARIABLE), Step::Named(4, 8)],
        (12, 8, 12, 8),
        Some((12, 8)),
    ),
    // a member behind a pointer that is resolved, and behind one that isn't
    (
        &[Step::Home(VARIABLE), Step::Part(4, 8)],
        (12, 8, 12, 8),
        Some((12, 8)),
    ),
    (
        &[Step::Home(VARIABLE), Step::Forgot, Step::Part(4, 8)],
        (NONE, 8, 0, 0),
        Some((12, 8)),
    ),
    // a member that passes its object ends with it
    (
        &[Step::Home(VARIABLE), Step::Part(12, 8)],
        (4, 4, 4, 4),
        Some((4, 4)),
    ),
    (
        &[Step::Home(VARIABLE), Step::Forgot, Step::Part(12, 8)],
        (NONE, 8, 0, 0),
        Some((4, 4)),
    ),
    // a trailing array
    (
        &[Step::Home(VARIABLE), Step::Trail(12)],
        (4, 4, 4, 4),
        Some((4, 4)),
    ),
    (
        &[Step::Home(VARIABLE), Step::Forgot, Step::Trail(12)],
        (NONE, NONE, 0, 0),
        Some((4, 4)),
    ),
    (
        &[
            Step::Home(VARIABLE),
            Step::Forgot,
            Step::Part(4, 8),
            Step::Trail(8),
        ],
        (NONE, NONE, 0, 0),
        Some((4, 4)),
    ),
    // pointers that are moved: past the member the rest is 0
    (
        &[Step::Home(VARIABLE), Step::Named(4, 8), Step::Moved(3)],
        (9, 5, 9, 5),
        Some((9, 5)),
    ),
    (
        &[Step::Home(VARIABLE), Step::Named(4, 8), Step::Moved(9)],
        (3, 0, 3, 0),
        Some((3, 0)),
    ),
    (
        &[Step::Home(VARIABLE), Step::Named(4, 8), Step::Moved(-4)],
        (16, 12, 16, 12),
        Some((16, 12)),
    ),
    (
        &[
            Step::Home(VARIABLE),
            Step::Forgot,
            Step::Part(4, 8),
            Step::Moved(3),
        ],
        (NONE, 5, 0, 0),
        Some((9, 5)),
    ),
    (
        &[
            Step::Home(VARIABLE),
            Step::Forgot,
            Step::Part(4, 8),
            Step::Moved(9),
        ],
        (NONE, 0, 0, 0),
        Some((3, 0)),
    ),
    (
        &[Step::Fresh(None, 100), Step::Moved(0)],
        (100, 100, 100, 100),
        None,
    ),
    // what a call gives whose function has the attribute `alloc_size`
    (
        &[Step::Home(VARIABLE), Step::Forgot, Step::Attributed(16)],
        (16, 16, 16, 16),
        Some((16, 16)),
    ),
    (
        &[Step::Home(VARIABLE), Step::Attributed(1 << 63)],
        (NONE, NONE, 0, 0),
        Some((16, 16)),
    ),
    (&[Step::Null, Step::Attributed(7)], (7, 7, 7, 7), None),
];

/// The steps of a pointer that has none, and why.
type Stop = (&'static [Step], UndefKind);

const STOPS: &[Stop] = &[
    (
        &[Step::Home(VARIABLE), Step::Moved(17)],
        UndefKind::BadArithmetic,
    ),
    (
        &[Step::Home(VARIABLE), Step::Moved(-1)],
        UndefKind::BadArithmetic,
    ),
    (&[Step::Null, Step::Moved(1)], UndefKind::NullPointer),
    (&[Step::Home(ENDED), Step::Moved(0)], UndefKind::DeadObject),
    (
        &[Step::Home(VARIABLE), Step::Named(12, 5)],
        UndefKind::OutOfObject,
    ),
    (
        &[Step::Home(VARIABLE), Step::Part(17, 1)],
        UndefKind::OutOfObject,
    ),
    (
        &[Step::Home(VARIABLE), Step::Trail(17)],
        UndefKind::OutOfObject,
    ),
    (&[Step::Null, Step::Part(0, 4)], UndefKind::NullPointer),
    (
        &[Step::Home(ENDED), Step::Part(0, 4)],
        UndefKind::DeadObject,
    ),
    (
        &[Step::Home(VARIABLE), Step::Attributed(15)],
        UndefKind::FalseAttribute,
    ),
    (
        &[Step::Home(ENDED), Step::Attributed(8)],
        UndefKind::FalseAttribute,
    ),
];

/// The computed sizes, where the pointer is one that a size may be asked of.
fn sizes(memory: &Memory, at: PtrValue) -> Option<Sizes> {
    if !memory.is_pointer(at) || memory.is_dead(at) {
        return None;
    }
    let whole = memory.size_of(Mode::M0, at);
    let part = memory.size_of(Mode::M1, at);
    let whole_least = memory.size_of(Mode::M2, at);
    let part_least = memory.size_of(Mode::M3, at);
    Some((whole, part, whole_least, part_least))
}

/// The true bytes of the whole object and of the subobject, the same for maximum and minimum.
fn true_sizes(memory: &Memory, at: PtrValue) -> Option<(u64, u64)> {
    if !memory.is_pointer(at) {
        return None;
    }
    let whole = memory.true_size(Mode::M0, at)?;
    let part = memory.true_size(Mode::M1, at)?;
    let same = memory.true_size(Mode::M2, at) == Some(whole)
        && memory.true_size(Mode::M3, at) == Some(part);
    if same { Some((whole, part)) } else { None }
}

fn assert_row(rt: &impl Abort, memory: &Memory, row: &Row) {
    let (steps, wanted, truth) = *row;
    match walk(memory, steps) {
        Ok(at) => {
            assert!(rt; sizes(memory, at) == Some(wanted), "sizes {wanted:?}");
            assert!(rt; true_sizes(memory, at) == truth, "true bytes {truth:?}");
        }
        Err(kind) => {
            assert!(rt; false, "{kind:?}");
        }
    }
}

#[test]
fn sizes_in_four_modes(rt: HostRuntime) -> Result<(), Fail> {
    let memory = objects(rt.alloc())?;
    for row in ROWS {
        assert_row(&rt, &memory, row);
    }
    Ok(())
}

fn assert_stop(rt: &impl Abort, memory: &Memory, stop: &Stop) {
    let (steps, wanted) = *stop;
    assert!(rt; walk(memory, steps).err() == Some(wanted), "{wanted:?}");
}

#[test]
fn rules_that_are_undefined(rt: HostRuntime) -> Result<(), Fail> {
    let memory = objects(rt.alloc())?;
    for stop in STOPS {
        assert_stop(&rt, &memory, stop);
    }
    Ok(())
}
