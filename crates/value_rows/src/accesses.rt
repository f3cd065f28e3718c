//! Loads, stores and copies, and each kind that is undefined about them.

use crate::steps::{ENDED, LITERAL, Step, VARIABLE, ZEROED, objects, walk};
use fc_base::{UndefKind, Width};
use src_values::{Memory, PtrValue};
use std::process::Abort;
use std::test::Fail;

/// What is done through a pointer.
#[derive(Clone, Copy)]
enum Access {
    Load(Width),
    Store(Width, u64),
    LoadPtr,
    /// The pointer at the end of these steps is stored.
    StorePtr(&'static [Step]),
    /// So many cells are copied from the pointer at the end of these steps.
    Copy(&'static [Step], u64),
}

/// Accesses one after another to the same objects: the steps of a pointer, what is done, and the number that comes of it (0 where none
/// does) or the kind.
type Row = (&'static [Step], Access, Result<u64, UndefKind>);

const ROWS: &[Row] = &[
    // uninitialised cells are no numbers and no pointers, and copied as they are
    (
        &[Step::Home(VARIABLE)],
        Access::Load(Width::W1),
        Err(UndefKind::Uninitialised),
    ),
    (
        &[Step::Home(VARIABLE)],
        Access::LoadPtr,
        Err(UndefKind::Uninitialised),
    ),
    (
        &[Step::Home(ZEROED)],
        Access::Copy(&[Step::Home(VARIABLE)], 1),
        Ok(0),
    ),
    (
        &[Step::Home(ZEROED)],
        Access::Load(Width::W2),
        Err(UndefKind::Uninitialised),
    ),
    (
        &[Step::Home(ZEROED), Step::Moved(1)],
        Access::Load(Width::W8),
        Ok(0),
    ),
    // the lowest byte first, and no more than the width
    (
        &[Step::Home(ZEROED)],
        Access::Store(Width::W4, 0x1_0403_0201),
        Ok(0),
    ),
    (
        &[Step::Home(ZEROED), Step::Moved(1)],
        Access::Load(Width::W2),
        Ok(0x0302),
    ),
    (
        &[Step::Home(ZEROED)],
        Access::Load(Width::W8),
        Ok(0x0403_0201),
    ),
    // a literal is read and not written, past its end neither
    (
        &[Step::Home(LITERAL)],
        Access::Load(Width::W4),
        Ok(0x0063_6261),
    ),
    (
        &[Step::Home(LITERAL)],
        Access::Store(Width::W1, 0),
        Err(UndefKind::ReadOnly),
    ),
    (
        &[Step::Home(LITERAL), Step::Moved(1)],
        Access::Store(Width::W4, 0),
        Err(UndefKind::OutOfObject),
    ),
    (
        &[Step::Home(LITERAL)],
        Access::Copy(&[Step::Home(ZEROED)], 1),
        Err(UndefKind::ReadOnly),
    ),
    // one past the end nothing is accessed; past a member the object goes on
    (
        &[Step::Home(ZEROED), Step::Moved(24)],
        Access::Load(Width::W1),
        Err(UndefKind::OutOfObject),
    ),
    (
        &[Step::Home(ZEROED), Step::Named(0, 2), Step::Moved(2)],
        Access::Load(Width::W1),
        Ok(3),
    ),
    // null, and an object that has ended, which comes first of two
    (
        &[Step::Null],
        Access::Load(Width::W1),
        Err(UndefKind::NullPointer),
    ),
    (
        &[Step::Home(ENDED)],
        Access::Load(Width::W1),
        Err(UndefKind::DeadObject),
    ),
    (
        &[Step::Home(ENDED)],
        Access::Store(Width::W1, 0),
        Err(UndefKind::DeadObject),
    ),
    (
        &[Step::Null],
        Access::Copy(&[Step::Home(ENDED)], 1),
        Err(UndefKind::DeadObject),
    ),
    (
        &[Step::Null],
        Access::Copy(&[Step::Home(ENDED)], 0),
        Err(UndefKind::DeadObject),
    ),
    (
        &[Step::Null],
        Access::Copy(&[Step::Home(LITERAL), Step::Moved(4)], 1),
        Err(UndefKind::NullPointer),
    ),
    (&[Step::Null], Access::Copy(&[Step::Null], 0), Ok(0)),
    (
        &[Step::Home(LITERAL)],
        Access::Copy(&[Step::Home(LITERAL), Step::Moved(4)], 0),
        Ok(0),
    ),
    // eight zero bytes are null; a pointer is whole, and no number
    (
        &[Step::Home(ZEROED), Step::Moved(16)],
        Access::LoadPtr,
        Ok(0),
    ),
    (
        &[Step::Home(ZEROED)],
        Access::LoadPtr,
        Err(UndefKind::PointerBytes),
    ),
    (
        &[Step::Home(ZEROED)],
        Access::StorePtr(&[Step::Home(VARIABLE), Step::Named(4, 8)]),
        Ok(0),
    ),
    (&[Step::Home(ZEROED)], Access::LoadPtr, Ok(4)),
    (
        &[Step::Home(ZEROED)],
        Access::Load(Width::W4),
        Err(UndefKind::PointerBytes),
    ),
    (
        &[Step::Home(ZEROED), Step::Moved(4)],
        Access::LoadPtr,
        Err(UndefKind::PointerBytes),
    ),
    (
        &[Step::Home(ZEROED), Step::Moved(8)],
        Access::Copy(&[Step::Home(ZEROED)], 8),
        Ok(0),
    ),
    (
        &[Step::Home(ZEROED), Step::Moved(8)],
        Access::LoadPtr,
        Ok(4),
    ),
    (
        &[Step::Home(ZEROED), Step::Moved(7)],
        Access::Store(Width::W1, 0),
        Ok(0),
    ),
    (
        &[Step::Home(ZEROED)],
        Access::LoadPtr,
        Err(UndefKind::PointerBytes),
    ),
    (
        &[Step::Home(ZEROED)],
        Access::StorePtr(&[Step::Null]),
        Ok(0),
    ),
    (&[Step::Home(ZEROED)], Access::LoadPtr, Ok(0)),
    // an overlap is copied as if all were read before, up and down
    (
        &[Step::Home(ZEROED)],
        Access::Store(Width::W4, 0x0403_0201),
        Ok(0),
    ),
    (
        &[Step::Home(ZEROED), Step::Moved(1)],
        Access::Copy(&[Step::Home(ZEROED)], 4),
        Ok(0),
    ),
    (
        &[Step::Home(ZEROED)],
        Access::Load(Width::W4),
        Ok(0x0302_0101),
    ),
    (
        &[Step::Home(ZEROED)],
        Access::Copy(&[Step::Home(ZEROED), Step::Moved(1)], 4),
        Ok(0),
    ),
    (
        &[Step::Home(ZEROED)],
        Access::Load(Width::W4),
        Ok(0x0403_0201),
    ),
];

/// The offset of a pointer that was loaded, 0 for null. It is one that nothing is known of.
fn offset(loaded: PtrValue) -> u64 {
    match loaded {
        PtrValue::Null { claim: _ } => 0,
        PtrValue::At(place) => place.offset.unsigned_abs(),
    }
}

fn done(answer: Result<(), UndefKind>) -> Result<u64, UndefKind> {
    match answer {
        Ok(()) => Ok(0),
        Err(kind) => Err(kind),
    }
}

fn apply(memory: &mut Memory, at: PtrValue, what: Access) -> Result<u64, UndefKind> {
    if !memory.is_pointer(at) {
        return Err(UndefKind::BadFree);
    }
    match what {
        Access::Load(width) => memory.load(at, width),
        Access::Store(width, number) => done(memory.store(at, width, number)),
        Access::LoadPtr => match memory.load_ptr(at) {
            Ok(loaded) => Ok(offset(loaded)),
            Err(kind) => Err(kind),
        },
        Access::StorePtr(steps) => store_ptr(memory, at, steps),
        Access::Copy(steps, count) => copy(memory, at, steps, count),
    }
}

fn store_ptr(memory: &mut Memory, at: PtrValue, steps: &[Step]) -> Result<u64, UndefKind> {
    let value = walk(memory, steps)?;
    if !memory.is_pointer(at) || !memory.is_pointer(value) {
        return Err(UndefKind::BadFree);
    }
    done(memory.store_ptr(at, value))
}

fn copy(memory: &mut Memory, at: PtrValue, steps: &[Step], count: u64) -> Result<u64, UndefKind> {
    let from = walk(memory, steps)?;
    if !memory.is_pointer(at) || !memory.is_pointer(from) {
        return Err(UndefKind::BadFree);
    }
    done(memory.copy(at, from, count))
}

fn assert_row(rt: &impl Abort, memory: &mut Memory, number: u64, row: &Row) {
    let (steps, what, wanted) = *row;
    let found = match walk(memory, steps) {
        Ok(at) => apply(memory, at, what),
        Err(kind) => Err(kind),
    };
    assert!(rt; found == wanted, "row {number}");
}

#[test]
fn accesses_one_after_another(rt: HostRuntime) -> Result<(), Fail> {
    let mut memory = objects(rt.alloc())?;
    let mut number = 0u64;
    for row in ROWS {
        assert_row(&rt, &mut memory, number, row);
        number = number.saturating_add(1);
    }
    Ok(())
}
