//! Pointer values, cells, and the values of a program.

/// What is known of the bytes that remain behind a pointer: all, at most so many as were declared, or nothing.
/// The number is signed, since a pointer may be moved past what was declared.
#[derive(Clone, Copy)]
pub enum Tag {
    Known,
    Bound(i64),
    Unknown,
}

/// A place in an object: bytes from its start, and where the subobject ends that the pointer is to, in bytes from the object's
/// start too.
#[derive(Clone, Copy)]
pub struct Ptr {
    pub object: u64,
    pub offset: i64,
    pub end: i64,
    pub tag: Tag,
}

/// A pointer: null, which may keep the size that an allocation was asked for, or a place.
#[derive(Clone, Copy)]
pub enum PtrValue {
    Null { claim: Option<u64> },
    At(Ptr),
}

/// One byte of an object: a number, nothing yet, or the k-th byte of a pointer, which has no number.
#[derive(Clone, Copy)]
pub enum Cell {
    Byte(u8),
    Uninit,
    Part { of: Ptr, k: u8 },
}

/// A value: the 64 bits of an integer, a pointer, one that was never given, or that of a call which gives none.
#[derive(Clone, Copy)]
pub enum Value {
    Int(u64),
    Pointer(PtrValue),
    Uninit,
    Nothing,
}
