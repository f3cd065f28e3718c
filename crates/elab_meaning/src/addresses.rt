//! Address constants (C11 6.6p9).

/// A pointer into an object with static storage, by number: at an offset, and with the end of its subobject.
#[derive(Clone, Copy)]
pub struct Spot {
    pub object: u32,
    pub offset: u32,
    pub end: u32,
}

/// A pointer that is known before the program runs.
#[derive(Clone, Copy)]
pub enum Pointer {
    Null,
    At(Spot),
}

/// What an expression, or the place that one designates, is as an address constant: none; one that would be undefined if it were
/// evaluated; or a pointer. `is_named`: the path to it begins at a variable or literal and takes members and array elements alone.
#[derive(Clone, Copy)]
pub enum AddressConstant {
    NotConstant,
    Undefined,
    Value { is_named: bool, pointer: Pointer },
}
