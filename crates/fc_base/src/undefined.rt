//! The undefined operations that the plain meaning stops at.

ghost use Rattle.std.specs.Prelude.{◌≡◌};
ghost use Rattle.fc_base.specs.Names.{kind_name};

/// What is undefined about an operation (C11 6.5 and 7.1.4, and this project's provenance rules).
#[derive(Clone, Copy, Debug, PartialEq, Eq)]
pub enum UndefKind {
    /// An uninitialised value is used.
    Uninitialised,
    /// An access leaves its object.
    OutOfObject,
    /// A pointer to an object that has ended is used.
    DeadObject,
    /// A null pointer is used as a place.
    NullPointer,
    /// A store into a string literal.
    ReadOnly,
    /// A pointer leaves the range from its object's start to one past its end.
    BadArithmetic,
    /// Pointers to two objects, or a null pointer, are ordered or subtracted.
    BadCompare,
    /// Part of a pointer is used as a number, or bytes that are no pointer as a pointer.
    PointerBytes,
    /// A shift count outside the width of its operand.
    ShiftCount,
    /// `free` or `realloc` of what is no live heap block.
    BadFree,
    /// A copy between overlapping bytes.
    Overlap,
    /// A function breaks its `alloc_size` attribute.
    FalseAttribute,
    /// The argument of a size expression is itself undefined.
    SizeArgument,
}

impl UndefKind {
    /// The name that is printed where the plain meaning stops.
    pub fn name(self) -> &'static str
        ensures { result.now ≡ kind_name self }
    {
        match self {
            UndefKind::Uninitialised => "uninitialised",
            UndefKind::OutOfObject => "out-of-object",
            UndefKind::DeadObject => "dead-object",
            UndefKind::NullPointer => "null-pointer",
            UndefKind::ReadOnly => "read-only",
            UndefKind::BadArithmetic => "bad-arithmetic",
            UndefKind::BadCompare => "bad-compare",
            UndefKind::PointerBytes => "pointer-bytes",
            UndefKind::ShiftCount => "shift-count",
            UndefKind::BadFree => "bad-free",
            UndefKind::Overlap => "overlap",
            UndefKind::FalseAttribute => "false-attribute",
            UndefKind::SizeArgument => "size-argument",
        }
    }
}
