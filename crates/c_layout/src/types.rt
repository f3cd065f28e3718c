//! The types of C, and what a layout says of one.

ghost use Rattle.std.specs.Prelude.{◌≡◌, ◌↔◌, if◌then◌else◌, IfOk, IsTrue, Some, None};
ghost use Rattle.std.specs.Option.{option_copied};
ghost use Rattle.c_layout.specs.Types.{element, is_array, is_pointer, pointed, same_type};

use fc_base::{NoMemory, Width};
use shared_values::Shared;

/// A type (C11 6.2.5). Qualifiers are gone, and an enumeration is an int. A structure or union is named by its
/// place in `Tags`. What a type is made from may have many owners, so that a copy takes no memory however deep it is.
#[derive(Drop)]
pub enum CType {
    Void,
    /// `plain_char` is char, which is signed and differs from signed char; `long_long` is long long or unsigned
    /// long long, which have the width of long.
    Int {
        width: Width,
        signed: bool,
        plain_char: bool,
        long_long: bool,
    },
    Ptr(Shared<CType>),
    /// An array with the number of its elements.
    Array(Shared<CType>, u32),
    /// An array written `[]`.
    OpenArray(Shared<CType>),
    Struct(u32),
    Union(u32),
}

impl CType {
    /// The type again, which takes no memory; there is none only where a part has more owners than can be counted.
    pub fn share(&self) -> Result<CType, NoMemory>
        ensures { IfOk result (λ copy. copy ≡ self.now) }
    {
        match self {
            CType::Void => Ok(CType::Void),
            CType::Int {
                width,
                signed,
                plain_char,
                long_long,
            } => Ok(CType::Int {
                width: *width,
                signed: *signed,
                plain_char: *plain_char,
                long_long: *long_long,
            }),
            CType::Ptr(of) => Ok(CType::Ptr(of.share()?)),
            CType::Array(of, count) => Ok(CType::Array(of.share()?, *count)),
            CType::OpenArray(of) => Ok(CType::OpenArray(of.share()?)),
            CType::Struct(tag) => Ok(CType::Struct(*tag)),
            CType::Union(tag) => Ok(CType::Union(*tag)),
        }
    }

    /// Whether two types are one and the same.
    pub fn is_same(&self, other: &CType) -> bool
        ensures same { IsTrue result ↔ self.now ≡ other.now }
        ensures decided { result ≡ same_type self.now other.now }
    {
        match (self, other) {
            (CType::Void, CType::Void) => true,
            (
                CType::Int {
                    width: a,
                    signed: b,
                    plain_char: c,
                    long_long: d,
                },
                CType::Int {
                    width: e,
                    signed: f,
                    plain_char: g,
                    long_long: h,
                },
            ) => *a == *e && *b == *f && *c == *g && *d == *h,
            (CType::Ptr(a), CType::Ptr(b)) => a.get().is_same(b.get()),
            (CType::Array(a, m), CType::Array(b, n)) => *m == *n && a.get().is_same(b.get()),
            (CType::OpenArray(a), CType::OpenArray(b)) => a.get().is_same(b.get()),
            (CType::Struct(a), CType::Struct(b)) => *a == *b,
            (CType::Union(a), CType::Union(b)) => *a == *b,
            _ => false,
        }
    }
}

/// What a pointer points to, none of any other type.
pub fn pointed(ctype: &CType) -> Option<&CType>
    ensures { option_copied result ≡ (if is_pointer ctype.now then Some (pointed ctype.now) else None) }
{
    match ctype {
        CType::Ptr(of) => Some(of.get()),
        _ => None,
    }
}

/// What an array has for elements, with a bound or without; none of any other type.
pub fn element(ctype: &CType) -> Option<&CType>
    ensures { option_copied result ≡ (if is_array ctype.now then Some (element ctype.now) else None) }
{
    match ctype {
        CType::Array(of, _) | CType::OpenArray(of) => Some(of.get()),
        _ => None,
    }
}

pub fn is_pointer(ctype: &CType) -> bool
    ensures { result ≡ is_pointer ctype.now }
{
    matches!(ctype, CType::Ptr(_))
}

pub fn is_array(ctype: &CType) -> bool
    ensures { result ≡ is_array ctype.now }
{
    matches!(ctype, CType::Array(..) | CType::OpenArray(_))
}

/// How many bytes a type takes, and at multiples of which number it stands (C11 6.2.8 and 6.5.3.4).
#[derive(Clone, Copy, PartialEq, Eq)]
pub struct Layout {
    pub size: u64,
    pub align: u64,
}

/// Why a type has no layout: it is incomplete, or it takes over 4,194,304 bytes.
#[derive(Clone, Copy, PartialEq, Eq)]
pub enum LayoutFault {
    Incomplete,
    TooBig,
}
