//! What kind of type a type is, which pointers agree, and the integer promotions (C11 6.2.5, 6.3.1.1 and 6.5.16.1).

ghost use Rattle.std.specs.Prelude.{◌≡◌, ◌&&◌, ◌||◌, IfOk};
ghost use Rattle.c_layout.specs.Types.{agreeing_pointers, is_char, is_integer, is_open_array, is_scalar, is_void, promoted, same_type, tag_of};

use crate::types::CType;
use fc_base::{NoMemory, Width};

pub fn is_void(ctype: &CType) -> bool
    ensures { result ≡ is_void ctype.now }
{
    matches!(ctype, CType::Void)
}

/// An integer type. An enumeration is an int.
pub fn is_integer(ctype: &CType) -> bool
    ensures { result ≡ is_integer ctype.now }
{
    matches!(ctype, CType::Int { .. })
}

/// An integer or a pointer (C11 6.2.5p21).
pub fn is_scalar(ctype: &CType) -> bool
    ensures { result ≡ is_scalar ctype.now }
{
    matches!(ctype, CType::Int { .. } | CType::Ptr(_))
}

/// char, signed char or unsigned char (C11 6.2.5p15).
pub fn is_char(ctype: &CType) -> bool
    ensures { result ≡ is_char ctype.now }
{
    matches!(
        ctype,
        CType::Int {
            width: Width::W1,
            ..
        }
    )
}

/// An array written `[]`.
pub fn is_open_array(ctype: &CType) -> bool
    ensures { result ≡ is_open_array ctype.now }
{
    matches!(ctype, CType::OpenArray(_))
}

/// The number of a structure or union, none of any other type.
pub fn tag_of(ctype: &CType) -> Option<u32>
    ensures { result ≡ tag_of ctype.now }
{
    match ctype {
        CType::Struct(tag) | CType::Union(tag) => Some(*tag),
        _ => None,
    }
}

/// Pointers to one type, or one of them to void, or both to char types (C11 6.5.16.1).
pub fn agreeing_pointers(a: &CType, b: &CType) -> bool
    ensures { result ≡ agreeing_pointers a.now b.now }
{
    match (a, b) {
        (CType::Ptr(x), CType::Ptr(y)) => agrees(x.get(), y.get()),
        _ => false,
    }
}

/// Whether pointers to these types agree.
fn agrees(x: &CType, y: &CType) -> bool
    ensures { result ≡ (same_type x.now y.now || is_void x.now || is_void y.now || (is_char x.now && is_char y.now)) }
{
    x.is_same(y) || is_void(x) || is_void(y) || (is_char(x) && is_char(y))
}

/// The type that the integer promotions give (C11 6.3.1.1p2): int holds each value of the char and short types.
pub fn promoted(ctype: &CType) -> Result<CType, NoMemory>
    ensures { IfOk result (λ t. t ≡ promoted ctype.now) }
{
    match ctype {
        CType::Int {
            width: Width::W1 | Width::W2,
            ..
        } => Ok(CType::Int {
            width: Width::W4,
            signed: true,
            plain_char: false,
            long_long: false,
        }),
        _ => ctype.share(),
    }
}
