//! The types of library functions, and of the names that headers declare, as types of C.

ghost use Rattle.std.specs.Prelude.{◌≡◌, IfOk};
ghost use Rattle.c_headers.specs.Headers.{type_view};
ghost use Rattle.c_layout.specs.Library.{integer, void_pointer, char_pointer, lib_ctype, lib_parameters, lib_result, header_ctype};

use crate::types::CType;
use c_headers::HeaderType;
use c_library::{LibFn, LibType};
use fc_base::{NoMemory, Width};
use shared_values::Shared;
use sqlite_items::Items;
use std::alloc::Global;

fn void_pointer(alloc: Global) -> Result<CType, NoMemory>
    ensures { IfOk result (λ ctype. ctype ≡ void_pointer) }
{
    Ok(CType::Ptr(Shared::new(alloc, CType::Void)?))
}

fn char_pointer(alloc: Global) -> Result<CType, NoMemory>
    ensures { IfOk result (λ ctype. ctype ≡ char_pointer) }
{
    let char = CType::Int {
        width: Width::W1,
        signed: true,
        plain_char: true,
        long_long: false,
    };
    Ok(CType::Ptr(Shared::new(alloc, char)?))
}

/// An integer type that is no char and no long long.
fn integer(width: Width, signed: bool) -> CType
    ensures { result ≡ integer width signed }
{
    CType::Int {
        width,
        signed,
        plain_char: false,
        long_long: false,
    }
}

/// The type of a parameter or a result of a library function as a type of C.
pub fn lib_ctype(alloc: Global, of: LibType) -> Result<CType, NoMemory>
    ensures { IfOk result (λ ctype. ctype ≡ lib_ctype of) }
{
    match of {
        LibType::Void => Ok(CType::Void),
        LibType::Int => Ok(integer(Width::W4, true)),
        LibType::Long => Ok(integer(Width::W8, true)),
        LibType::Size => Ok(integer(Width::W8, false)),
        LibType::VoidPointer => void_pointer(alloc),
        LibType::CharPointer => char_pointer(alloc),
    }
}

/// The types of the parameters of a library function. Where it is variadic, the last one is its format's.
pub fn lib_parameters(alloc: Global, f: LibFn) -> Result<Items<CType>, NoMemory>
    ensures { IfOk result (λ ctypes. ctypes ≡ lib_parameters f) }
{
    let mut ctypes = Items::new(alloc);
    for &of in f.parameters() {
        ctypes.push(lib_ctype(alloc, of)?)?;
    }
    Ok(ctypes)
}

/// The type of the result of a library function.
pub fn lib_result(alloc: Global, f: LibFn) -> Result<CType, NoMemory>
    ensures { IfOk result (λ ctype. ctype ≡ lib_result f) }
{
    lib_ctype(alloc, f.gives())
}

/// The type that a name of a header stands for.
pub fn header_ctype(of: HeaderType) -> CType
    ensures { result ≡ header_ctype (type_view of) }
{
    integer(of.width, of.signed)
}
