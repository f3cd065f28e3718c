//! Library functions by the numbers of the machine's host calls.

ghost use Rattle.std.specs.Prelude.{◌≡◌};
ghost use Rattle.c_library.specs.Library.{call_at, call_of};

use crate::functions::{CHECKED, LibFn};

/// The functions in the order of their numbers.
const LIBRARY: &[LibFn] = &[
    LibFn::Exit,
    LibFn::Abort,
    LibFn::Malloc,
    LibFn::Calloc,
    LibFn::Realloc,
    LibFn::Free,
    LibFn::Memcpy,
    LibFn::Memmove,
    LibFn::Mempcpy,
    LibFn::Memset,
    LibFn::Bzero,
    LibFn::ExplicitBzero,
    LibFn::Memcmp,
    LibFn::Strcpy,
    LibFn::Stpcpy,
    LibFn::Strncpy,
    LibFn::Strcat,
    LibFn::Strncat,
    LibFn::Strlen,
    LibFn::Strcmp,
    LibFn::Strchr,
    LibFn::Printf,
    LibFn::Puts,
    LibFn::Putchar,
    LibFn::Dprintf,
    LibFn::Sprintf,
    LibFn::Snprintf,
    LibFn::Read,
    LibFn::Write,
    LibFn::Getchar,
    LibFn::Note,
];

/// The library function of a host call's number, and whether the number is its checked form's. None where no function has
/// the number.
pub fn host_call(number: u32) -> Option<(LibFn, bool)>
    ensures { result ≡ call_of number }
{
    if number >= CHECKED {
        call_at(number - CHECKED, true)
    } else {
        call_at(number, false)
    }
}

/// The function at a place in the order of the numbers, checked or not.
fn call_at(place: u32, checked: bool) -> Option<(LibFn, bool)>
    ensures { result ≡ call_at place checked }
{
    let place = place as usize;
    if place < LIBRARY.len() {
        Some((LIBRARY[place], checked))
    } else {
        None
    }
}
