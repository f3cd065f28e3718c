//! The library's calls that move bytes in memory, by the machine's argument slots.

ghost use Rattle.std.specs.Prelude.{◌≡◌, length, true};
ghost use Rattle.library_meaning.specs.Memory.{memory_size};
ghost use Rattle.byte_machine.specs.Performing.{operands, memory_row, Did, is_plain, acts};

use c_library::LibFn;
use library_meaning::HostStop;
use mem_chk::{bzero_c, memcmp_c, memcpy_c, memmove_c, mempcpy_c, memset_c};
use str_chk::{stpcpy_c, strcat_c, strchr_c, strcmp_c, strcpy_c, strlen_c, strncat_c, strncpy_c};

/// Whether the call moves bytes in memory.
pub fn is_plain(f: LibFn) -> bool
    ensures { result ≡ is_plain f }
{
    match f {
        LibFn::Memcpy
        | LibFn::Memmove
        | LibFn::Mempcpy
        | LibFn::Memset
        | LibFn::Bzero
        | LibFn::ExplicitBzero
        | LibFn::Memcmp
        | LibFn::Strcpy
        | LibFn::Stpcpy
        | LibFn::Strncpy
        | LibFn::Strcat
        | LibFn::Strncat
        | LibFn::Strlen
        | LibFn::Strcmp
        | LibFn::Strchr => true,
        LibFn::Exit
        | LibFn::Abort
        | LibFn::Malloc
        | LibFn::Calloc
        | LibFn::Realloc
        | LibFn::Free
        | LibFn::Printf
        | LibFn::Puts
        | LibFn::Putchar
        | LibFn::Dprintf
        | LibFn::Sprintf
        | LibFn::Snprintf
        | LibFn::Read
        | LibFn::Write
        | LibFn::Getchar
        | LibFn::Note => false,
    }
}

/// Whether the call ends the run or acts on the heap.
pub fn acts(f: LibFn) -> bool
    ensures { result ≡ acts f }
{
    matches!(
        f,
        LibFn::Exit | LibFn::Abort | LibFn::Malloc | LibFn::Calloc | LibFn::Realloc | LibFn::Free
    )
}

/// Carries out a call that moves bytes in memory, with its arguments in the slots and its destination's size.
pub fn on_memory(f: LibFn, memory: &mut [u8], slots: &[u64; 64], size: u64) -> Result<u64, HostStop>
    requires memory { length memory.old ≡ memory_size }
    requires plain { is_plain f ≡ true }
    ensures { Did (memory_row f size) (operands f slots.now) memory.old memory.new result }
{
    let (a, b, c) = (slots[0], slots[1], slots[2]);
    match f {
        LibFn::Memcpy => memcpy_c(memory, a, b, c, size),
        LibFn::Memmove => memmove_c(memory, a, b, c, size),
        LibFn::Mempcpy => mempcpy_c(memory, a, b, c, size),
        LibFn::Memset => memset_c(memory, a, b, c, size),
        LibFn::Bzero => bzero_c(memory, a, b, size),
        LibFn::ExplicitBzero => bzero_c(memory, a, b, size),
        LibFn::Memcmp => memcmp_c(memory, a, b, c),
        LibFn::Strcpy => strcpy_c(memory, a, b, size),
        LibFn::Stpcpy => stpcpy_c(memory, a, b, size),
        LibFn::Strncpy => strncpy_c(memory, a, b, c, size),
        LibFn::Strcat => strcat_c(memory, a, b, size),
        LibFn::Strncat => strncat_c(memory, a, b, c, size),
        LibFn::Strlen => strlen_c(memory, a),
        LibFn::Strcmp => strcmp_c(memory, a, b),
        LibFn::Strchr => strchr_c(memory, a, b),
        LibFn::Exit
        | LibFn::Abort
        | LibFn::Malloc
        | LibFn::Calloc
        | LibFn::Realloc
        | LibFn::Free
        | LibFn::Printf
        | LibFn::Puts
        | LibFn::Putchar
        | LibFn::Dprintf
        | LibFn::Sprintf
        | LibFn::Snprintf
        | LibFn::Read
        | LibFn::Write
        | LibFn::Getchar
        | LibFn::Note => unreachable!(),
    }
}
