//! A call behind its check, by the function and its arguments.

ghost use Rattle.std.specs.Prelude.{◌≡◌, true, false};
ghost use Rattle.std.specs.List.{list_any};
ghost use Rattle.run_meaning.specs.Worlds.{World};
ghost use Rattle.object_meaning.specs.LibraryCalls.{checked_row, limit, row_for};
ghost use Rattle.object_meaning.specs.OnObjects.{is_missing};
ghost use Rattle.src_lib.specs.Acts.{DoesBy, is_silent, looked};
ghost use Rattle.src_lib.specs.Requests.{ArePointers, is_typed};

use crate::blocks::memcmp;
use crate::copies::{bzero, memcpy, memmove, mempcpy, memset};
use crate::ends::Stop;
use crate::pairs::strcmp;
use crate::requests::{SizeCheck, number_at, pointer_at};
use crate::strings::{point, stpcpy, strcat, strchr, strcpy, strlen, strncat, strncpy};
use c_library::LibFn;
use fc_base::UndefKind;
use object_meaning::Value;
use src_values::Memory;

/// What a function's row does, where the destination has this size.
fn run_row(memory: &mut Memory, f: LibFn, args: &[Value], size: u64) -> Result<Value, Stop>
    requires silent { is_silent f ≡ true }
    requires typed { is_typed f args.now ≡ true }
    requires given { list_any is_missing args.now ≡ false }
    requires pointers { ArePointers memory.old args.now }
    ensures { (w : World) → DoesBy f args.now w (row_for f 0 size) memory.old memory.new result }
{
    let first = pointer_at(args, 0);
    let second = pointer_at(args, 1);
    match f {
        LibFn::Memcpy => memcpy(memory, first, second, number_at(args, 2), size),
        LibFn::Memmove => memmove(memory, first, second, number_at(args, 2), size),
        LibFn::Mempcpy => mempcpy(memory, first, second, number_at(args, 2), size),
        LibFn::Memset => memset(memory, first, number_at(args, 1), number_at(args, 2), size),
        LibFn::Memcmp => memcmp(memory, first, second, number_at(args, 2)),
        LibFn::Strcpy => strcpy(memory, first, second, size),
        LibFn::Stpcpy => stpcpy(memory, first, second, size),
        LibFn::Strncpy => strncpy(memory, first, second, number_at(args, 2), size),
        LibFn::Strcat => strcat(memory, first, second, size),
        LibFn::Strncat => strncat(memory, first, second, number_at(args, 2), size),
        LibFn::Strlen => strlen(memory, first),
        LibFn::Strcmp => strcmp(memory, first, second),
        LibFn::Strchr => strchr(memory, first, number_at(args, 1)),
        LibFn::Bzero | LibFn::ExplicitBzero => {
            match bzero(memory, first, number_at(args, 1), size) {
                Ok(_) => Ok(Value::Nothing),
                Err(stop) => Err(stop),
            }
        }
        LibFn::Exit
        | LibFn::Abort
        | LibFn::Malloc
        | LibFn::Calloc
        | LibFn::Realloc
        | LibFn::Free
        | LibFn::Printf
        | LibFn::Puts
        | LibFn::Putchar
        | LibFn::Dprintf
        | LibFn::Sprintf
        | LibFn::Snprintf
        | LibFn::Read
        | LibFn::Write
        | LibFn::Getchar
        | LibFn::Note => unreachable!(),
    }
}

/// A look at the pointers of a call whose scans begin anew.
fn look(memory: &Memory, f: LibFn, args: &[Value]) -> Result<(), UndefKind>
    ensures { result ≡ looked memory.now f args.now }
{
    let first = pointer_at(args, 0);
    let second = pointer_at(args, 1);
    match f {
        LibFn::Strcpy | LibFn::Stpcpy | LibFn::Strcat => point(memory, first, second, true, true),
        LibFn::Strncat => point(memory, first, second, true, number_at(args, 2) > 0),
        LibFn::Exit
        | LibFn::Abort
        | LibFn::Malloc
        | LibFn::Calloc
        | LibFn::Realloc
        | LibFn::Free
        | LibFn::Memcpy
        | LibFn::Memmove
        | LibFn::Mempcpy
        | LibFn::Memset
        | LibFn::Bzero
        | LibFn::ExplicitBzero
        | LibFn::Memcmp
        | LibFn::Strncpy
        | LibFn::Strlen
        | LibFn::Strcmp
        | LibFn::Strchr
        | LibFn::Printf
        | LibFn::Puts
        | LibFn::Putchar
        | LibFn::Dprintf
        | LibFn::Sprintf
        | LibFn::Snprintf
        | LibFn::Read
        | LibFn::Write
        | LibFn::Getchar
        | LibFn::Note => Ok(()),
    }
}

/// What a call does behind its check, which said this, where its row moves bytes of memory alone. Where the request exceeds the size it
/// goes on as the plain form does: its scans begin anew, behind a look at all pointers of the call.
pub fn act(memory: &mut Memory, f: LibFn, args: &[Value], check: SizeCheck) -> Result<Value, Stop>
    requires silent { is_silent f ≡ true }
    requires typed { is_typed f args.now ≡ true }
    requires given { list_any is_missing args.now ≡ false }
    requires pointers { ArePointers memory.old args.now }
    requires size { check.size ≡ limit f args.now memory.old }
    ensures { (w : World) → DoesBy f args.now w (checked_row check.exceeds f args.now memory.old) memory.old memory.new result }
{
    if !check.exceeds {
        return run_row(memory, f, args, check.size);
    }
    match look(memory, f, args) {
        Ok(()) => run_row(memory, f, args, u64::MAX),
        Err(kind) => Err(Stop::Undefined(kind)),
    }
}
