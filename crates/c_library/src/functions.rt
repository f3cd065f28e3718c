//! The library functions: what a compiler and a machine know of each.

ghost use Rattle.std.specs.Prelude.{◌≡◌, true, false};
ghost use Rattle.c_library.specs.declared.functions.LibType.TheVariants as lib_type;
ghost use Rattle.c_library.specs.Library.{row, row_of, row_view, sized, mode_of, host_number};

use fc_base::Mode;

/// How much greater the number of a checked form is.
pub(crate) const CHECKED: u32 = 64;

/// A library function. `Note` stands for the line that shows a size, which no source can call.
#[derive(Clone, Copy, PartialEq, Eq)]
pub enum LibFn {
    Exit,
    Abort,
    Malloc,
    Calloc,
    Realloc,
    Free,
    Memcpy,
    Memmove,
    Mempcpy,
    Memset,
    Bzero,
    ExplicitBzero,
    Memcmp,
    Strcpy,
    Stpcpy,
    Strncpy,
    Strcat,
    Strncat,
    Strlen,
    Strcmp,
    Strchr,
    Printf,
    Puts,
    Putchar,
    Dprintf,
    Sprintf,
    Snprintf,
    Read,
    Write,
    Getchar,
    Note,
}

/// The type of a parameter or a result. `Long` is ssize_t, and `Size` is size_t; const and restrict are left out.
#[derive(Clone, Copy, PartialEq, Eq)]
pub enum LibType {
    Void,
    Int,
    Long,
    Size,
    VoidPointer,
    CharPointer,
}

/// The form of a function that is told the size of its destination: the mode in which the size is asked, and the place
/// of the destination among the arguments, from 0.
#[derive(Clone, Copy)]
pub struct CheckedForm {
    pub mode: Mode,
    pub destination: usize,
}

/// What is known of a function.
#[derive(Clone, Copy)]
struct FunctionRow {
    name: &'static str,
    number: u32,
    checked: Option<CheckedForm>,
    parameters: &'static [LibType],
    variadic: bool,
    gives: LibType,
}

/// The checked form whose size is asked in this mode, of the argument at this place.
fn sized(mode: Mode, destination: usize) -> Option<CheckedForm>
    ensures { result ≡ sized mode destination }
{
    Some(CheckedForm { mode, destination })
}

impl FunctionRow {
    /// The row of a function with a fixed number of arguments.
    fn fixed(
        name: &'static str,
        number: u32,
        checked: Option<CheckedForm>,
        parameters: &'static [LibType],
        gives: LibType,
    ) -> FunctionRow
        ensures { row_view result ≡ row name.now number checked parameters.now false gives }
    {
        FunctionRow {
            name,
            number,
            checked,
            parameters,
            variadic: false,
            gives,
        }
    }

    /// The row of a function whose last parameter is a format, with arguments behind it.
    fn print(
        name: &'static str,
        number: u32,
        checked: Option<CheckedForm>,
        parameters: &'static [LibType],
    ) -> FunctionRow
        ensures { row_view result ≡ row name.now number checked parameters.now true lib_type.Int }
    {
        FunctionRow {
            name,
            number,
            checked,
            parameters,
            variadic: true,
            gives: LibType::Int,
        }
    }
}

impl LibFn {
    fn row(self) -> FunctionRow
        ensures { row_view result ≡ row_of self }
    {
        use LibType::{CharPointer, Int, Long, Size, Void, VoidPointer};
        match self {
            LibFn::Exit => FunctionRow::fixed("exit", 0, None, &[Int], Void),
            LibFn::Abort => FunctionRow::fixed("abort", 1, None, &[], Void),
            LibFn::Malloc => FunctionRow::fixed("malloc", 2, None, &[Size], VoidPointer),
            LibFn::Calloc => FunctionRow::fixed("calloc", 3, None, &[Size, Size], VoidPointer),
            LibFn::Realloc => FunctionRow::fixed(
                "realloc",
                4,
                None,
                &[VoidPointer, Size],
                VoidPointer,
            ),
            LibFn::Free => FunctionRow::fixed("free", 5, None, &[VoidPointer], Void),
            LibFn::Memcpy => FunctionRow::fixed(
                "memcpy",
                6,
                sized(Mode::M0, 0),
                &[VoidPointer, VoidPointer, Size],
                VoidPointer,
            ),
            LibFn::Memmove => FunctionRow::fixed(
                "memmove",
                7,
                sized(Mode::M0, 0),
                &[VoidPointer, VoidPointer, Size],
                VoidPointer,
            ),
            LibFn::Mempcpy => FunctionRow::fixed(
                "mempcpy",
                8,
                sized(Mode::M0, 0),
                &[VoidPointer, VoidPointer, Size],
                VoidPointer,
            ),
            LibFn::Memset => FunctionRow::fixed(
                "memset",
                9,
                sized(Mode::M0, 0),
                &[VoidPointer, Int, Size],
                VoidPointer,
            ),
            LibFn::Bzero => FunctionRow::fixed(
                "bzero",
                10,
                sized(Mode::M0, 0),
                &[VoidPointer, Size],
                Void,
            ),
            LibFn::ExplicitBzero => FunctionRow::fixed(
                "explicit_bzero",
                11,
                sized(Mode::M0, 0),
                &[VoidPointer, Size],
                Void,
            ),
            LibFn::Memcmp => FunctionRow::fixed(
                "memcmp",
                12,
                None,
                &[VoidPointer, VoidPointer, Size],
                Int,
            ),
            LibFn::Strcpy => FunctionRow::fixed(
                "strcpy",
                13,
                sized(Mode::M1, 0),
                &[CharPointer, CharPointer],
                CharPointer,
            ),
            LibFn::Stpcpy => FunctionRow::fixed(
                "stpcpy",
                14,
                sized(Mode::M1, 0),
                &[CharPointer, CharPointer],
                CharPointer,
            ),
            LibFn::Strncpy => FunctionRow::fixed(
                "strncpy",
                15,
                sized(Mode::M1, 0),
                &[CharPointer, CharPointer, Size],
                CharPointer,
            ),
            LibFn::Strcat => FunctionRow::fixed(
                "strcat",
                16,
                sized(Mode::M1, 0),
                &[CharPointer, CharPointer],
                CharPointer,
            ),
            LibFn::Strncat => FunctionRow::fixed(
                "strncat",
                17,
                sized(Mode::M1, 0),
                &[CharPointer, CharPointer, Size],
                CharPointer,
            ),
            LibFn::Strlen => FunctionRow::fixed("strlen", 18, None, &[CharPointer], Size),
            LibFn::Strcmp => FunctionRow::fixed(
                "strcmp",
                19,
                None,
                &[CharPointer, CharPointer],
                Int,
            ),
            LibFn::Strchr => FunctionRow::fixed(
                "strchr",
                20,
                None,
                &[CharPointer, Int],
                CharPointer,
            ),
            LibFn::Printf => FunctionRow::print("printf", 21, None, &[CharPointer]),
            LibFn::Puts => FunctionRow::fixed("puts", 22, None, &[CharPointer], Int),
            LibFn::Putchar => FunctionRow::fixed("putchar", 23, None, &[Int], Int),
            LibFn::Dprintf => FunctionRow::print("dprintf", 24, None, &[Int, CharPointer]),
            LibFn::Sprintf => FunctionRow::print(
                "sprintf",
                25,
                sized(Mode::M1, 0),
                &[CharPointer, CharPointer],
            ),
            LibFn::Snprintf => FunctionRow::print(
                "snprintf",
                26,
                sized(Mode::M1, 0),
                &[CharPointer, Size, CharPointer],
            ),
            LibFn::Read => FunctionRow::fixed(
                "read",
                27,
                sized(Mode::M0, 1),
                &[Int, VoidPointer, Size],
                Long,
            ),
            LibFn::Write => FunctionRow::fixed("write", 28, None, &[Int, VoidPointer, Size], Long),
            LibFn::Getchar => FunctionRow::fixed("getchar", 29, None, &[], Int),
            LibFn::Note => FunctionRow::fixed("note", 30, None, &[Size, Size, Size, Size], Void),
        }
    }

    /// The function's name in C.
    pub fn name(self) -> &'static str
        ensures { result.now ≡ (row_of self).name }
    {
        self.row().name
    }

    /// The types of its parameters. Where it is variadic, the last one is its format.
    pub fn parameters(self) -> &'static [LibType]
        ensures { result.now ≡ (row_of self).parameters }
    {
        self.row().parameters
    }

    /// Whether further arguments follow its format.
    pub fn is_variadic(self) -> bool
        ensures { result ≡ (row_of self).variadic }
    {
        self.row().variadic
    }

    /// The type of its result.
    pub fn gives(self) -> LibType
        ensures { result ≡ (row_of self).gives }
    {
        self.row().gives
    }

    /// Its checked form, if it has one.
    pub fn checked_form(self) -> Option<CheckedForm>
        ensures { result ≡ (row_of self).checked }
    {
        self.row().checked
    }

    /// The number of its plain or its checked form among the machine's host calls. Only a function with a checked form
    /// has the second number.
    pub fn host_number(self, checked: bool) -> u32
        ensures { result ≡ host_number self checked }
    {
        let number = self.row().number;
        if checked { number + CHECKED } else { number }
    }
}

/// The mode in which the size of the function's checked form is asked, none where it has no checked form.
pub fn lib_mode(f: LibFn) -> Option<Mode>
    ensures { result ≡ mode_of f }
{
    f.row().checked.map(|form| form.mode)
}
