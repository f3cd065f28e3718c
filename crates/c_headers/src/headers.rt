//! The headers: what a source gets from each inclusion.

ghost use Rattle.std.specs.Prelude.{◌≡◌, ◌↔◌, Some, map, Contains, slice_get};
ghost use Rattle.c_library.specs.declared.functions.LibFn.{LibFn};
ghost use Rattle.c_library.specs.Library.{row_of};
ghost use Rattle.c_headers.specs.Headers.{header_row, row_view, type_view, macro_view, headers, header_name, header_number, header_named, function_named, IsDeclared};

use c_library::LibFn;
use fc_base::Width;

/// A header that can be included. Its declarations and macros are built in.
#[derive(Clone, Copy, PartialEq, Eq)]
pub enum HeaderId {
    /// `string.h`
    String,
    /// `strings.h`
    Strings,
    /// `stdio.h`
    Stdio,
    /// `stdlib.h`
    Stdlib,
    /// `stddef.h`
    Stddef,
    /// `stdint.h`
    Stdint,
    /// `unistd.h`
    Unistd,
}

/// A header by its place among string.h, strings.h, stdio.h, stdlib.h, stddef.h, stdint.h and unistd.h, from 0.
pub type HeaderNumber = u8;

/// The name of an integer type that a header declares.
#[derive(Clone, Copy)]
pub struct HeaderType {
    pub name: &'static str,
    pub width: Width,
    pub signed: bool,
}

/// A macro without parameters that a header defines.
#[derive(Clone, Copy)]
pub struct HeaderMacro {
    pub name: &'static str,
    pub value: MacroValue,
}

/// What a macro of a header stands for: `((void*)0)`, `(-1)`, `0`, `1` or `2`.
#[derive(Clone, Copy, PartialEq, Eq)]
pub enum MacroValue {
    NullPointer,
    MinusOne,
    Zero,
    One,
    Two,
}

/// What a header declares.
#[derive(Clone, Copy)]
struct HeaderRow {
    name: &'static str,
    number: HeaderNumber,
    types: &'static [HeaderType],
    macros: &'static [HeaderMacro],
    functions: &'static [LibFn],
}

const SIZE_T: HeaderType = HeaderType {
    name: "size_t",
    width: Width::W8,
    signed: false,
};

const PTRDIFF_T: HeaderType = HeaderType {
    name: "ptrdiff_t",
    width: Width::W8,
    signed: true,
};

const SSIZE_T: HeaderType = HeaderType {
    name: "ssize_t",
    width: Width::W8,
    signed: true,
};

const INT8_T: HeaderType = HeaderType {
    name: "int8_t",
    width: Width::W1,
    signed: true,
};

const INT16_T: HeaderType = HeaderType {
    name: "int16_t",
    width: Width::W2,
    signed: true,
};

const INT32_T: HeaderType = HeaderType {
    name: "int32_t",
    width: Width::W4,
    signed: true,
};

const INT64_T: HeaderType = HeaderType {
    name: "int64_t",
    width: Width::W8,
    signed: true,
};

const UINT8_T: HeaderType = HeaderType {
    name: "uint8_t",
    width: Width::W1,
    signed: false,
};

const UINT16_T: HeaderType = HeaderType {
    name: "uint16_t",
    width: Width::W2,
    signed: false,
};

const UINT32_T: HeaderType = HeaderType {
    name: "uint32_t",
    width: Width::W4,
    signed: false,
};

const UINT64_T: HeaderType = HeaderType {
    name: "uint64_t",
    width: Width::W8,
    signed: false,
};

const NULL: HeaderMacro = HeaderMacro {
    name: "NULL",
    value: MacroValue::NullPointer,
};

const EOF: HeaderMacro = HeaderMacro {
    name: "EOF",
    value: MacroValue::MinusOne,
};

const EXIT_SUCCESS: HeaderMacro = HeaderMacro {
    name: "EXIT_SUCCESS",
    value: MacroValue::Zero,
};

const EXIT_FAILURE: HeaderMacro = HeaderMacro {
    name: "EXIT_FAILURE",
    value: MacroValue::One,
};

const STDIN_FILENO: HeaderMacro = HeaderMacro {
    name: "STDIN_FILENO",
    value: MacroValue::Zero,
};

const STDOUT_FILENO: HeaderMacro = HeaderMacro {
    name: "STDOUT_FILENO",
    value: MacroValue::One,
};

const STDERR_FILENO: HeaderMacro = HeaderMacro {
    name: "STDERR_FILENO",
    value: MacroValue::Two,
};

impl HeaderId {
    const ALL: &'static [HeaderId] = &[
        HeaderId::String,
        HeaderId::Strings,
        HeaderId::Stdio,
        HeaderId::Stdlib,
        HeaderId::Stddef,
        HeaderId::Stdint,
        HeaderId::Unistd,
    ];

    /// All of them, in the order of their numbers.
    pub fn all() -> &'static [HeaderId]
        ensures { result.now ≡ headers }
    {
        HeaderId::ALL
    }

    fn row(self) -> HeaderRow
        ensures { row_view result ≡ header_row self }
    {
        match self {
            HeaderId::String => HeaderRow {
                name: "string.h",
                number: 0,
                types: &[SIZE_T],
                macros: &[NULL],
                functions: &[
                    LibFn::Memcpy,
                    LibFn::Memmove,
                    LibFn::Mempcpy,
                    LibFn::Memset,
                    LibFn::ExplicitBzero,
                    LibFn::Memcmp,
                    LibFn::Strcpy,
                    LibFn::Stpcpy,
                    LibFn::Strncpy,
                    LibFn::Strcat,
                    LibFn::Strncat,
                    LibFn::Strlen,
                    LibFn::Strcmp,
                    LibFn::Strchr,
                ],
            },
            HeaderId::Strings => HeaderRow {
                name: "strings.h",
                number: 1,
                types: &[],
                macros: &[],
                functions: &[LibFn::Bzero],
            },
            HeaderId::Stdio => HeaderRow {
                name: "stdio.h",
                number: 2,
                types: &[SIZE_T],
                macros: &[NULL, EOF],
                functions: &[
                    LibFn::Printf,
                    LibFn::Dprintf,
                    LibFn::Sprintf,
                    LibFn::Snprintf,
                    LibFn::Puts,
                    LibFn::Putchar,
                    LibFn::Getchar,
                ],
            },
            HeaderId::Stdlib => HeaderRow {
                name: "stdlib.h",
                number: 3,
                types: &[SIZE_T],
                macros: &[NULL, EXIT_SUCCESS, EXIT_FAILURE],
                functions: &[
                    LibFn::Malloc,
                    LibFn::Calloc,
                    LibFn::Realloc,
                    LibFn::Free,
                    LibFn::Exit,
                    LibFn::Abort,
                ],
            },
            HeaderId::Stddef => HeaderRow {
                name: "stddef.h",
                number: 4,
                types: &[SIZE_T, PTRDIFF_T],
                macros: &[NULL],
                functions: &[],
            },
            HeaderId::Stdint => HeaderRow {
                name: "stdint.h",
                number: 5,
                types: &[
                    INT8_T, INT16_T, INT32_T, INT64_T, UINT8_T, UINT16_T, UINT32_T, UINT64_T,
                ],
                macros: &[],
                functions: &[],
            },
            HeaderId::Unistd => HeaderRow {
                name: "unistd.h",
                number: 6,
                types: &[SIZE_T, SSIZE_T],
                macros: &[NULL, STDIN_FILENO, STDOUT_FILENO, STDERR_FILENO],
                functions: &[LibFn::Read, LibFn::Write],
            },
        }
    }

    /// Its name, as it stands between the angle brackets.
    pub fn name(self) -> &'static str
        ensures { result.now ≡ header_name self }
    {
        self.row().name
    }

    /// The number that `lib_by_name` takes.
    pub fn number(self) -> HeaderNumber
        ensures { result ≡ header_number self }
    {
        self.row().number
    }

    /// The names of types that it declares.
    pub fn types(self) -> &'static [HeaderType]
        ensures { map type_view result.now ≡ (header_row self).types }
    {
        self.row().types
    }

    /// The macros that it defines.
    pub fn macros(self) -> &'static [HeaderMacro]
        ensures { map macro_view result.now ≡ (header_row self).macros }
    {
        self.row().macros
    }

    /// The functions that it declares.
    pub fn functions(self) -> &'static [LibFn]
        ensures { result.now ≡ (header_row self).functions }
    {
        self.row().functions
    }

    /// The header of this name, none where it is not known.
    pub fn named(name: &[u8]) -> Option<HeaderId>
        ensures { result ≡ header_named name.now }
    {
        for &header in HeaderId::all() {
            if header.name().as_bytes() == name {
                return Some(header);
            }
        }
        None
    }

    /// The header of this number.
    fn numbered(number: HeaderNumber) -> Option<HeaderId>
        ensures { result ≡ slice_get headers number }
    {
        HeaderId::all().get(usize::from(number)).copied()
    }

    /// The function of this name that it declares.
    fn function(self, name: &[u8]) -> Option<LibFn>
        ensures { result ≡ function_named (header_row self).functions name.now }
    {
        for &f in self.functions() {
            if f.name().as_bytes() == name {
                return Some(f);
            }
        }
        None
    }
}

/// The function of that name that the header declares.
pub fn lib_by_name(name: &[u8], header: HeaderNumber) -> Option<LibFn>
    ensures { (f : LibFn) → (result ≡ Some f) ↔ IsDeclared f name.now header }
{
    match HeaderId::numbered(header) {
        Some(header) => header.function(name),
        None => None,
    }
}
