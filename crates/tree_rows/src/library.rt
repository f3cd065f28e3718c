//! The functions that the headers declare, with the modes of their checked forms, and the types of C that they have.

use c_layout::{
    CType, HeaderNumber, Tags, layout_of, lib_by_name, lib_ctype, lib_mode, lib_parameters,
    lib_result,
};
use c_library::{LibFn, LibType};
use fc_base::{Mode, NoMemory};
use std::alloc::Global;
use std::process::Abort;

const STRING_H: HeaderNumber = 0;

const STRINGS_H: HeaderNumber = 1;

const STDIO_H: HeaderNumber = 2;

const STDLIB_H: HeaderNumber = 3;

const UNISTD_H: HeaderNumber = 6;

/// Each function of the library that a header declares.
const FUNCTIONS: &[(HeaderNumber, &str, Option<Mode>)] = &[
    (STRING_H, "memcpy", Some(Mode::M0)),
    (STRING_H, "memmove", Some(Mode::M0)),
    (STRING_H, "mempcpy", Some(Mode::M0)),
    (STRING_H, "memset", Some(Mode::M0)),
    (STRING_H, "explicit_bzero", Some(Mode::M0)),
    (STRING_H, "memcmp", None),
    (STRING_H, "strcpy", Some(Mode::M1)),
    (STRING_H, "stpcpy", Some(Mode::M1)),
    (STRING_H, "strncpy", Some(Mode::M1)),
    (STRING_H, "strcat", Some(Mode::M1)),
    (STRING_H, "strncat", Some(Mode::M1)),
    (STRING_H, "strlen", None),
    (STRING_H, "strcmp", None),
    (STRING_H, "strchr", None),
    (STRINGS_H, "bzero", Some(Mode::M0)),
    (STDIO_H, "printf", None),
    (STDIO_H, "dprintf", None),
    (STDIO_H, "sprintf", Some(Mode::M1)),
    (STDIO_H, "snprintf", Some(Mode::M1)),
    (STDIO_H, "puts", None),
    (STDIO_H, "putchar", None),
    (STDIO_H, "getchar", None),
    (STDLIB_H, "malloc", None),
    (STDLIB_H, "calloc", None),
    (STDLIB_H, "realloc", None),
    (STDLIB_H, "free", None),
    (STDLIB_H, "exit", None),
    (STDLIB_H, "abort", None),
    (UNISTD_H, "read", Some(Mode::M0)),
    (UNISTD_H, "write", None),
];

/// Asserts that this header alone declares the function, and its mode.
fn assert_declared(rt: &impl Abort, header: HeaderNumber, name: &str, mode: Option<Mode>) {
    for other in 0..=7 {
        let found = lib_by_name(name.as_bytes(), other);
        assert!(rt; found.is_some() == (other == header));
        if let Some(f) = found {
            assert!(rt; lib_mode(f) == mode);
            assert!(rt; f.name() == name);
        }
    }
}

#[test]
fn functions_of_headers(rt: HostRuntime) {
    for &(header, name, mode) in FUNCTIONS {
        assert_declared(&rt, header, name, mode);
    }
}

const NO_FUNCTIONS: &[&[u8]] = &[b"note", b"strcp", b"strcpyy", b"strlcpy", b""];

#[test]
fn names_of_no_function(rt: HostRuntime) {
    for &name in NO_FUNCTIONS {
        for header in 0..=7 {
            assert!(rt; lib_by_name(name, header).is_none());
        }
    }
}

/// Each type of a parameter or a result with its size, where it has one.
const TYPES: &[(LibType, Option<u64>)] = &[
    (LibType::Void, None),
    (LibType::Int, Some(4)),
    (LibType::Long, Some(8)),
    (LibType::Size, Some(8)),
    (LibType::VoidPointer, Some(8)),
    (LibType::CharPointer, Some(8)),
];

fn assert_type(
    rt: &impl Abort,
    alloc: Global,
    of: LibType,
    size: Option<u64>,
) -> Result<(), NoMemory> {
    let tags = Tags::new(alloc);
    let ctype = lib_ctype(alloc, of)?;
    let found = layout_of(&tags, &ctype).ok().map(|layout| layout.size);
    assert!(rt; found == size);
    Ok(())
}

#[test]
fn types_of_functions(rt: HostRuntime) -> Result<(), NoMemory> {
    for &(of, size) in TYPES {
        assert_type(&rt, rt.alloc(), of, size)?;
    }
    Ok(())
}

/// Each of these functions with the number of its parameters, and whether it gives a pointer.
const SIGNATURES: &[(LibFn, usize, bool)] = &[
    (LibFn::Abort, 0, false),
    (LibFn::Snprintf, 3, false),
    (LibFn::Strchr, 2, true),
];

#[test]
fn signatures_of_functions(rt: HostRuntime) -> Result<(), NoMemory> {
    for &(f, count, gives_pointer) in SIGNATURES {
        let parameters = lib_parameters(rt.alloc(), f)?;
        assert!(rt; parameters.len() == count);
        let result = lib_result(rt.alloc(), f)?;
        assert!(rt; matches!(result, CType::Ptr(_)) == gives_pointer);
    }
    Ok(())
}
