//! What names name (C11 6.2.1 and 6.2.3).

use c_layout::{CType, LibFn};
use sqlite_items::Items;

/// What a visible name names. An enumerator is a constant of type int.
#[derive(Drop)]
pub enum NameUse {
    /// A parameter, or a variable of a block that isn't static, by its number in the function; in a list of parameters
    /// by its place there.
    Local {
        number: u32,
        ctype: CType,
    },
    /// A file variable, or a static variable of a block, by its number in the file.
    Object {
        number: u32,
        ctype: CType,
    },
    /// A function of the file. Those with a body are numbered in the order of their first declarators; one without has
    /// the number behind the last.
    Function {
        number: u32,
        params: Items<CType>,
        result: CType,
    },
    /// A library function that an included header declares.
    Library(LibFn),
    Constant(i32),
    Typedef(CType),
}
