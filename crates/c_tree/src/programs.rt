//! A whole program as typing gives it: its structures and unions, functions and data objects.

use crate::typed::TypedStmt;
use c_layout::{CType, Tags};
use fc_base::Text;
use sqlite_items::Items;

/// A parameter, or a variable of a block that isn't static. It is in a register where its type is an integer's or a
/// pointer's and its own address is never taken, and else in memory.
#[derive(Drop)]
pub struct LocalDef {
    pub name: Text,
    pub ctype: CType,
    pub in_register: bool,
}

/// What a function's weight and frame are made of: its nodes, its joins, its register variables and the bytes of its
/// variables in memory, with those of its inline calls. Each sum stops at 2^63.
#[derive(Clone, Copy, PartialEq, Eq)]
pub struct Counts {
    pub nodes: u64,
    pub joins: u64,
    pub vars: u64,
    pub frame: u64,
}

/// A function with a body. Its locals are its parameters and then the variables of its blocks that aren't static.
/// `alloc_size` has the numbers of the parameters that the attribute names, from 1 (GCC manual, "Common Function
/// Attributes").
#[derive(Drop)]
pub struct FnDef {
    pub name: Text,
    pub params: Items<CType>,
    pub result: CType,
    pub inlined: bool,
    pub alloc_size: Option<(u32, Option<u32>)>,
    pub locals: Items<LocalDef>,
    pub counts: Counts,
    pub body: TypedStmt,
}

/// An address constant in a data object: the pointer's eight bytes stand from `at`, and it points into the object
/// `target`, at `offset`, with the end of its subobject at `end`.
#[derive(Clone, Copy, PartialEq, Eq)]
pub struct Link {
    pub at: u32,
    pub target: u32,
    pub offset: u32,
    pub end: u32,
}

/// A file variable, a static variable of a block or a string literal, with its first bytes. A literal's name is empty.
#[derive(Drop)]
pub struct DataDef {
    pub name: Text,
    pub size: u32,
    pub writable: bool,
    pub bytes: Items<u8>,
    pub links: Items<Link>,
}

/// A source after typing. `main` is the number of the function main.
#[derive(Drop)]
pub struct TypedTree {
    pub tags: Tags,
    pub functions: Items<FnDef>,
    pub objects: Items<DataDef>,
    pub main: usize,
}
