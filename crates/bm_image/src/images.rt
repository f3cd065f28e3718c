//! What an image has, before it is spelled in bytes and after.

use bm_isa::Instr;

/// A function of an image. Its instructions stand from `first`, counted from the image's first instruction, to the
/// next function's or the end. `params` registers are given by the caller, of `regs` in all. `weight` and `frame`, in
/// bytes, count against the limits of the stack.
#[derive(Clone, Copy)]
pub struct FnRec {
    pub first: u32,
    pub params: u32,
    pub regs: u32,
    pub weight: u32,
    pub frame: u32,
}

/// What the instructions of a function may name: its registers, the bytes of its frame, its instructions from `first` to
/// `end`, and the functions of the image.
#[derive(Clone, Copy)]
pub struct Bounds {
    pub registers: u32,
    pub frame: u32,
    pub first: u32,
    pub end: u32,
    pub functions: u32,
}

/// An image: functions in order, their code, the bytes of the data section, and the number of the function that the
/// machine begins with.
#[derive(Drop)]
pub struct Image {
    pub functions: Vec<FnRec>,
    pub code: Vec<Instr>,
    pub bytes: Vec<u8>,
    pub entry: u32,
}
