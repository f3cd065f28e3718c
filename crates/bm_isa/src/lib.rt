//! The instructions of the plain machine and their spelling in sixteen bytes.
#![tactic(auto)]

mod decoding;
mod encoding;
mod instructions;

pub use decoding::{BadInstr, decode, word_at};
pub use encoding::encode;
pub use instructions::{BinaryOp, DivideOp, DivideWidth, Instr};
