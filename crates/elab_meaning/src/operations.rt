//! What operators make of their operands (C11 6.5).

use c_layout::CType;

/// What an operator makes of two operands: whether it lacks the size of what one of them points to, whether their types are
/// refused, the types that they are converted to, and the type of the result. Of operands that are refused the types mean
/// nothing.
#[derive(Drop)]
pub struct Operation {
    pub incomplete: bool,
    pub refused: bool,
    pub left: CType,
    pub right: CType,
    pub result: CType,
}

/// The same with one operand.
#[derive(Drop)]
pub struct Single {
    pub incomplete: bool,
    pub refused: bool,
    pub operand: CType,
    pub result: CType,
}
