//! The levels of expressions, of which each has what the one before it has (C11 6.5.1 to 6.5.17).

/// C11 6.5.1
pub const PRIMARY: u8 = 0;

/// C11 6.5.2
pub const POSTFIX: u8 = 1;

/// C11 6.5.3
pub const UNARY: u8 = 2;

/// C11 6.5.4
pub const CAST: u8 = 3;

/// C11 6.5.5
pub const MULTIPLICATIVE: u8 = 4;

/// C11 6.5.6
pub const ADDITIVE: u8 = 5;

/// C11 6.5.7
pub const SHIFT: u8 = 6;

/// C11 6.5.8
pub const RELATIONAL: u8 = 7;

/// C11 6.5.9
pub const EQUALITY: u8 = 8;

/// C11 6.5.10
pub const BIT_AND: u8 = 9;

/// C11 6.5.11
pub const BIT_XOR: u8 = 10;

/// C11 6.5.12
pub const BIT_OR: u8 = 11;

/// C11 6.5.13
pub const LOGICAL_AND: u8 = 12;

/// C11 6.5.14
pub const LOGICAL_OR: u8 = 13;

/// C11 6.5.15
pub const CONDITIONAL: u8 = 14;

/// C11 6.5.16
pub const ASSIGNMENT: u8 = 15;

/// C11 6.5.17
pub const EXPRESSION: u8 = 16;

/// Past all levels: that of a token with which no expression goes on.
pub const NO_LEVEL: u8 = 17;
