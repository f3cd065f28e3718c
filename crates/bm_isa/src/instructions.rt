//! The instructions. An operand is the number of a register in the running call's window, below the function's count
//! of registers, or a plain number where that is said.

use fc_base::Width;

/// An operation on two registers, modulo 2^64. `MulHigh` gives the high half of the unsigned product. Shifts take their count modulo 64; comparisons give 1 or 0; an
/// unsigned division ends the run where the divisor is 0.
#[derive(Clone, Copy)]
pub enum BinaryOp {
    Add,
    Sub,
    Mul,
    And,
    Or,
    Xor,
    ShiftLeft,
    ShiftRightUnsigned,
    ShiftRightSigned,
    MulHigh,
    DivUnsigned,
    RemUnsigned,
    Equal,
    NotEqual,
    LessUnsigned,
    AtMostUnsigned,
    LessSigned,
    AtMostSigned,
    MinSigned,
    MaxSigned,
    MinUnsigned,
}

/// A signed division, cut toward zero.
#[derive(Clone, Copy)]
pub enum DivideOp {
    Div,
    Rem,
}

/// How many bytes the operands of a signed division have.
#[derive(Clone, Copy)]
pub enum DivideWidth {
    W4,
    W8,
}

/// An instruction.
#[derive(Clone, Copy)]
pub enum Instr {
    /// The register becomes the number.
    Const {
        to: u32,
        number: u64,
    },
    /// The one register becomes the other.
    Move {
        to: u32,
        from: u32,
    },
    /// The register becomes the frame's base and the offset.
    Slot {
        to: u32,
        offset: u32,
    },
    Binary {
        op: BinaryOp,
        to: u32,
        left: u32,
        right: u32,
    },
    /// Ends the run where the divisor is 0, or -1 under the least number of the width.
    Divide {
        op: DivideOp,
        width: DivideWidth,
        to: u32,
        left: u32,
        right: u32,
    },
    /// The low bytes of the width, extended.
    Extend {
        signed: bool,
        width: Width,
        to: u32,
        from: u32,
    },
    /// The register becomes the other where the test is not 0.
    Select {
        to: u32,
        test: u32,
        from: u32,
    },
    /// The bytes of the width at the address, little-endian and extended.
    Load {
        signed: bool,
        width: Width,
        to: u32,
        at: u32,
    },
    /// The low bytes of the width go to the address.
    Store {
        width: Width,
        from: u32,
        at: u32,
    },
    /// That many bytes, by the number itself, from the one address to the other, as if through a copy.
    Copy {
        to_at: u32,
        from_at: u32,
        count: u32,
    },
    /// That many zero bytes, by the number itself, at the address.
    Zero {
        at: u32,
        count: u32,
    },
    /// Goes to the instruction, counted from the image's first.
    Jump {
        target: u32,
    },
    JumpIfZero {
        test: u32,
        target: u32,
    },
    JumpIfNotZero {
        test: u32,
        target: u32,
    },
    /// The argument slot becomes the register.
    Argument {
        from: u32,
        slot: u32,
    },
    /// Calls the function; its result goes to the register.
    Call {
        to: u32,
        function: u32,
    },
    /// Ends the call with the register.
    Return {
        from: u32,
    },
    /// Makes the library call of that number with that many argument slots; its result goes to the register.
    Host {
        to: u32,
        call: u32,
        count: u32,
    },
}
