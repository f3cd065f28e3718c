//! How an expression goes on.

use c_tree::{AssignOp, BinaryOp, PostfixOp};

/// How an expression goes on with a token.
#[derive(Clone, Copy)]
pub enum Operator {
    Call,
    Index,
    /// `->`, or `.`.
    Member { arrow: bool },
    Step(PostfixOp),
    /// `?`
    Choice,
    Assign(AssignOp),
    /// An operator that groups to the left, and the level of its right operand.
    Join(BinaryOp, u8),
    /// `,`
    List,
    /// A string literal, which is a part of the one before it.
    Str,
    /// The expression ends.
    End,
}
