//! The operators of expressions (C11 6.5), but for `sizeof` and those that have a node of their own, and the arithmetic of
//! each on integers.

ghost use Rattle.std.specs.Prelude.{◌≡◌};
ghost use Rattle.c_tree.specs.Operators.{assign_operator, binary_operator, int_type, unary_operator};

use c_arithmetic::{BinaryOperator, IntType, UnaryOperator};
use c_layout::CType;

/// An assignment operator (C11 6.5.16): the plain one, or the one that names the operator it applies first.
#[derive(Clone, Copy, PartialEq, Eq)]
pub enum AssignOp {
    /// `=`
    Plain,
    /// `*=`
    Mul,
    /// `/=`
    Div,
    /// `%=`
    Rem,
    /// `+=`
    Add,
    /// `-=`
    Sub,
    /// `<<=`
    ShiftLeft,
    /// `>>=`
    ShiftRight,
    /// `&=`
    BitAnd,
    /// `^=`
    BitXor,
    /// `|=`
    BitOr,
}

/// A binary operator that groups to the left (C11 6.5.5 to 6.5.14), the loosest first.
#[derive(Clone, Copy, PartialEq, Eq)]
pub enum BinaryOp {
    /// `||`
    LogicalOr,
    /// `&&`
    LogicalAnd,
    /// `|`
    BitOr,
    /// `^`
    BitXor,
    /// `&`
    BitAnd,
    /// `==`
    Equal,
    /// `!=`
    NotEqual,
    /// `<`
    Less,
    /// `>`
    Greater,
    /// `<=`
    LessEqual,
    /// `>=`
    GreaterEqual,
    /// `<<`
    ShiftLeft,
    /// `>>`
    ShiftRight,
    /// `+`
    Add,
    /// `-`
    Sub,
    /// `*`
    Mul,
    /// `/`
    Div,
    /// `%`
    Rem,
}

/// A unary operator before its operand (C11 6.5.3).
#[derive(Clone, Copy, PartialEq, Eq)]
pub enum PrefixOp {
    /// `++`
    Increment,
    /// `--`
    Decrement,
    /// `&`
    Address,
    /// `*`
    Indirection,
    /// `+`
    Plus,
    /// `-`
    Minus,
    /// `~`
    BitNot,
    /// `!`
    Not,
}

/// An operator behind its operand (C11 6.5.2.4).
#[derive(Clone, Copy, PartialEq, Eq)]
pub enum PostfixOp {
    /// `++`
    Increment,
    /// `--`
    Decrement,
}

/// The integer type that a type is, as far as values go; none where it is no integer type.
pub fn int_type(ctype: &CType) -> Option<IntType>
    ensures { result ≡ int_type ctype.now }
{
    match ctype {
        CType::Int { width, signed, .. } => Some(IntType {
            width: *width,
            signed: *signed,
        }),
        _ => None,
    }
}

impl BinaryOp {
    /// The operator on two values, none of `||` and `&&`, which need not evaluate both.
    pub fn arithmetic(self) -> Option<BinaryOperator>
        ensures { result ≡ binary_operator self }
    {
        match self {
            BinaryOp::LogicalOr | BinaryOp::LogicalAnd => None,
            BinaryOp::BitOr => Some(BinaryOperator::Or),
            BinaryOp::BitXor => Some(BinaryOperator::Xor),
            BinaryOp::BitAnd => Some(BinaryOperator::And),
            BinaryOp::Equal => Some(BinaryOperator::Equal),
            BinaryOp::NotEqual => Some(BinaryOperator::NotEqual),
            BinaryOp::Less => Some(BinaryOperator::Less),
            BinaryOp::Greater => Some(BinaryOperator::Greater),
            BinaryOp::LessEqual => Some(BinaryOperator::LessEqual),
            BinaryOp::GreaterEqual => Some(BinaryOperator::GreaterEqual),
            BinaryOp::ShiftLeft => Some(BinaryOperator::ShiftLeft),
            BinaryOp::ShiftRight => Some(BinaryOperator::ShiftRight),
            BinaryOp::Add => Some(BinaryOperator::Add),
            BinaryOp::Sub => Some(BinaryOperator::Subtract),
            BinaryOp::Mul => Some(BinaryOperator::Multiply),
            BinaryOp::Div => Some(BinaryOperator::Divide),
            BinaryOp::Rem => Some(BinaryOperator::Remainder),
        }
    }
}

impl AssignOp {
    /// The operator that a compound assignment applies first, none of the plain one.
    pub fn arithmetic(self) -> Option<BinaryOperator>
        ensures { result ≡ assign_operator self }
    {
        match self {
            AssignOp::Plain => None,
            AssignOp::Mul => Some(BinaryOperator::Multiply),
            AssignOp::Div => Some(BinaryOperator::Divide),
            AssignOp::Rem => Some(BinaryOperator::Remainder),
            AssignOp::Add => Some(BinaryOperator::Add),
            AssignOp::Sub => Some(BinaryOperator::Subtract),
            AssignOp::ShiftLeft => Some(BinaryOperator::ShiftLeft),
            AssignOp::ShiftRight => Some(BinaryOperator::ShiftRight),
            AssignOp::BitAnd => Some(BinaryOperator::And),
            AssignOp::BitXor => Some(BinaryOperator::Xor),
            AssignOp::BitOr => Some(BinaryOperator::Or),
        }
    }
}

impl PrefixOp {
    /// The operator on a value alone, none of those that need a place or a pointer.
    pub fn arithmetic(self) -> Option<UnaryOperator>
        ensures { result ≡ unary_operator self }
    {
        match self {
            PrefixOp::Increment | PrefixOp::Decrement | PrefixOp::Address | PrefixOp::Indirection =>
                None,
            PrefixOp::Plus => Some(UnaryOperator::Plus),
            PrefixOp::Minus => Some(UnaryOperator::Minus),
            PrefixOp::BitNot => Some(UnaryOperator::Complement),
            PrefixOp::Not => Some(UnaryOperator::Not),
        }
    }
}
