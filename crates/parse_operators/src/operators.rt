//! How an expression goes on with a token.

ghost use Rattle.std.specs.Prelude.{◌≡◌, ◌≤◌};
ghost use Rattle.parse_reading.specs.Reading as spec;

use crate::levels::{
    ADDITIVE, ASSIGNMENT, BIT_AND, BIT_OR, BIT_XOR, CAST, CONDITIONAL, EQUALITY, EXPRESSION,
    LOGICAL_AND, LOGICAL_OR, MULTIPLICATIVE, NO_LEVEL, POSTFIX, PRIMARY, RELATIONAL, SHIFT, UNARY,
};
use c_tokens::Punct;
use c_tree::{AssignOp, BinaryOp, PostfixOp};
use parse_meaning::Terminal;
use parse_reading::Operator;
use parse_tokens::Tokens;

fn operator_of_punct(punct: Punct) -> Operator
    ensures { result ≡ spec.operator_of_punct punct }
{
    match punct {
        Punct::LeftParen => Operator::Call,
        Punct::LeftBracket => Operator::Index,
        Punct::Dot => Operator::Member { arrow: false },
        Punct::Arrow => Operator::Member { arrow: true },
        Punct::PlusPlus => Operator::Step(PostfixOp::Increment),
        Punct::MinusMinus => Operator::Step(PostfixOp::Decrement),
        Punct::Question => Operator::Choice,
        Punct::Comma => Operator::List,
        Punct::Assign => Operator::Assign(AssignOp::Plain),
        Punct::StarAssign => Operator::Assign(AssignOp::Mul),
        Punct::SlashAssign => Operator::Assign(AssignOp::Div),
        Punct::PercentAssign => Operator::Assign(AssignOp::Rem),
        Punct::PlusAssign => Operator::Assign(AssignOp::Add),
        Punct::MinusAssign => Operator::Assign(AssignOp::Sub),
        Punct::ShiftLeftAssign => Operator::Assign(AssignOp::ShiftLeft),
        Punct::ShiftRightAssign => Operator::Assign(AssignOp::ShiftRight),
        Punct::AmpersandAssign => Operator::Assign(AssignOp::BitAnd),
        Punct::CaretAssign => Operator::Assign(AssignOp::BitXor),
        Punct::BarAssign => Operator::Assign(AssignOp::BitOr),
        Punct::Star => Operator::Join(BinaryOp::Mul, CAST),
        Punct::Slash => Operator::Join(BinaryOp::Div, CAST),
        Punct::Percent => Operator::Join(BinaryOp::Rem, CAST),
        Punct::Plus => Operator::Join(BinaryOp::Add, MULTIPLICATIVE),
        Punct::Minus => Operator::Join(BinaryOp::Sub, MULTIPLICATIVE),
        Punct::ShiftLeft => Operator::Join(BinaryOp::ShiftLeft, ADDITIVE),
        Punct::ShiftRight => Operator::Join(BinaryOp::ShiftRight, ADDITIVE),
        Punct::Less => Operator::Join(BinaryOp::Less, SHIFT),
        Punct::Greater => Operator::Join(BinaryOp::Greater, SHIFT),
        Punct::LessEqual => Operator::Join(BinaryOp::LessEqual, SHIFT),
        Punct::GreaterEqual => Operator::Join(BinaryOp::GreaterEqual, SHIFT),
        Punct::EqualEqual => Operator::Join(BinaryOp::Equal, RELATIONAL),
        Punct::NotEqual => Operator::Join(BinaryOp::NotEqual, RELATIONAL),
        Punct::Ampersand => Operator::Join(BinaryOp::BitAnd, EQUALITY),
        Punct::Caret => Operator::Join(BinaryOp::BitXor, BIT_AND),
        Punct::Bar => Operator::Join(BinaryOp::BitOr, BIT_XOR),
        Punct::AndAnd => Operator::Join(BinaryOp::LogicalAnd, BIT_OR),
        Punct::OrOr => Operator::Join(BinaryOp::LogicalOr, LOGICAL_AND),
        _ => Operator::End,
    }
}

/// What the token does to an expression before it.
#[tactic(auto, using(crate::proofs::PunctLevels::punct_low))]
pub fn operator_of(terminal: Terminal) -> Operator
    ensures role { result ≡ spec.operator_of terminal }
    ensures low { spec.operator_binds result ≤ 17 }
{
    match terminal {
        Terminal::Punct(punct) => operator_of_punct(punct),
        Terminal::Str => Operator::Str,
        _ => Operator::End,
    }
}

/// The level that an expression has once it has gone on so.
fn operator_binds(role: Operator) -> u8
    requires { spec.operator_binds role ≤ 17 }
    ensures { result ≡ spec.operator_binds role }
{
    match role {
        Operator::Call | Operator::Index | Operator::Member { .. } | Operator::Step(_) => POSTFIX,
        Operator::Choice => CONDITIONAL,
        Operator::Assign(_) => ASSIGNMENT,
        Operator::Join(_, level) => level + 1,
        Operator::List => EXPRESSION,
        Operator::Str => PRIMARY,
        Operator::End => NO_LEVEL,
    }
}

/// The loosest level that an expression may have to go on so.
pub fn operator_takes(role: Operator) -> u8
    requires { spec.operator_binds role ≤ 17 }
    ensures { result ≡ spec.operator_takes role }
{
    match role {
        Operator::Call | Operator::Index | Operator::Member { .. } | Operator::Step(_) => POSTFIX,
        Operator::Choice => LOGICAL_OR,
        Operator::Assign(_) => UNARY,
        Operator::Join(_, level) => level + 1,
        Operator::List => ASSIGNMENT,
        Operator::Str | Operator::End => PRIMARY,
    }
}

/// The level that an expression has once it has gone on with the next token; past all levels where it ends.
pub fn binds(tokens: &Tokens<'_>) -> u8
    ensures { result ≡ spec.binds tokens.now }
{
    match tokens.peek() {
        Some(terminal) => operator_binds(operator_of(terminal)),
        None => NO_LEVEL,
    }
}
