//! How tightly operators bind (C11 6.5).

ghost use Rattle.std.specs.Prelude.{◌≡◌, nat_le, option_map};
ghost use Rattle.macro_conditions.specs.Trees.{level_of};
ghost use Rattle.macro_conditions.specs.Machine.{own_level};
ghost use Rattle.macro_conditions.specs.Numbers.{number_of};

use c_tokens::Punct;

/// A level of expressions, by its production in C11 6.5 and 6.6, from the loosest on.
#[derive(Clone, Copy, PartialEq, PartialOrd)]
pub enum Level {
    Expression,
    Conditional,
    LogicalOr,
    LogicalAnd,
    BitOr,
    BitXor,
    BitAnd,
    Equality,
    Relational,
    Shift,
    Additive,
    Multiplicative,
}

impl Level {
    /// The level is the other one or a looser one.
    pub fn is_within(self, other: Level) -> bool
        ensures { result ≡ nat_le (number_of self) (number_of other) }
    {
        self <= other
    }
}

/// The level of a binary operator (C11 6.5.5 to 6.5.14).
pub fn level_of(operator: Punct) -> Option<Level>
    ensures { option_map number_of result ≡ level_of operator }
{
    match operator {
        Punct::Star | Punct::Slash | Punct::Percent => Some(Level::Multiplicative),
        Punct::Plus | Punct::Minus => Some(Level::Additive),
        Punct::ShiftLeft | Punct::ShiftRight => Some(Level::Shift),
        Punct::Less | Punct::Greater | Punct::LessEqual | Punct::GreaterEqual => {
            Some(Level::Relational)
        }
        Punct::EqualEqual | Punct::NotEqual => Some(Level::Equality),
        Punct::Ampersand => Some(Level::BitAnd),
        Punct::Caret => Some(Level::BitXor),
        Punct::Bar => Some(Level::BitOr),
        Punct::AndAnd => Some(Level::LogicalAnd),
        Punct::OrOr => Some(Level::LogicalOr),
        _ => None,
    }
}

/// The level of an operator, and the loosest one of any other punctuator.
pub fn own_level(operator: Punct) -> Level
    ensures { number_of result ≡ own_level operator }
{
    level_of(operator).unwrap_or(Level::Expression)
}
