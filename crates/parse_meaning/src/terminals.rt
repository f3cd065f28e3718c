//! What a token is to the grammar.

use c_tokens::Punct;

/// A keyword of C11 6.4.1 that the grammar has, or one of its two extensions.
#[derive(Clone, Copy, PartialEq, Eq)]
pub enum Keyword {
    /// `__attribute__`
    Attribute,
    Break,
    Case,
    Char,
    Const,
    Continue,
    Default,
    Do,
    /// `__builtin_dynamic_object_size`
    DynamicObjectSize,
    Else,
    Enum,
    Extern,
    For,
    If,
    Inline,
    Int,
    Long,
    Restrict,
    Return,
    Short,
    Signed,
    Sizeof,
    Static,
    Struct,
    Switch,
    Typedef,
    Union,
    Unsigned,
    Void,
    While,
}

/// What a token is to the grammar. Its text, value and place are the token's.
#[derive(Clone, Copy)]
pub enum Terminal {
    /// A name that is neither a keyword nor the name of a type.
    Name,
    /// A typedef's name.
    Type,
    /// A number or a character constant.
    Constant,
    /// A string literal.
    Str,
    Word(Keyword),
    Punct(Punct),
    /// An inclusion that has been carried out.
    Header,
    /// A token that no production has.
    Other,
}

/// A kind of bracket.
#[derive(Clone, Copy, PartialEq, Eq)]
pub enum Brackets {
    /// `(` and `)`
    Round,
    /// `[` and `]`
    Square,
    /// `{` and `}`
    Curly,
}
