//! Kinds of terminals.

ghost use Rattle.std.specs.Prelude.{◌≡◌};
ghost use Rattle.parse_reading.specs.Reading.{is_spec, is_spec_word};
ghost use Rattle.parse_meaning.specs.Terminals.{is_tag, is_word};

use parse_meaning::{Keyword, Terminal};

/// A tag or a member: a name, which may be that of a type (C11 6.2.3).
pub fn is_tag(terminal: Terminal) -> bool
    ensures { result ≡ is_tag terminal }
{
    matches!(terminal, Terminal::Name | Terminal::Type)
}

/// Any name, a keyword too, as the name of an attribute (GCC manual, "Attribute Syntax").
pub fn is_word(terminal: Terminal) -> bool
    ensures { result ≡ is_word terminal }
{
    matches!(
        terminal,
        Terminal::Name | Terminal::Type | Terminal::Word(_)
    )
}

fn is_spec_word(word: Keyword) -> bool
    ensures { result ≡ is_spec_word word }
{
    matches!(
        word,
        Keyword::Typedef
            | Keyword::Extern
            | Keyword::Static
            | Keyword::Inline
            | Keyword::Const
            | Keyword::Attribute
            | Keyword::Void
            | Keyword::Char
            | Keyword::Short
            | Keyword::Int
            | Keyword::Long
            | Keyword::Signed
            | Keyword::Unsigned
            | Keyword::Struct
            | Keyword::Union
            | Keyword::Enum
    )
}

/// What a specifier begins with (C11 6.7.1 to 6.7.4), an attribute list too.
pub fn is_spec(terminal: Terminal) -> bool
    ensures { result ≡ is_spec terminal }
{
    match terminal {
        Terminal::Type => true,
        Terminal::Word(word) => is_spec_word(word),
        _ => false,
    }
}
