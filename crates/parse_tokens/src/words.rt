//! The spellings of keywords.

ghost use Rattle.std.specs.Prelude.{◌≡◌, ℕ, List, ◌∷◌};
ghost use Rattle.parse_meaning.specs.Terminals.{keyword_in, keywords};
ghost use Rattle.parse_tokens.specs.Words.{spelling_of, rows_of};

use parse_meaning::Keyword;

fn spelling(word: Keyword) -> &'static str
    ensures { result.now ≡ spelling_of word }
{
    match word {
        Keyword::Attribute => "__attribute__",
        Keyword::DynamicObjectSize => "__builtin_dynamic_object_size",
        Keyword::Break => "break",
        Keyword::Case => "case",
        Keyword::Char => "char",
        Keyword::Const => "const",
        Keyword::Continue => "continue",
        Keyword::Default => "default",
        Keyword::Do => "do",
        Keyword::Else => "else",
        Keyword::Enum => "enum",
        Keyword::Extern => "extern",
        Keyword::For => "for",
        Keyword::If => "if",
        Keyword::Inline => "inline",
        Keyword::Int => "int",
        Keyword::Long => "long",
        Keyword::Restrict => "restrict",
        Keyword::Return => "return",
        Keyword::Short => "short",
        Keyword::Signed => "signed",
        Keyword::Sizeof => "sizeof",
        Keyword::Static => "static",
        Keyword::Struct => "struct",
        Keyword::Switch => "switch",
        Keyword::Typedef => "typedef",
        Keyword::Union => "union",
        Keyword::Unsigned => "unsigned",
        Keyword::Void => "void",
        Keyword::While => "while",
    }
}

/// The keywords that begin with the byte.
fn words_from(first: u8) -> &'static [Keyword]
    ensures { (rest : List ℕ) → keyword_in (rows_of result.now) (first ∷ rest) ≡ keyword_in keywords (first ∷ rest) }
{
    match first {
        b'_' => &[Keyword::Attribute, Keyword::DynamicObjectSize],
        b'b' => &[Keyword::Break],
        b'c' => &[
            Keyword::Case,
            Keyword::Char,
            Keyword::Const,
            Keyword::Continue,
        ],
        b'd' => &[Keyword::Default, Keyword::Do],
        b'e' => &[Keyword::Else, Keyword::Enum, Keyword::Extern],
        b'f' => &[Keyword::For],
        b'i' => &[Keyword::If, Keyword::Inline, Keyword::Int],
        b'l' => &[Keyword::Long],
        b'r' => &[Keyword::Restrict, Keyword::Return],
        b's' => &[
            Keyword::Short,
            Keyword::Signed,
            Keyword::Sizeof,
            Keyword::Static,
            Keyword::Struct,
            Keyword::Switch,
        ],
        b't' => &[Keyword::Typedef],
        b'u' => &[Keyword::Union, Keyword::Unsigned],
        b'v' => &[Keyword::Void],
        b'w' => &[Keyword::While],
        _ => &[],
    }
}

/// The one of the words that the name spells.
fn word_among(words: &[Keyword], name: &[u8]) -> Option<Keyword>
    ensures { result ≡ keyword_in (rows_of words.now) name.now }
{
    for &word in words {
        if spelling(word).as_bytes() == name {
            return Some(word);
        }
    }
    None
}

/// The keyword that the name spells, where it spells one (C11 6.4.1). Only words with its first byte are compared.
pub fn keyword(name: &[u8]) -> Option<Keyword>
    ensures { result ≡ keyword_in keywords name.now }
{
    match name {
        [first, ..] => word_among(words_from(*first), name),
        [] => None,
    }
}
