//! Conditions, with the answers that C11 6.6 and the rules of the subset give them, worked out by hand.

use crate::values::assert_same;
use c_tokens::{NumberKind, Punct, TokenKind};
use fc_base::{NoMemory, Text};
use macro_conditions::condition;
use std::alloc::{AllocError, Global};
use std::process::Abort;
use std::test::Fail;

/// The punctuators of the rows.
const PUNCTS: &[Punct] = &[
    Punct::LeftParen,
    Punct::RightParen,
    Punct::Plus,
    Punct::Minus,
    Punct::Tilde,
    Punct::Exclamation,
    Punct::Star,
    Punct::Slash,
    Punct::Percent,
    Punct::ShiftLeft,
    Punct::ShiftRight,
    Punct::Less,
    Punct::Greater,
    Punct::LessEqual,
    Punct::GreaterEqual,
    Punct::EqualEqual,
    Punct::NotEqual,
    Punct::Ampersand,
    Punct::Caret,
    Punct::Bar,
    Punct::AndAnd,
    Punct::OrOr,
    Punct::Question,
    Punct::Colon,
    Punct::Comma,
];

/// The kind of a word: a punctuator, a decimal number with or without `u`, a character constant by its number between
/// quotes, a string literal, or a name.
fn kind(alloc: Global, word: &str) -> Result<TokenKind, NoMemory> {
    for &punct in PUNCTS {
        if punct.spelling() == word {
            return Ok(TokenKind::Punct(punct));
        }
    }
    if let Ok(value) = word.trim_end_matches('u').parse::<u64>() {
        let kind = NumberKind {
            decimal: true,
            unsigned: word.ends_with('u'),
            longs: 0,
        };
        return Ok(TokenKind::Number { value, kind });
    }
    if let Ok(byte) = word.trim_matches('\'').parse::<u8>() {
        return Ok(TokenKind::CharConst(byte));
    }
    let text = Text::from_bytes(alloc, word.as_bytes())?;
    if word.starts_with('"') {
        Ok(TokenKind::Str(text))
    } else {
        Ok(TokenKind::Name(text))
    }
}

fn push_word(alloc: Global, kinds: &mut Vec<TokenKind>, word: &str) -> Result<(), NoMemory> {
    let kind = kind(alloc, word)?;
    Ok(kinds.push(kind)?)
}

fn push_words(alloc: Global, kinds: &mut Vec<TokenKind>, text: &str) -> Result<(), NoMemory> {
    for word in text.split_ascii_whitespace() {
        push_word(alloc, kinds, word)?;
    }
    Ok(())
}

/// What the kinds decide as a line.
fn decided_by(alloc: Global, kinds: &[TokenKind]) -> Result<Option<bool>, AllocError> {
    let line: Vec<&TokenKind> = kinds.iter().collect(alloc)?;
    condition(alloc, &line)
}

fn decided(alloc: Global, text: &str) -> Result<Option<bool>, NoMemory> {
    let mut kinds = Vec::new(alloc);
    push_words(alloc, &mut kinds, text)?;
    let decision = decided_by(alloc, &kinds);
    Ok(decision?)
}

/// Asserts of each text that it decides this.
fn assert_decided(
    rt: &impl Abort,
    alloc: Global,
    texts: &[&str],
    want: Option<bool>,
) -> Result<(), NoMemory> {
    for &text in texts {
        let decision = decided(alloc, text)?;
        assert_same(rt, (text, decision), (text, want));
    }
    Ok(())
}

/// Conditions that hold.
const HOLDING: &[&str] = &[
    "1",
    "int + sizeof == 0",
    // the levels of operators, and how each groups
    "2 + 3 * 4 == 14",
    "1 - 2 - 3 == - 4",
    "100 / 10 / 5 == 2",
    "1 << 2 + 1 == 8",
    "1 < 2 == 1",
    "( 1 | 6 ^ 4 & 5 ) == 3",
    "1 || 0 && 0",
    "+ - ~ ! 1 == 1",
    "1 ? 2 : 0 ? 0 : 0",
    "1 ? 1 : 0 ? 1 / 0 : 1 / 0",
    "0 ? 1 , 2 : 3",
    // the usual conversions
    "- 1 > 0u",
    "- 1 < 0",
    "( 1 ? - 1 : 0u ) > 0",
    "( 0 ? 0u : - 1 ) > 0",
    "- 1 * 1u > 0",
    "1u << 0 > - 1 == 0",
    "! 0u - 2 < 0",
    "~ 0u == 18446744073709551615u",
    "~ 0 == - 1",
    // signed division, and shifts
    "- 7 / 2 == - 3",
    "- 7 % 2 == - 1",
    "7 % - 2 == 1",
    "- 1 >> 63 == - 1",
    "9223372036854775808 >> 63 == 1",
    "1 << 63 < 0",
    // literals, and sums that wrap
    "9223372036854775808 > 0",
    "- 9223372036854775808 > 0",
    "9223372036854775807 + 1 < 0",
    "18446744073709551615 + 1 == 0",
    "'255' == - 1",
    "'255' < 0",
    "'127' > 0",
    // operands that are not evaluated
    "( 2 || 1 / 0 ) && ( 1 ? 2 : 1 / 0 )",
    "( 0 && ( 1 << 64 , 1 ) ) == 0",
];

/// Conditions that do not.
const FAILING: &[&str] = &[
    "0",
    "name",
    "3 > 2 > 1",
    "1 ? ( 0 ? 1 : 0 ) : 1",
    "0 && 1 / 0",
    "- 1 < 0u",
    "0 ? 1 : 2 == 1",
];

/// Lines that are no condition, or have no value.
const BAD: &[&str] = &[
    // no constant expression
    "",
    "\"a\"",
    "1 1",
    "1 = 1",
    "( ( 1 )",
    "1 )",
    "( )",
    "1 +",
    "* 1",
    "1 ? 2",
    "1 ? : 2",
    "1 : 2",
    "sizeof ( int )",
    "( int ) 3",
    "0 , 1",
    "1 ? 2 : 3 , 4",
    // no value
    "1 / 0",
    "1 % 0",
    "( - 9223372036854775807 - 1 ) / - 1",
    "( - 9223372036854775807 - 1 ) % - 1",
    "1 << 64",
    "1 << - 1",
    "( 1 , 1 )",
    "1 && ( 1 , 1 )",
];

#[test]
fn rows_of_conditions(rt: HostRuntime) -> Result<(), Fail> {
    let alloc = rt.alloc();
    assert_decided(&rt, alloc, HOLDING, Some(true))?;
    assert_decided(&rt, alloc, FAILING, Some(false))?;
    Ok(assert_decided(&rt, alloc, BAD, None)?)
}
