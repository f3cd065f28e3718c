//! Punctuators (C11 6.4.6).

ghost use Rattle.std.specs.Prelude.{◌≡◌};
ghost use Rattle.c_lexer.specs.Runs.{operator, one_byte, with_assign, doubled, two_bytes, three_bytes, first_one, first_two, first_three, first_punct};

use c_tokens::Punct;

#[tactic(auto, unfolding(crate::specs::Runs::operator))]
fn operator(a: u8) -> Option<Punct>
    ensures { result ≡ operator a }
{
    match a {
        b'+' => Some(Punct::Plus),
        b'-' => Some(Punct::Minus),
        b'*' => Some(Punct::Star),
        b'/' => Some(Punct::Slash),
        b'%' => Some(Punct::Percent),
        b'&' => Some(Punct::Ampersand),
        b'|' => Some(Punct::Bar),
        b'^' => Some(Punct::Caret),
        b'~' => Some(Punct::Tilde),
        b'!' => Some(Punct::Exclamation),
        b'<' => Some(Punct::Less),
        b'>' => Some(Punct::Greater),
        b'=' => Some(Punct::Assign),
        _ => None,
    }
}

#[tactic(auto, unfolding(crate::specs::Runs::one_byte))]
fn one_byte(a: u8) -> Option<Punct>
    ensures { result ≡ one_byte a }
{
    match a {
        b'[' => Some(Punct::LeftBracket),
        b']' => Some(Punct::RightBracket),
        b'(' => Some(Punct::LeftParen),
        b')' => Some(Punct::RightParen),
        b'{' => Some(Punct::LeftBrace),
        b'}' => Some(Punct::RightBrace),
        b'.' => Some(Punct::Dot),
        b',' => Some(Punct::Comma),
        b';' => Some(Punct::Semicolon),
        b':' => Some(Punct::Colon),
        b'?' => Some(Punct::Question),
        b'#' => Some(Punct::Hash),
        _ => operator(a),
    }
}

/// What the byte and `=` spell.
#[tactic(auto, unfolding(crate::specs::Runs::with_assign))]
fn with_assign(a: u8) -> Option<Punct>
    ensures { result ≡ with_assign a }
{
    match a {
        b'+' => Some(Punct::PlusAssign),
        b'-' => Some(Punct::MinusAssign),
        b'*' => Some(Punct::StarAssign),
        b'/' => Some(Punct::SlashAssign),
        b'%' => Some(Punct::PercentAssign),
        b'&' => Some(Punct::AmpersandAssign),
        b'|' => Some(Punct::BarAssign),
        b'^' => Some(Punct::CaretAssign),
        b'!' => Some(Punct::NotEqual),
        b'<' => Some(Punct::LessEqual),
        b'>' => Some(Punct::GreaterEqual),
        b'=' => Some(Punct::EqualEqual),
        _ => None,
    }
}

/// What the byte spells twice.
#[tactic(auto, unfolding(crate::specs::Runs::doubled))]
fn doubled(a: u8) -> Option<Punct>
    ensures { result ≡ doubled a }
{
    match a {
        b'+' => Some(Punct::PlusPlus),
        b'-' => Some(Punct::MinusMinus),
        b'&' => Some(Punct::AndAnd),
        b'|' => Some(Punct::OrOr),
        b'<' => Some(Punct::ShiftLeft),
        b'>' => Some(Punct::ShiftRight),
        b'#' => Some(Punct::HashHash),
        _ => None,
    }
}

fn two_bytes(a: u8, b: u8) -> Option<Punct>
    ensures { result ≡ two_bytes a b }
{
    if b == b'=' {
        with_assign(a)
    } else if a == b {
        doubled(a)
    } else if a == b'-' && b == b'>' {
        Some(Punct::Arrow)
    } else {
        None
    }
}

fn three_bytes(a: u8, b: u8, c: u8) -> Option<Punct>
    ensures { result ≡ three_bytes a b c }
{
    if a == b'.' && b == b'.' && c == b'.' {
        Some(Punct::Ellipsis)
    } else if a == b'<' && b == b'<' && c == b'=' {
        Some(Punct::ShiftLeftAssign)
    } else if a == b'>' && b == b'>' && c == b'=' {
        Some(Punct::ShiftRightAssign)
    } else {
        None
    }
}

fn first_one(bytes: &[u8]) -> Option<Punct>
    ensures { result ≡ first_one bytes.now }
{
    match bytes {
        [a, ..] => one_byte(*a),
        [] => None,
    }
}

fn first_two(bytes: &[u8]) -> Option<Punct>
    ensures { result ≡ first_two bytes.now }
{
    match bytes {
        [a, b, ..] => two_bytes(*a, *b),
        _ => None,
    }
}

fn first_three(bytes: &[u8]) -> Option<Punct>
    ensures { result ≡ first_three bytes.now }
{
    match bytes {
        [a, b, c, ..] => three_bytes(*a, *b, *c),
        _ => None,
    }
}

/// The longest punctuator at the front, with its length.
pub fn punctuator(bytes: &[u8]) -> Option<(usize, Punct)>
    ensures { result ≡ first_punct bytes.now }
{
    if let Some(punct) = first_three(bytes) {
        return Some((3, punct));
    }
    if let Some(punct) = first_two(bytes) {
        return Some((2, punct));
    }
    let punct = first_one(bytes)?;
    Some((1, punct))
}
