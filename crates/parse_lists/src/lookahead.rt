//! Whether a parameter has a name.

ghost use Rattle.std.specs.Prelude.{◌≡◌};
ghost use Rattle.parse_reading.specs.Reading.{pointer_words, stars};
ghost use Rattle.parse_lists.specs.Pointers.{begins_pointer_word};
ghost use Rattle.parse_reading.specs.ReadingDeclarators as spec;

use c_tokens::Punct;
use parse_meaning::{Keyword, Terminal};
use parse_tokens::Tokens;

/// Whether a star or a qualifier comes next.
fn begins_pointer_word(tokens: &Tokens<'_>) -> bool
    ensures { result ≡ begins_pointer_word tokens.now }
{
    matches!(
        tokens.peek(),
        Some(Terminal::Punct(Punct::Star) | Terminal::Word(Keyword::Const | Keyword::Restrict))
    )
}

/// Passes any number of stars and qualifiers, as `* const *`.
#[tactic(auto, unfolding(parse_reading::specs::Reading::pointer_words))]
fn pass_pointer_words(tokens: &mut Tokens<'_>)
    ensures { tokens.new ≡ (pointer_words tokens.old).1 }
{
    while begins_pointer_word(tokens) {
        tokens.next();
    }
}

/// Passes any number of stars.
#[tactic(auto, unfolding(parse_reading::specs::Reading::stars))]
fn pass_stars(tokens: &mut Tokens<'_>)
    ensures { tokens.new ≡ (stars tokens.old).1 }
{
    while let Some(Terminal::Punct(Punct::Star)) = tokens.peek() {
        tokens.next();
    }
}

/// Whether a direct declarator has a name: `x`, or `(` with more than stars before the `)`.
fn names_direct(tokens: &mut Tokens<'_>) -> bool
    ensures { result ≡ spec.names_direct tokens.old }
{
    match tokens.next() {
        Some((Terminal::Name, _)) => true,
        Some((Terminal::Punct(Punct::LeftParen), _)) => {
            pass_stars(tokens);
            !matches!(tokens.peek(), Some(Terminal::Punct(Punct::RightParen)))
        }
        _ => false,
    }
}

/// Whether what follows the specifiers of a parameter has a name (C11 6.7.6), and is not abstract (C11 6.7.7).
pub fn names(tokens: &Tokens<'_>) -> bool
    ensures { result ≡ spec.names tokens.now }
{
    let mut ahead = tokens.fork();
    if let Some(Terminal::Punct(Punct::Star)) = ahead.peek() {
        ahead.next();
        pass_pointer_words(&mut ahead);
    }
    names_direct(&mut ahead)
}
