//! The words of pointers (C11 6.7.6.1).

ghost use Rattle.std.specs.Prelude.{◌≡◌, ◌≤◌, ◌+◌, ◌∷◌, [], is_some, if◌then◌else◌, length, IfOk, IsTrue, IsFalse, MatchOption};
ghost use Rattle.c_tree.specs.declared.nodes.PointerWord.TheVariants as pointer;
ghost use Rattle.parse_meaning.specs.Expressions as grammar;
ghost use Rattle.parse_reading.specs.Reading as spec;
ghost use Rattle.parse_leaves.specs.Runs.{joined};

use c_tokens::Punct;
use c_tree::PointerWord;
use parse_meaning::{Keyword, Terminal};
use parse_tokens::Tokens;
use sqlite_items::Items;
use std::alloc::{AllocError, Global};

fn pointer_word(terminal: Terminal) -> Option<PointerWord>
    ensures { result ≡ grammar.pointer_word terminal }
{
    match terminal {
        Terminal::Punct(Punct::Star) => Some(PointerWord::Star),
        Terminal::Word(Keyword::Const) => Some(PointerWord::Const),
        Terminal::Word(Keyword::Restrict) => Some(PointerWord::Restrict),
        _ => None,
    }
}

/// Takes a star or a qualifier, if one comes next.
#[tactic(auto, unfolding(parse_reading::specs::Reading::pointer_words))]
fn take_pointer_word(tokens: &mut Tokens<'_>) -> Option<PointerWord>
    ensures words { MatchOption result ((spec.pointer_words tokens.old ≡ ([], tokens.old)) × (tokens.new ≡ tokens.old)) (λ word. spec.pointer_words tokens.old ≡ joined (word ∷ []) (spec.pointer_words tokens.new)) }
    ensures on { length tokens.new + (if is_some result then 1 else 0) ≡ length tokens.old }
{
    let word = pointer_word(tokens.peek()?)?;
    tokens.next();
    Some(word)
}

/// Any number of stars and qualifiers, as `* const *`.
pub fn pointer_words(
    alloc: Global,
    tokens: &mut Tokens<'_>,
) -> Result<Items<PointerWord>, AllocError>
    ensures reads { IfOk result (λ words. spec.pointer_words tokens.old ≡ (words, tokens.new)) }
    ensures on { IfOk result (λ _. length tokens.new ≤ length tokens.old) }
{
    let mut words = Items::new(alloc);
    while let Some(word) = take_pointer_word(tokens) {
        words.push(word)?;
    }
    Ok(words)
}

/// Takes a star, if one comes next.
#[tactic(auto, unfolding(parse_reading::specs::Reading::stars))]
fn take_star(tokens: &mut Tokens<'_>) -> bool
    ensures taken { IsTrue result → (spec.stars tokens.old ≡ joined (pointer.Star ∷ []) (spec.stars tokens.new)) × (length tokens.old ≡ length tokens.new + 1) }
    ensures other { IsFalse result → (spec.stars tokens.old ≡ ([], tokens.old)) × (tokens.new ≡ tokens.old) }
{
    match tokens.peek() {
        Some(Terminal::Punct(Punct::Star)) => {
            tokens.next();
            true
        }
        _ => false,
    }
}

/// Any number of stars.
pub fn stars(alloc: Global, tokens: &mut Tokens<'_>) -> Result<Items<PointerWord>, AllocError>
    ensures reads { IfOk result (λ words. spec.stars tokens.old ≡ (words, tokens.new)) }
    ensures on { IfOk result (λ _. length tokens.new ≤ length tokens.old) }
{
    let mut words = Items::new(alloc);
    while take_star(tokens) {
        words.push(PointerWord::Star)?;
    }
    Ok(words)
}
