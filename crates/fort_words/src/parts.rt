//! Parts of a command, each at a place of the words.

ghost use Rattle.std.specs.Prelude.{◌≡◌, ◌∷◌, ◌+◌, ◌^◌, ◌<◌, ◌≤◌, List, [], ℕ, Option, IsNone, IfSome, IsTrue, drop, length, nat_le, unwrap_or};
ghost use Rattle.std.specs.Option.{option_map};
ghost use Rattle.run_meaning.specs.Worlds.{arguments_size, most_arguments, ArgumentsFit};
ghost use Rattle.fort_words.specs.Commands.{Command, is_name, number_of, most_steps, steps_read, name_read, names_read, args_read, plain_args};

use crate::commands::Arguments;
use fc_base::Words;
use itoa::Buffer;

/// The greatest bound on steps that may be written.
const MOST_STEPS: u64 = 1_099_511_627_776;

/// What the program's arguments may count together, each its length and 32.
const MOST_ARGUMENTS: usize = 524_288;

/// What an argument counts beside its length.
const ARGUMENT_ROOM: usize = 32;

/// A name isn't empty and doesn't begin with `-`.
fn is_name(word: &str) -> bool
    ensures { result ≡ is_name word.now }
{
    match word.as_bytes().first() {
        Some(byte) => *byte != b'-',
        None => false,
    }
}

/// A number of these bounds, in decimal digits without a leading zero.
fn number_of(word: &str, low: u64, high: u64) -> Option<u64>
    ensures { result ≡ number_of low high word.now }
{
    let Ok(number) = word.parse::<u64>() else {
        return None;
    };
    if Buffer::new().format(number) != word {
        return None;
    }
    if number < low || high < number {
        return None;
    }
    Some(number)
}

/// The word at a place.
pub fn word_at(words: &Words, at: usize) -> &str
    requires { at < length words.now }
    ensures { drop at words.now ≡ result.now ∷ drop (at + 1) words.now }
{
    let Some(word) = words.get(at) else {
        unreachable!()
    };
    word
}

/// The bound that is written at a place, where `--steps` stands there.
fn bound_at(words: &Words, at: usize) -> Option<u64>
    requires { at < 2 ^ 32 }
    ensures { result ≡ (steps_read (drop at words.now)).0 }
{
    if words.get(at)? != "--steps" {
        return None;
    }
    number_of(words.get(at + 1)?, 1, MOST_STEPS)
}

/// The bound that is written at a place, if any, and the place behind it.
pub fn steps_at(words: &Words, at: usize) -> (Option<u64>, usize)
    requires { at < 2 ^ 32 }
    ensures steps { result.0 ≡ (steps_read (drop at words.now)).0 }
    ensures rest { drop result.1 words.now ≡ (steps_read (drop at words.now)).1 }
    ensures near { result.1 ≤ at + 2 }
{
    match bound_at(words, at) {
        Some(bound) => (Some(bound), at + 2),
        None => (None, at),
    }
}

/// The name at a place.
pub fn name_at(words: &Words, at: usize) -> Option<&str>
    ensures some { IfSome result (λ name. IsTrue (is_name name.now) × (drop at words.now ≡ name.now ∷ drop (at + 1) words.now)) }
    ensures none { IsNone result → (next : List ℕ → List (List ℕ) → Option Command) → name_read next (drop at words.now) ≡ None }
{
    let word = words.get(at)?;
    if is_name(word) { Some(word) } else { None }
}

/// The names of a source and of its image, at a place.
pub fn names_at(words: &Words, at: usize) -> Option<(&str, &str)>
    requires { at < 2 ^ 32 }
    ensures some { IfSome result (λ names. (next : List ℕ → List ℕ → List (List ℕ) → Option Command)
        → names_read next (drop at words.now) ≡ next names.0.now names.1.now (drop (at + 2) words.now)) }
    ensures none { IsNone result → (next : List ℕ → List ℕ → List (List ℕ) → Option Command) → names_read next (drop at words.now) ≡ None }
{
    let file = name_at(words, at)?;
    let image = name_at(words, at + 1)?;
    if file == image {
        None
    } else {
        Some((file, image))
    }
}

/// The program's arguments behind `--` at a place, or none where no word stands there. No other word may.
pub fn args_at(words: &Words, at: usize) -> Option<Option<Arguments<'_>>>
    requires { at < 2 ^ 32 }
    ensures args { (made : Option (List (List ℕ)) → Command)
        → args_read made (drop at words.now) ≡ option_map (λ args. made (plain_args args)) result }
    ensures fit { IfSome result (λ args. ArgumentsFit (unwrap_or (plain_args args) [])) }
{
    let Some(word) = words.get(at) else {
        return Some(None);
    };
    if word == "--" && do_fit(words, at + 1) {
        Some(Some(Arguments {
            words,
            first: at + 1,
        }))
    } else {
        None
    }
}

/// Whether the words from a place on are no more than the program's arguments may be.
fn do_fit(words: &Words, first: usize) -> bool
    ensures { result ≡ nat_le (arguments_size (drop first words.now)) most_arguments }
{
    let mut room = MOST_ARGUMENTS;
    for at in first..words.len() {
        let size = word_at(words, at).len() + ARGUMENT_ROOM;
        if size > room {
            return false;
        }
        room -= size;
    }
    true
}
