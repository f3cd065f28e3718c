//! The conditions of `if` and `elif` directives (C11 6.10.1).

ghost use Rattle.std.specs.Prelude.{◌≡◌, ◌+◌, ◌≤◌, length, IfOk, IfSome, option_map, map, if◌then◌else◌, Some, None, []};
ghost use Rattle.macro_meaning.specs.Macros.{item, items};
ghost use Rattle.macro_meaning.specs.Conditions.{asks_defined, answer};
ghost use Rattle.macro_meaning.specs.Answering.{asked_in_brackets, asked, with_answers};
ghost use Rattle.macro_items.specs.Views.{table, view, views};
ghost use Rattle.macro_conditions.specs.Conditions.{now, Decides};
ghost use Rattle.macro_lines.specs.Conditions.{HoldsAs};

use crate::builtins::Builtins;
use crate::lines::{after, is_defined_word, name_of};
use c_tokens::{Token, TokenKind};
use fc_base::{Fault, Place, Rule};
use macro_conditions::condition;
use macro_items::{HideSet, Item, Macros, closes, find, opens};
use macro_replacement::replace;
use std::alloc::{AllocError, Global};

/// The name between brackets, and how many tokens `( NAME )` are.
fn asked_in_brackets(tokens: &[Token]) -> Option<(&[u8], usize)>
    ensures found { option_map (λ r. (r.0.now, r.1)) result ≡ asked_in_brackets tokens.now }
    ensures within { IfSome result (λ r. r.1 ≤ length tokens.now + 1) }
{
    if tokens.len() < 2 || !closes(&tokens[1].kind) {
        return None;
    }
    match name_of(&tokens[0].kind) {
        Some(name) => Some((name, 3)),
        None => None,
    }
}

/// The name that `defined` asks for, by the tokens after it, and how many of these belong to it.
fn asked(tokens: &[Token]) -> Option<(&[u8], usize)>
    ensures found { option_map (λ r. (r.0.now, r.1)) result ≡ asked tokens.now }
    ensures within { IfSome result (λ r. r.1 ≤ length tokens.now) }
{
    if tokens.is_empty() {
        return None;
    }
    if opens(&tokens[0].kind) {
        return asked_in_brackets(after(tokens, 1));
    }
    match name_of(&tokens[0].kind) {
        Some(name) => Some((name, 1)),
        None => None,
    }
}

fn asks_defined(kind: &TokenKind) -> bool
    ensures { result ≡ asks_defined kind.now }
{
    match kind {
        TokenKind::Name(name) => is_defined_word(name.bytes()),
        _ => false,
    }
}

/// A token of a text or a line, under expansion.
pub fn item<'a>(kind: &'a TokenKind, token: &Token) -> Item<'a>
    ensures { view result ≡ item (record token.now { kind = kind.now }) }
{
    Item {
        kind,
        place: token.place,
        starts_line: token.starts_line,
        spaced: token.spaced,
        hide: HideSet::empty(),
    }
}

/// 1 or 0, where `defined` stood.
fn answer<'a>(tokens: &'a Builtins, macros: &Macros<'a>, token: &Token, name: &[u8]) -> Item<'a>
    ensures { view result ≡ item (answer (table macros.now) token.now name.now) }
{
    match find(macros, name) {
        Some(_) => item(&tokens.one, token),
        None => item(&tokens.zero, token),
    }
}

/// Puts the line with each `defined NAME` and `defined ( NAME )` answered into an empty list, and tells whether each
/// `defined` has a name.
fn push_answered<'a>(
    tokens: &'a Builtins,
    macros: &Macros<'a>,
    line: &'a [Token],
    answered: &mut Vec<Item<'a>>,
) -> Result<bool, AllocError>
    requires { answered.old.items ≡ [] }
    ensures { IfOk result (λ whole. (if whole then Some (views answered.new.items) else None) ≡ option_map items (with_answers (table macros.now) 0 line.now)) }
{
    let mut at = 0;
    while at < line.len() {
        let token = &line[at];
        at += 1;
        if asks_defined(&token.kind) {
            let Some((name, used)) = asked(after(line, at)) else {
                return Ok(false);
            };
            answered.push(answer(tokens, macros, token, name))?;
            at += used;
        } else {
            answered.push(item(&token.kind, token))?;
        }
    }
    Ok(true)
}

/// The line with each `defined NAME` and `defined ( NAME )` answered, none where a `defined` has no name.
fn with_answers<'a>(
    alloc: Global,
    tokens: &'a Builtins,
    macros: &Macros<'a>,
    line: &'a [Token],
) -> Result<Option<Vec<Item<'a>>>, AllocError>
    ensures { IfOk result (λ o. option_map (λ v. views v.items) o ≡ option_map items (with_answers (table macros.now) 0 line.now)) }
{
    let mut answered = Vec::new(alloc);
    let whole = push_answered(tokens, macros, line, &mut answered)?;
    if whole { Ok(Some(answered)) } else { Ok(None) }
}

fn kinds<'a>(alloc: Global, items: &[Item<'a>]) -> Result<Vec<&'a TokenKind>, AllocError>
    ensures { IfOk result (λ v. now v.items ≡ map (λ x. x.kind) (views items.now)) }
{
    let mut kinds = Vec::new(alloc);
    for item in items {
        kinds.push(item.kind)?;
    }
    Ok(kinds)
}

/// Whether the items are a condition that holds, none where they are no condition.
fn decided(alloc: Global, items: &[Item<'_>]) -> Result<Option<bool>, AllocError>
    ensures { IfOk result (λ d. Decides (map (λ x. x.kind) (views items.now)) d) }
{
    let kinds = kinds(alloc, items)?;
    condition(alloc, &kinds)
}

/// Whether the condition of a line holds, and the count of tokens after it.
pub fn holds<'a>(
    alloc: Global,
    tokens: &'a Builtins,
    macros: &Macros<'a>,
    place: Place,
    line: &'a [Token],
    count: u64,
) -> Result<(bool, u64), Fault>
    ensures { HoldsAs result (table macros.now) count place line.now }
{
    let Some(items) = with_answers(alloc, tokens, macros, line)? else {
        return Err(Fault::refused(Rule::BadCondition, place));
    };
    let (items, count) = replace(alloc, macros, items, count)?;
    match decided(alloc, &items)? {
        Some(holds) => Ok((holds, count)),
        None => Err(Fault::refused(Rule::BadCondition, place)),
    }
}
