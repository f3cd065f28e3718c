//! Macro replacement, argument by argument and token by token.

ghost use Rattle.std.specs.Prelude.{◌≡◌, ◌+◌, ◌-◌, ◌*◌, ◌≤◌, ◌<◌, ◌++◌, IfOk, OnOk, MatchBool, vec_len, map, reverse, take, drop, length, Some, [], ◌∷◌};
ghost use Rattle.c_tokens.specs.Tokens.{token_limit};
ghost use Rattle.fc_base.specs.Answers.{Answers};
ghost use Rattle.macro_meaning.specs.Macros.{has, token};
ghost use Rattle.macro_meaning.specs.Turns.{union};
ghost use Rattle.macro_meaning.specs.Replacement.{ReplacedList, replacing, hidden, argument_text, Expands, Substitutes, Readies};
ghost use Rattle.macro_items.specs.Views.{view, views, left, table, argument_view, argument_views, body_part_views};
ghost use Rattle.macro_replacement.specs.Replacing.{AddsAs, StaysAs, GivesAs};

use crate::turns::{Replacement, Turn, meaning_of, turn_of};
use c_tokens::{TOKEN_LIMIT, Token, TokenKind};
use fc_base::{Fault, NoMemory, Place, Rule};
use macro_items::{Argument, Arguments, BodyPart, HideSet, Hides, Item, Macros, NESTING_LIMIT};
use std::alloc::{AllocError, Global};
use std::mem;

/// What replacement works with: the allocator, the macros, and how many arguments are being expanded one inside another.
#[derive(Clone, Copy)]
struct Setting<'m, 'a> {
    alloc: Global,
    macros: &'m Macros<'a>,
    depth: u32,
}

/// Puts a token of a replacement list behind the others.
fn push_replacing<'a>(
    new: &mut Vec<Item<'a>>,
    place: Place,
    hide: &HideSet<'a>,
    kind: &'a TokenKind,
    spaced: bool,
) -> Result<(), AllocError>
    ensures { OnOk result (views new.new.items ≡ views new.old.items ++ replacing place (has hide.now) kind.now spaced ∷ []) }
{
    new.push(Item {
        kind,
        place,
        starts_line: false,
        spaced,
        hide: hide.copied()?,
    })?;
    Ok(())
}

/// The item with another hide set.
fn with_hide<'a>(item: &Item<'a>, hide: &HideSet<'a>) -> Result<Item<'a>, AllocError>
    ensures { IfOk result (λ x. view x ≡ record (view item.now) { hide = has hide.now }) }
{
    Ok(Item {
        kind: item.kind,
        place: item.place,
        starts_line: item.starts_line,
        spaced: item.spaced,
        hide: hide.copied()?,
    })
}

fn text<'m, 'a>(argument: &'m Argument<'a>) -> &'m [Item<'a>]
    ensures { views result.now ≡ argument_text (Some (argument_view argument.now)) }
{
    match argument {
        Argument::Written(_) => &[],
        Argument::Expanded(tokens) => tokens,
    }
}

/// Puts the tokens of an argument behind the others.
fn push_hidden<'a>(
    alloc: Global,
    new: &mut Vec<Item<'a>>,
    hides: &Hides<'a>,
    tokens: &[Item<'a>],
) -> Result<(), AllocError>
    ensures { OnOk result (views new.new.items ≡ views new.old.items ++ map (hidden (has hides.now.new)) (views tokens.now)) }
{
    let mut own = hides.old.copied()?;
    let mut both = hides.new.copied()?;
    push_joined(alloc, new, hides, &mut own, &mut both, tokens)
}

/// Puts another value into the place, and lets go of the one that stood there.
fn set<T: Drop>(place: &mut T, value: T)
    ensures { place.new ≡ value }
{
    *place = value;
}

/// Turns to the hide set of a token, where `own` is that of the token before it and `both` the one that it got.
fn follow<'a>(
    alloc: Global,
    hides: &Hides<'a>,
    hide: &HideSet<'a>,
    own: &mut HideSet<'a>,
    both: &mut HideSet<'a>,
) -> Result<(), AllocError>
    requires { has both.old ≡ union (has own.old) (has hides.now.new) }
    ensures own { OnOk result (own.new ≡ hide.now) }
    ensures both { OnOk result (has both.new ≡ union (has hide.now) (has hides.now.new)) }
{
    if hide.is_same(own) {
        return Ok(());
    }
    set(own, hide.copied()?);
    set(both, own.union(alloc, &hides.new)?);
    Ok(())
}

/// Puts tokens behind the others, where one with the hide set `own` gets `both`. Most of them have the hide set of the
/// call, or that of the last one.
fn push_joined<'a>(
    alloc: Global,
    new: &mut Vec<Item<'a>>,
    hides: &Hides<'a>,
    own: &mut HideSet<'a>,
    both: &mut HideSet<'a>,
    tokens: &[Item<'a>],
) -> Result<(), AllocError>
    requires { has both.old ≡ union (has own.old) (has hides.now.new) }
    ensures { OnOk result (views new.new.items ≡ views new.old.items ++ map (hidden (has hides.now.new)) (views tokens.now)) }
{
    for item in tokens {
        follow(alloc, hides, &item.hide, own, both)?;
        new.push(with_hide(item, both)?)?;
    }
    Ok(())
}

/// Expands the argument by itself, where that was not done before.
#[cycle(replacement)]
fn make_ready<'a>(
    setting: &Setting<'_, 'a>,
    args: &mut [Argument<'a>],
    k: usize,
    count: u64,
) -> Result<u64, Fault>
    requires deep { setting.now.depth < NESTING_LIMIT }
    requires index { k < length args.old }
    ensures outcome { Answers (λ c. (argument_views args.new, c)) result (Readies (table setting.now.macros.now) setting.now.depth count (argument_views args.old) k) }
    ensures len { IfOk result (λ c. length args.new ≡ length args.old) }
    ensures counts { IfOk result (λ c. count ≤ c) }
{
    match mem::replace(&mut args[k], Argument::Expanded(Vec::new(setting.alloc))) {
        Argument::Expanded(tokens) => {
            args[k] = Argument::Expanded(tokens);
            Ok(count)
        }
        Argument::Written(mut tokens) => {
            tokens.reverse();
            let inner = Setting {
                alloc: setting.alloc,
                macros: setting.macros,
                depth: setting.depth + 1,
            };
            let (tokens, count) = run(&inner, tokens, count)?;
            args[k] = Argument::Expanded(tokens);
            Ok(count)
        }
    }
}

/// Puts the replacement list, with the arguments in the places of the parameters, behind the other tokens.
#[cycle(replacement)]
fn substitute<'a>(
    setting: &Setting<'_, 'a>,
    place: Place,
    list: &Replacement<'_, 'a>,
    args: &mut [Argument<'a>],
    from: u64,
    new: &mut Vec<Item<'a>>,
) -> Result<u64, Fault>
    requires deep { 0 < length args.old → setting.now.depth < NESTING_LIMIT }
    ensures outcome { GivesAs result new.old.items new.new.items (Substitutes (table setting.now.macros.now) setting.now.depth from place
        (has list.now.hides.new) (argument_views args.old) (body_part_views list.now.body.now)) }
    ensures counts { IfOk result (λ c. from ≤ c) }
{
    let mut count = from;
    for part in list.body {
        match *part {
            BodyPart::Plain(kind, spaced) => {
                push_replacing(new, place, &list.hides.new, kind, spaced)?
            }
            BodyPart::Parameter(k) => {
                if k < args.len() {
                    count = make_ready(setting, args, k, count)?;
                    push_hidden(setting.alloc, new, &list.hides, text(&args[k]))?;
                }
            }
        }
    }
    Ok(count)
}

/// Puts what replaces a name or a call behind the other tokens.
#[cycle(replacement)]
fn put<'a>(
    setting: &Setting<'_, 'a>,
    place: Place,
    list: Replacement<'_, 'a>,
    mut args: Arguments<'a>,
    from: u64,
    new: &mut Vec<Item<'a>>,
) -> Result<u64, Fault>
    requires deep { 0 < length args.items → setting.now.depth < NESTING_LIMIT }
    ensures outcome { GivesAs result new.old.items new.new.items (Substitutes (table setting.now.macros.now) setting.now.depth from place
        (has list.entry.hides.new) (argument_views args.entry.items) (body_part_views list.entry.body.now)) }
    ensures counts { IfOk result (λ c. from ≤ c) }
{
    substitute(setting, place, &list, args.as_mut_slice(), from, new)
}

/// Reverses the list from there on.
fn reverse_from(list: &mut Vec<Item<'_>>, start: usize)
    requires { start ≤ vec_len list.old }
    ensures { list.new.items ≡ take start list.old.items ++ reverse (drop start list.old.items) }
{
    list[start..].reverse();
}

/// Whether the token stays. Where it does not, what it becomes is put in front of what is left.
#[cycle(replacement)]
fn stays<'a>(
    setting: &Setting<'_, 'a>,
    item: &Item<'a>,
    pending: &mut Vec<Item<'a>>,
    count: &mut u64,
) -> Result<bool, Fault>
    requires deep { setting.now.depth ≤ NESTING_LIMIT }
    ensures outcome { StaysAs (table setting.now.macros.now) setting.now.depth (view item.now) count.old (left pending.old.items) result count.new (left pending.new.items) }
    ensures counts { OnOk result (count.old ≤ count.new) }
    ensures shorter { OnOk result (2 * (token_limit - count.new) + vec_len pending.new ≤ 2 * (token_limit - count.old) + vec_len pending.old) }
{
    let Some(meaning) = meaning_of(setting.macros, item) else {
        return Ok(true);
    };
    match turn_of(setting.alloc, meaning, setting.depth, item, pending)? {
        Turn::Stays => Ok(true),
        Turn::BadCall => Err(Fault::refused(Rule::MacroArguments, item.place)),
        Turn::Becomes { list, args } => {
            let start = pending.len();
            let now = put(setting, item.place, list, args, *count, pending)?;
            let len = (pending.len() - start) as u64;
            if passes_limit(now, len) {
                return Err(Fault::refused(Rule::LimitTokens, item.place));
            }
            *count = now + len;
            reverse_from(pending, start);
            Ok(false)
        }
    }
}

/// Expands the list whose next token is the last of `pending`, and puts the result into the empty list `done`.
#[cycle(replacement)]
fn expand_into<'a>(
    setting: &Setting<'_, 'a>,
    pending: &mut Vec<Item<'a>>,
    done: &mut Vec<Item<'a>>,
    from: u64,
) -> Result<u64, Fault>
    requires deep { setting.now.depth ≤ NESTING_LIMIT }
    requires empty { done.old.items ≡ [] }
    ensures outcome { Answers (λ c. (views done.new.items, c)) result (Expands (table setting.now.macros.now) setting.now.depth from (left pending.old.items)) }
    ensures counts { IfOk result (λ c. from ≤ c) }
{
    let mut count = from;
    while let Some(item) = pending.pop() {
        if stays(setting, &item, pending, &mut count)? {
            done.push(item)?;
        }
    }
    Ok(count)
}

/// Expands the list whose next token is the last of `pending`.
#[cycle(replacement)]
fn run<'a>(
    setting: &Setting<'_, 'a>,
    mut pending: Vec<Item<'a>>,
    from: u64,
) -> Result<(Vec<Item<'a>>, u64), Fault>
    requires deep { setting.now.depth ≤ NESTING_LIMIT }
    ensures outcome { Answers (λ r. (views r.0.items, r.1)) result (Expands (table setting.now.macros.now) setting.now.depth from (left pending.entry.items)) }
    ensures counts { IfOk result (λ r. from ≤ r.1) }
{
    let mut done = Vec::new(setting.alloc);
    let count = expand_into(setting, &mut pending, &mut done, from)?;
    Ok((done, count))
}

/// The count of tokens would pass its limit.
fn passes_limit(count: u64, more: u64) -> bool
    ensures { MatchBool result (token_limit < count + more) (count + more ≤ token_limit) }
{
    count > TOKEN_LIMIT || more > TOKEN_LIMIT - count
}

/// The list with its macros replaced, and the count of tokens after it.
pub fn replace<'a>(
    alloc: Global,
    macros: &Macros<'a>,
    mut tokens: Vec<Item<'a>>,
    count: u64,
) -> Result<(Vec<Item<'a>>, u64), Fault>
    // What it gives is what the list expands to, or its refusal.
    ensures is { Answers (λ r. (views r.0.items, r.1)) result (Expands (table macros.now) 0 count (views tokens.entry.items)) }
    ensures counts { IfOk result (λ r. count ≤ r.1) }
    // The list has no other outcome.
    ensures only { Answers (λ r. (views r.0.items, r.1)) result
        (λ out. (other : ReplacedList) → Expands (table macros.now) 0 count (views tokens.entry.items) other → other ≡ out) }
{
    tokens.reverse();
    let setting = Setting {
        alloc,
        macros,
        depth: 0,
    };
    run(&setting, tokens, count)
}

/// Puts a token behind those that are done.
fn push_token(alloc: Global, item: &Item<'_>, done: &mut Vec<Token>) -> Result<(), NoMemory>
    ensures { OnOk result (done.new.items ≡ done.old.items ++ token (view item.now) ∷ []) }
{
    done.push(item.token(alloc)?)?;
    Ok(())
}

/// Puts what is left, with its macros replaced, behind the tokens that are done.
fn append_left<'a>(
    alloc: Global,
    macros: &Macros<'a>,
    pending: &mut Vec<Item<'a>>,
    from: u64,
    done: &mut Vec<Token>,
) -> Result<u64, Fault>
    ensures { AddsAs result (table macros.now) from (left pending.old.items) done.old.items done.new.items }
{
    let setting = Setting {
        alloc,
        macros,
        depth: 0,
    };
    let mut count = from;
    while let Some(item) = pending.pop() {
        if stays(&setting, &item, pending, &mut count)? {
            push_token(alloc, &item, done)?;
        }
    }
    Ok(count)
}

/// Puts the tokens of the list, with its macros replaced, behind those that are done, and gives the count of tokens after
/// it. After a fault some of them may stand there already.
pub fn append_replaced<'a>(
    alloc: Global,
    macros: &Macros<'a>,
    mut tokens: Vec<Item<'a>>,
    from: u64,
    done: &mut Vec<Token>,
) -> Result<u64, Fault>
    ensures { AddsAs result (table macros.now) from (views tokens.entry.items) done.old.items done.new.items }
{
    tokens.reverse();
    append_left(alloc, macros, &mut tokens, from, done)
}
