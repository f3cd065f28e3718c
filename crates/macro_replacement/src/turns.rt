//! What a token does: it stays, its call is refused, or it and the arguments after it are replaced.

ghost use Rattle.std.specs.Prelude.{◌≡◌, ◌≤◌, ◌<◌, ◌+◌, IfOk, MatchBool, option_map, vec_len, drop, true, Some};
ghost use Rattle.macro_meaning.specs.Turns.{intersection, with_name, meaning_of, opens_next, called_with, call, by_meaning};
ghost use Rattle.macro_meaning.specs.Macros.{has};
ghost use Rattle.macro_items.specs.Views.{left, view, meaning_view, body_part_views, table};
ghost use Rattle.macro_replacement.specs.Turning.{TurnsAs, IsWithin};

use c_tokens::TokenKind;
use fc_base::both;
use macro_items::{
    Arguments, BodyPart, HideSet, Hides, Item, Macro, Macros, NESTING_LIMIT, find, gather, opens,
    right_number,
};
use smallvec::SmallVec;
use std::alloc::{AllocError, Global};

/// A replacement list, with the hide sets of what it replaces and of its tokens.
#[derive(Drop)]
pub struct Replacement<'m, 'a> {
    pub body: &'m [BodyPart<'a>],
    pub hides: Hides<'a>,
}

/// What a token does.
pub enum Turn<'m, 'a> {
    /// It stays as it is.
    Stays,
    /// It names a macro whose call is refused.
    BadCall,
    /// This list replaces it, with the arguments in the places of the parameters.
    Becomes {
        list: Replacement<'m, 'a>,
        args: Arguments<'a>,
    },
}

/// The macro that a token names, none where the name is in its hide set.
pub fn meaning_of<'m, 'a>(macros: &'m Macros<'a>, item: &Item<'a>) -> Option<&'m Macro<'a>>
    ensures { option_map (λ m. meaning_view m.now) result ≡ meaning_of (table macros.now) (view item.now) }
{
    match item.kind {
        TokenKind::Name(name) => match find(macros, name.bytes()) {
            Some(meaning) if !item.hide.has(name.bytes()) => Some(meaning),
            _ => None,
        },
        _ => None,
    }
}

/// An opening bracket comes next.
fn opens_next(pending: &[Item<'_>]) -> bool
    ensures { result ≡ opens_next (left pending.now) }
{
    match pending {
        [.., next] => opens(next.kind),
        [] => false,
    }
}

/// The hide sets of a name that is replaced alone.
fn hides_of_name<'a>(alloc: Global, name: &Item<'a>) -> Result<Hides<'a>, AllocError>
    ensures { IfOk result (λ h. has h.new ≡ with_name name.now.kind.now (has name.now.hide)) }
{
    Hides::of(alloc, name.hide.copied()?, name.kind)
}

/// The hide sets of a call, by its name and the hide set of its closing bracket.
fn hides_of_call<'a>(
    alloc: Global,
    name: &Item<'a>,
    close: &HideSet<'a>,
) -> Result<Hides<'a>, AllocError>
    ensures { IfOk result (λ h. has h.new ≡ with_name name.now.kind.now (intersection (has name.now.hide) (has close.now))) }
{
    let hide = name.hide.intersection(alloc, close)?;
    Hides::of(alloc, hide, name.kind)
}

/// Arguments would be expanded too deep.
fn is_too_deep(depth: u32) -> bool
    ensures { MatchBool result (NESTING_LIMIT ≤ depth) (depth < NESTING_LIMIT) }
{
    depth >= NESTING_LIMIT
}

/// A call, at its opening bracket.
fn called<'m, 'a>(
    alloc: Global,
    item: &Item<'a>,
    n: usize,
    body: &'m [BodyPart<'a>],
    pending: &mut Vec<Item<'a>>,
) -> Result<Turn<'m, 'a>, AllocError>
    requires { opens_next (left pending.old.items) ≡ true }
    ensures found { IfOk result (λ t. TurnsAs t (left pending.old.items) (left pending.new.items)
        (called_with (view item.now) n (body_part_views body.now) (call 0 (drop 1 (left pending.old.items))))) }
    ensures shorter { vec_len pending.new + 1 ≤ vec_len pending.old }
{
    drop(pending.pop());
    let Some(call) = gather(alloc, pending)? else {
        return Ok(Turn::BadCall);
    };
    let is_right = right_number(n, &call.args);
    match is_right.then_some(call) {
        None => Ok(Turn::BadCall),
        Some(call) => {
            let hides = hides_of_call(alloc, item, &call.close);
            let (call, hides) = both(call, hides)?;
            Ok(Turn::Becomes {
                list: Replacement { body, hides },
                args: call.args,
            })
        }
    }
}

/// What a token does that names this macro, with what is left after it.
pub fn turn_of<'m, 'a>(
    alloc: Global,
    meaning: &'m Macro<'a>,
    depth: u32,
    item: &Item<'a>,
    pending: &mut Vec<Item<'a>>,
) -> Result<Turn<'m, 'a>, AllocError>
    ensures found { IfOk result (λ t. TurnsAs t (left pending.old.items) (left pending.new.items)
        (by_meaning depth (view item.now) (left pending.old.items) (Some (meaning_view meaning.now)))) }
    ensures shorter { vec_len pending.new ≤ vec_len pending.old }
    ensures within { IfOk result (λ t. IsWithin depth NESTING_LIMIT t) }
{
    match &meaning.parameters {
        None => {
            let body = &meaning.body;
            let hides = hides_of_name(alloc, item)?;
            Ok(Turn::Becomes {
                list: Replacement { body, hides },
                args: SmallVec::new(alloc),
            })
        }
        Some(parameters) => {
            if !opens_next(pending) {
                return Ok(Turn::Stays);
            }
            if is_too_deep(depth) {
                return Ok(Turn::BadCall);
            }
            called(alloc, item, parameters.len(), &meaning.body, pending)
        }
    }
}
