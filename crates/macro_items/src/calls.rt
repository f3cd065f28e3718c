//! The arguments of a macro call (C11 6.10.3p10 and p11).

ghost use Rattle.std.specs.Prelude.{◌≡◌, ◌+◌, ◌≤◌, ◌^◌, ◌<◌, IfOk, vec_len, [], ◌∷◌};
ghost use Rattle.macro_meaning.specs.Turns.{call, is_empty, right_number};
ghost use Rattle.macro_items.specs.Views.{left, views, argument_view, argument_views};
ghost use Rattle.macro_items.specs.Gathering.{step, ClosesAs, GathersAs, IsNear};

use crate::hide::HideSet;
use crate::items::{Argument, Arguments, Item};
use c_tokens::{Punct, TokenKind};
use smallvec::SmallVec;
use std::alloc::{AllocError, Global};
use std::mem;

/// What a token does within a call.
#[derive(Clone, Copy)]
pub enum Step {
    /// It closes the call.
    Ends,
    /// It parts two arguments.
    Parts,
    /// So many inner brackets are open after it.
    Goes(usize),
}

/// The arguments of a call, and the hide set of its closing bracket.
#[derive(Drop)]
pub struct Call<'a> {
    pub args: Arguments<'a>,
    pub close: HideSet<'a>,
}

fn step_of(nest: usize, kind: &TokenKind) -> Step
    requires { nest < 2 ^ 63 }
    ensures is { result ≡ step nest kind.now }
    ensures near { IsNear nest result }
{
    match kind {
        TokenKind::Punct(Punct::LeftParen) => Step::Goes(nest + 1),
        TokenKind::Punct(Punct::RightParen) => {
            if nest == 0 {
                Step::Ends
            } else {
                Step::Goes(nest - 1)
            }
        }
        TokenKind::Punct(Punct::Comma) => {
            if nest == 0 {
                Step::Parts
            } else {
                Step::Goes(nest)
            }
        }
        _ => Step::Goes(nest),
    }
}

/// Takes a call off what is left, and gives the hide set of its closing bracket. All arguments but the last one go behind
/// the others, and the tokens of the last one stand in `current`.
fn take_call<'a>(
    alloc: Global,
    pending: &mut Vec<Item<'a>>,
    args: &mut Arguments<'a>,
    current: &mut Vec<Item<'a>>,
) -> Result<Option<HideSet<'a>>, AllocError>
    requires args { args.old.items ≡ [] }
    requires current { current.old.items ≡ [] }
    ensures found { IfOk result (λ o. ClosesAs o (argument_views args.new.items) (views current.new.items) (left pending.new.items) (call 0 (left pending.old.items))) }
    ensures shorter { vec_len pending.new ≤ vec_len pending.old }
{
    let mut nest = 0;
    while let Some(item) = pending.pop() {
        match step_of(nest, item.kind) {
            Step::Ends => return Ok(Some(item.hide)),
            Step::Parts => {
                let whole = mem::replace(current, Vec::new(alloc));
                args.push(Argument::Written(whole))?;
                nest = 0;
            }
            Step::Goes(now) => {
                current.push(item)?;
                nest = now;
            }
        }
    }
    Ok(None)
}

/// Takes the arguments of a call off what is left, with the closing bracket.
pub fn gather<'a>(
    alloc: Global,
    pending: &mut Vec<Item<'a>>,
) -> Result<Option<Call<'a>>, AllocError>
    ensures found { IfOk result (λ o. GathersAs o (left pending.new.items) (call 0 (left pending.old.items))) }
    ensures shorter { vec_len pending.new ≤ vec_len pending.old }
{
    let mut args = SmallVec::new(alloc);
    let mut current = Vec::new(alloc);
    match take_call(alloc, pending, &mut args, &mut current)? {
        None => Ok(None),
        Some(close) => {
            args.push(Argument::Written(current))?;
            Ok(Some(Call { args, close }))
        }
    }
}

fn is_written_empty(argument: &Argument<'_>) -> bool
    ensures { result ≡ is_empty (argument_view argument.now ∷ []) }
{
    match argument {
        Argument::Written(tokens) => tokens.is_empty(),
        Argument::Expanded(_) => false,
    }
}

fn is_empty(args: &[Argument<'_>]) -> bool
    ensures { result ≡ is_empty (argument_views args.now) }
{
    match args {
        [argument] => is_written_empty(argument),
        _ => false,
    }
}

/// Empty brackets hold one empty argument, or none.
pub fn right_number(n: usize, args: &[Argument<'_>]) -> bool
    ensures { result ≡ right_number n (argument_views args.now) }
{
    if n == 0 {
        is_empty(args)
    } else {
        n == args.len()
    }
}
