//! A condition, read from the left with the operators that wait for an operand on a stack. So no nesting is too deep.

ghost use Rattle.std.specs.Prelude.{◌≡◌, IfOk, Option, Bool, option_map};
ghost use Rattle.macro_conditions.specs.Conditions.{Decides, now};
ghost use Rattle.macro_conditions.specs.Numbers.{number_of};
ghost use Rattle.macro_conditions.specs.Values.{is_true};
ghost use Rattle.macro_conditions.specs.Machine.{decision, completes, applied, restored, reduced, on_prefix, on_operand, pull, on_colon, on_close, holds_comma, on_punct, step, finish};
ghost use Rattle.macro_conditions.specs.Reading.{frames, phase_view, StepsAs, ReducesAs, top_of};

use crate::precedence::{Level, level_of, own_level};
use crate::values::{
    Value, character_value, chosen, combined, evaluates_right, is_true, literal_value, prefixed,
    truth,
};
use c_tokens::{Punct, TokenKind};
use std::alloc::{AllocError, Global};

/// What waits for an operand. A flag says whether the operands were evaluated before it.
#[derive(Clone, Copy)]
pub enum Frame {
    Bracket(bool),
    Sign(Punct),
    /// A binary operator with its left operand.
    Left(Punct, Value, bool),
    /// `?` behind its condition.
    Question(Value, bool),
    /// `:` behind a condition and the operand for where it holds.
    Colon(Value, Value, bool),
    Comma,
}

/// An operand is wanted, or one was read. The flag says whether it is evaluated.
#[derive(Clone, Copy)]
pub enum Phase {
    Wants(bool),
    Has(bool, Value),
}

/// An operator of this level or a looser one completes the frame.
fn completes(level: Level, frame: Frame) -> bool
    ensures { result ≡ completes (number_of level) frame }
{
    match frame {
        Frame::Bracket(_) | Frame::Question(..) => false,
        Frame::Sign(_) => level.is_within(Level::Multiplicative),
        Frame::Left(operator, ..) => level.is_within(own_level(operator)),
        Frame::Colon(..) => level.is_within(Level::Conditional),
        Frame::Comma => level.is_within(Level::Expression),
    }
}

/// The value of a frame with its last operand.
fn applied(frame: Frame, value: Value) -> Option<Value>
    ensures { result ≡ applied frame value }
{
    match frame {
        Frame::Sign(operator) => Some(prefixed(operator, value)),
        Frame::Left(operator, left, evaluated) => combined(evaluated, operator, left, value),
        Frame::Colon(condition, left, _) => Some(chosen(condition, left, value)),
        Frame::Comma => Some(value),
        Frame::Bracket(_) | Frame::Question(..) => None,
    }
}

/// Whether operands are evaluated behind the frame's expression.
fn restored(frame: Frame, now: bool) -> bool
    ensures { result ≡ restored frame now }
{
    match frame {
        Frame::Left(_, _, evaluated) | Frame::Colon(_, _, evaluated) => evaluated,
        _ => now,
    }
}

fn top(stack: &[Frame]) -> Option<Frame>
    ensures { result ≡ top_of (frames stack.now) }
{
    match stack {
        [.., frame] => Some(*frame),
        [] => None,
    }
}

/// Takes off the frames that an operator of the level completes.
fn reduce(
    stack: &mut Vec<Frame>,
    level: Level,
    mut evaluated: bool,
    mut value: Value,
) -> Option<(bool, Value)>
    ensures { ReducesAs result (frames stack.new.items) (reduced (number_of level) (frames stack.old.items) evaluated value) }
{
    while let Some(frame) = top(stack) {
        if !completes(level, frame) {
            break;
        }
        stack.pop();
        value = applied(frame, value)?;
        evaluated = restored(frame, evaluated);
    }
    Some((evaluated, value))
}

fn on_prefix(
    stack: &mut Vec<Frame>,
    evaluated: bool,
    punct: Punct,
) -> Result<Option<Phase>, AllocError>
    ensures { IfOk result (λ o. StepsAs o (frames stack.new.items) (on_prefix (frames stack.old.items) evaluated punct)) }
{
    match punct {
        Punct::LeftParen => {
            stack.push(Frame::Bracket(evaluated))?;
            Ok(Some(Phase::Wants(evaluated)))
        }
        Punct::Plus | Punct::Minus | Punct::Tilde | Punct::Exclamation => {
            stack.push(Frame::Sign(punct))?;
            Ok(Some(Phase::Wants(evaluated)))
        }
        _ => Ok(None),
    }
}

/// A token where an operand is wanted. A name counts as 0.
fn on_operand(
    stack: &mut Vec<Frame>,
    evaluated: bool,
    kind: &TokenKind,
) -> Result<Option<Phase>, AllocError>
    ensures { IfOk result (λ o. StepsAs o (frames stack.new.items) (on_operand (frames stack.old.items) evaluated kind.now)) }
{
    match kind {
        TokenKind::Number { value, kind } => Ok(Some(Phase::Has(
            evaluated,
            literal_value(*value, kind.unsigned),
        ))),
        TokenKind::CharConst(byte) => Ok(Some(Phase::Has(evaluated, character_value(*byte)))),
        TokenKind::Name(_) => Ok(Some(Phase::Has(evaluated, truth(false)))),
        TokenKind::Punct(punct) => on_prefix(stack, evaluated, *punct),
        _ => Ok(None),
    }
}

/// The level of the frames that a token completes.
fn pull(kind: &TokenKind) -> Level
    ensures { number_of result ≡ pull kind.now }
{
    match kind {
        TokenKind::Punct(Punct::Question) => Level::LogicalOr,
        TokenKind::Punct(punct) => own_level(*punct),
        _ => Level::Expression,
    }
}

fn on_colon(stack: &mut Vec<Frame>, value: Value) -> Result<Option<Phase>, AllocError>
    ensures { IfOk result (λ o. StepsAs o (frames stack.new.items) (on_colon (frames stack.old.items) value)) }
{
    match stack.pop() {
        Some(Frame::Question(condition, evaluated)) => {
            stack.push(Frame::Colon(condition, value, evaluated))?;
            Ok(Some(Phase::Wants(evaluated && !is_true(condition))))
        }
        _ => Ok(None),
    }
}

fn on_close(stack: &mut Vec<Frame>, value: Value) -> Option<Phase>
    ensures { StepsAs result (frames stack.new.items) (on_close (frames stack.old.items) value) }
{
    match stack.pop() {
        Some(Frame::Bracket(evaluated)) => Some(Phase::Has(evaluated, value)),
        _ => None,
    }
}

/// A comma stands only in brackets or between `?` and `:`.
fn holds_comma(stack: &[Frame]) -> bool
    ensures { result ≡ holds_comma (frames stack.now) }
{
    match top(stack) {
        Some(Frame::Bracket(_)) | Some(Frame::Question(..)) => true,
        _ => false,
    }
}

fn on_punct(
    stack: &mut Vec<Frame>,
    punct: Punct,
    evaluated: bool,
    value: Value,
) -> Result<Option<Phase>, AllocError>
    ensures { IfOk result (λ o. StepsAs o (frames stack.new.items)
        (on_punct punct (record { stack = frames stack.old.items; evaluated = evaluated; value = value }))) }
{
    match punct {
        Punct::Question => {
            stack.push(Frame::Question(value, evaluated))?;
            Ok(Some(Phase::Wants(evaluated && is_true(value))))
        }
        Punct::Colon => on_colon(stack, value),
        Punct::RightParen => Ok(on_close(stack, value)),
        Punct::Comma => {
            if !holds_comma(stack) || evaluated {
                return Ok(None);
            }
            stack.push(Frame::Comma)?;
            Ok(Some(Phase::Wants(false)))
        }
        _ => {
            if level_of(punct).is_none() {
                return Ok(None);
            }
            stack.push(Frame::Left(punct, value, evaluated))?;
            Ok(Some(Phase::Wants(evaluates_right(evaluated, punct, value))))
        }
    }
}

fn step(stack: &mut Vec<Frame>, phase: Phase, kind: &TokenKind) -> Result<Option<Phase>, AllocError>
    ensures { IfOk result (λ o. StepsAs o (frames stack.new.items) (step (phase_view phase (frames stack.old.items)) kind.now)) }
{
    match phase {
        Phase::Wants(evaluated) => on_operand(stack, evaluated, kind),
        Phase::Has(evaluated, value) => match reduce(stack, pull(kind), evaluated, value) {
            None => Ok(None),
            Some((evaluated, value)) => match kind {
                TokenKind::Punct(punct) => on_punct(stack, *punct, evaluated, value),
                _ => Ok(None),
            },
        },
    }
}

fn finish(mut stack: Vec<Frame>, phase: Phase) -> Option<Value>
    ensures { result ≡ finish (phase_view phase (frames stack.items)) }
{
    match phase {
        Phase::Wants(_) => None,
        Phase::Has(evaluated, value) => {
            let (_, value) = reduce(&mut stack, Level::Expression, evaluated, value)?;
            if stack.is_empty() { Some(value) } else { None }
        }
    }
}

fn holds(value: Option<Value>) -> Option<bool>
    ensures { result ≡ option_map is_true value }
{
    match value {
        Some(value) => Some(is_true(value)),
        None => None,
    }
}

fn decided(alloc: Global, line: &[&TokenKind]) -> Result<Option<bool>, AllocError>
    ensures { IfOk result (λ d. d ≡ decision (now line.now)) }
{
    let mut stack = Vec::new(alloc);
    let mut phase = Phase::Wants(true);
    for kind in line {
        match step(&mut stack, phase, *kind)? {
            Some(next) => phase = next,
            None => return Ok(None),
        }
    }
    Ok(holds(finish(stack, phase)))
}

/// Whether the line is a condition that holds, none where it is no condition.
pub fn condition(alloc: Global, line: &[&TokenKind]) -> Result<Option<bool>, AllocError>
    ensures decides { IfOk result (λ d. Decides (now line.now) d) }
    // The line has no other decision.
    ensures only { IfOk result (λ d. (other : Option Bool) → Decides (now line.now) other → other ≡ d) }
{
    decided(alloc, line)
}
