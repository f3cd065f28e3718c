//! What one item becomes that initialises an object whole: an expression, or a string literal for an array of characters
//! (C11 6.7.9p11, p13 and p14).

ghost use Rattle.std.specs.Prelude.{◌≡◌, ◌+◌, ◌≤◌, nat_lt, length, false, IfOk};
ghost use Rattle.std.specs.Option.{option_map_or};
ghost use Rattle.elab_meaning.specs.Initialisers.{completed, count_of, is_char_array, leaf, text_leaf, text_room};
ghost use Rattle.elab_meaning.specs.Nodes.{node};
ghost use Rattle.c_tree.specs.declared.typed.TypedKind.TheVariants.{Str};
ghost use Rattle.elab_meaning.specs.Typing.{first_broken};
ghost use Rattle.elab_scope.specs.States.{Grows, Types};
ghost use Rattle.elab_initialisers.specs.Checks.{leaf_checks};

use c_layout::{CType, element, is_char};
use c_tree::{TypedExpr, TypedInit, TypedKind};
use elab_constants::is_constant;
use elab_conversions::{converted, fits};
use elab_scope::{Scope, State};
use fc_base::{Fault, NoMemory, Place, Rule, Text};
use std::alloc::Global;
use tree_drops::{LetGo, both};

/// The most bytes of a string literal, without its closing NUL, whose array is within the limit on types.
const LONGEST_TEXT: usize = 4_194_303;

/// An object that is initialised, by its offset in its variable.
#[derive(Clone, Copy)]
pub struct Target<'a> {
    pub ctype: &'a CType,
    pub at: u32,
    pub is_static: bool,
}

/// The first rule that an expression breaks as the object's initialiser: a static one is a constant, and it fits the type.
fn broken(scope: &Scope, target: &Target, value: &TypedExpr) -> Option<Rule>
    ensures { result ≡ first_broken (leaf_checks target.now.is_static target.now.ctype.now scope.now value.now) }
{
    if target.is_static && !is_constant(scope.tags(), scope.objects(), value) {
        Some(Rule::NotConstant)
    } else if !fits(scope.tags(), value, target.ctype) {
        Some(Rule::BadOperands)
    } else {
        None
    }
}

/// An expression that initialises the object.
pub fn leaf(
    alloc: Global,
    state: &State,
    target: &Target,
    place: Place,
    value: TypedExpr,
) -> Result<TypedInit, Fault>
    ensures { Types (leaf target.now.is_static target.now.ctype.now target.now.at place value) state.now result state.now }
{
    match broken(&state.scope, target, &value) {
        Some(rule) => {
            value.let_go();
            Err(Fault::refused(rule, place))
        }
        None => Ok(TypedInit::Expr {
            at: target.at,
            value: converted(alloc, target.ctype, value)?,
        }),
    }
}

/// Whether a type is an array of characters.
pub fn is_char_array(ctype: &CType) -> bool
    ensures { result ≡ is_char_array ctype.now }
{
    match element(ctype) {
        Some(of) => is_char(of),
        None => false,
    }
}

/// Whether an array has fewer elements than a string literal has bytes.
fn is_too_small(ctype: &CType, bytes: usize) -> bool
    ensures { result ≡ option_map_or (λ n. nat_lt n bytes) (count_of ctype.now) false }
{
    match ctype {
        CType::Array(_, count) => (*count as usize) < bytes,
        _ => false,
    }
}

/// The type, with so many elements where it is an array without a bound.
pub fn completed(ctype: &CType, count: u32) -> Result<CType, NoMemory>
    ensures { IfOk result (λ t. t ≡ completed ctype.now count) }
{
    match ctype {
        CType::OpenArray(of) => Ok(CType::Array(of.share()?, count)),
        _ => ctype.share(),
    }
}

/// What the array of a literal takes of the sum of data.
fn text_room(text: &[u8]) -> u64
    requires { length text.now ≤ LONGEST_TEXT }
    ensures { result ≡ text_room text.now }
{
    (text.len() as u64 + 17) / 16 * 16
}

/// A string literal as the value of an array of characters.
fn text_value(
    alloc: Global,
    ctype: &CType,
    place: Place,
    text: &[u8],
) -> Result<TypedExpr, NoMemory>
    requires { length text.now ≤ LONGEST_TEXT }
    ensures { IfOk result (λ e. e ≡ node (Str text.now) (completed ctype.now (length text.now + 1)) place) }
{
    let ctype = completed(ctype, text.len() as u32 + 1)?;
    let (ctype, text) = both(ctype, Text::from_bytes(alloc, text))?;
    Ok(TypedExpr {
        kind: TypedKind::Str(text),
        ctype,
        place,
    })
}

/// A string literal that initialises the object, an array of characters. It counts in the sum of data.
pub fn text_leaf(
    alloc: Global,
    state: &mut State,
    target: &Target,
    place: Place,
    text: &[u8],
) -> Result<TypedInit, Fault>
    ensures types { Types (text_leaf target.now.ctype.now target.now.at place text.now) state.old result state.new }
    ensures grows { Grows state.old state.new }
{
    if text.len() > LONGEST_TEXT {
        return Err(Fault::refused(Rule::LimitObject, place));
    }
    if is_too_small(target.ctype, text.len()) {
        return Err(Fault::refused(Rule::BadInitialiser, place));
    }
    state.beside.count_literal(text_room(text))?;
    Ok(TypedInit::Expr {
        at: target.at,
        value: text_value(alloc, target.ctype, place, text)?,
    })
}
