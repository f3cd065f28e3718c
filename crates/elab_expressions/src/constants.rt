//! Numbers, character constants and string literals (C11 6.4.4 and 6.4.5).

ghost use Rattle.std.specs.Prelude.{◌≡◌, ◌+◌, ℕ, true, List, find, length, IfOk};
ghost use Rattle.c_layout.specs.Types.{int};
ghost use Rattle.elab_meaning.specs.Expressions.{holds, literal, literal_type, number_types, signs, text_type, text_typed};
ghost use Rattle.elab_meaning.specs.Nodes.{node};
ghost use Rattle.elab_scope.specs.States.{Types, Grows};
ghost use Rattle.c_tree.specs.Conversions.{ranked};
ghost use Rattle.c_tree.specs.declared.typed.TypedKind.TheVariants as e;
ghost use Rattle.fc_base.specs.Widths.{extended};
ghost use Rattle.fc_base.specs.declared.levels.Width.TheVariants.{W1};

use c_layout::CType;
use c_tokens::NumberKind;
use c_tree::{DataDef, Rank, TypedExpr, TypedKind, ranked};
use elab_scope::State;
use fc_base::{Fault, NoMemory, Place, Rule, Text, Width, extend};
use shared_values::Shared;
use sqlite_items::Items;
use std::alloc::Global;

/// The most bytes of an object, with the NUL of a literal.
const LARGEST: usize = 4_194_304;

/// Whether the integer type of a rank, signed or not, holds a number.
fn holds(rank: Rank, signed: bool, value: u64) -> bool
    ensures { result ≡ holds value (rank, signed) }
{
    match (rank, signed) {
        (Rank::Int, true) => value < 0x8000_0000,
        (Rank::Int, false) => value < 0x1_0000_0000,
        (Rank::Long | Rank::LongLong, true) => value < 0x8000_0000_0000_0000,
        (Rank::Long | Rank::LongLong, false) => true,
    }
}

/// The first type of a rank that a number may have and that holds it: the rank, and whether it is signed.
fn of_rank(value: u64, kind: NumberKind, rank: Rank) -> Option<(Rank, bool)>
    ensures { result ≡ find (holds value) (signs kind rank) }
{
    if !kind.unsigned && holds(rank, true, value) {
        return Some((rank, true));
    }
    if (kind.unsigned || !kind.decimal) && holds(rank, false, value) {
        return Some((rank, false));
    }
    None
}

/// The first type that a number may have and that holds it.
fn first_type(value: u64, kind: NumberKind) -> Option<(Rank, bool)>
    ensures { result ≡ find (holds value) (number_types kind) }
{
    let long_long = of_rank(value, kind, Rank::LongLong);
    let long = of_rank(value, kind, Rank::Long).or(long_long);
    match kind.longs {
        0 => of_rank(value, kind, Rank::Int).or(long),
        1 => long,
        2 => long_long,
        _ => None,
    }
}

/// The type of a number (C11 6.4.4.1p5). One that no type is left for is an unsigned long.
fn literal_type(value: u64, kind: NumberKind) -> CType
    ensures { result ≡ literal_type value kind }
{
    match first_type(value, kind) {
        Some((rank, signed)) => ranked(rank, signed),
        None => ranked(Rank::Long, false),
    }
}

/// A number.
pub fn number(value: u64, kind: NumberKind, at: Place) -> TypedExpr
    ensures { result ≡ node (e.Number value) (literal_type value kind) at }
{
    TypedExpr {
        kind: TypedKind::Number(value),
        ctype: literal_type(value, kind),
        place: at,
    }
}

/// A character constant: an int of the value of a char (C11 6.4.4.4p10).
pub fn character(byte: u8, at: Place) -> TypedExpr
    ensures { result ≡ node (e.Number (extended byte W1 true)) int at }
{
    TypedExpr {
        kind: TypedKind::Number(extend(u64::from(byte), Width::W1, true)),
        ctype: ranked(Rank::Int, true),
        place: at,
    }
}

/// The object of a string literal: its bytes and the closing NUL (C11 6.4.5p6).
fn literal(alloc: Global, text: &[u8], size: u32) -> Result<DataDef, NoMemory>
    requires { size ≡ length text.now + 1 }
    ensures { IfOk result (λ object. object ≡ literal text.now) }
{
    let name = Text::from_bytes(alloc, &[])?;
    let mut bytes = Items::from_slice(alloc, text)?;
    bytes.push(0)?;
    Ok(DataDef {
        name,
        size,
        writable: false,
        bytes,
        links: Items::new(alloc),
    })
}

/// An array of char.
fn char_array(alloc: Global, size: u32) -> Result<CType, NoMemory>
    ensures { IfOk result (λ t. (text : List ℕ) → size ≡ length text + 1 → t ≡ text_type text) }
{
    let char = CType::Int {
        width: Width::W1,
        signed: true,
        plain_char: true,
        long_long: false,
    };
    Ok(CType::Array(Shared::new(alloc, char)?, size))
}

/// A string literal, which is a new object that can't be written.
pub fn text(alloc: Global, state: &mut State, text: &[u8], at: Place) -> Result<TypedExpr, Fault>
    ensures types { Types (text_typed text.now at) state.old result state.new }
    ensures grows { Grows state.old state.new }
{
    if text.len() >= LARGEST {
        return Err(Fault::refused(Rule::LimitObject, at));
    }
    let size = text.len() as u32 + 1;
    let object = literal(alloc, text, size)?;
    let number = state.scope.add_object(object)?;
    let ctype = char_array(alloc, size)?;
    Ok(TypedExpr {
        kind: TypedKind::Object(number),
        ctype,
        place: at,
    })
}
