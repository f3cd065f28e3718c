//! Tokens under expansion, and macros.

ghost use Rattle.std.specs.Prelude.{◌≡◌, IfOk, option_map};
ghost use Rattle.macro_meaning.specs.Macros.{token, opens, closes, is_comma};
ghost use Rattle.macro_items.specs.Views.{view, macro_at};

use crate::hide::HideSet;
use c_tokens::{Punct, Token, TokenKind};
use fc_base::{NoMemory, Place, Text};
use indexmap::{IndexMap, IndexSet};
use smallvec::SmallVec;
use std::alloc::Global;
use std::default::MadeWith;

/// So many arguments are expanded one inside another at most.
pub const NESTING_LIMIT: u32 = 200;

/// A token that is being expanded. What it is lies in the source, or in a list of built-in tokens.
#[derive(Drop)]
pub struct Item<'a> {
    pub kind: &'a TokenKind,
    pub place: Place,
    pub starts_line: bool,
    pub spaced: bool,
    pub hide: HideSet<'a>,
}

impl Item<'_> {
    /// The token alone, in memory of its own.
    pub fn token(&self, alloc: Global) -> Result<Token, NoMemory>
        ensures { IfOk result (λ t. t ≡ token (view self.now)) }
    {
        Ok(Token {
            kind: self.kind.copied(alloc)?,
            place: self.place,
            starts_line: self.starts_line,
            spaced: self.spaced,
        })
    }
}

/// A part of a replacement list: a token, with whether it is spaced, or a parameter by its number from 0.
#[derive(Clone, Copy)]
pub enum BodyPart<'a> {
    Plain(&'a TokenKind, bool),
    Parameter(usize),
}

/// What a macro stands for: its parameters in their order, where it has a list of them, and its replacement list.
#[derive(Drop)]
pub struct Macro<'a> {
    pub parameters: Option<IndexSet<&'a [u8]>>,
    pub body: Vec<BodyPart<'a>>,
}

/// The macros by their names.
pub type Macros<'a> = IndexMap<&'a [u8], Macro<'a>>;

/// What stands under a name.
pub fn find<'m, 'a>(macros: &'m Macros<'a>, name: &[u8]) -> Option<&'m Macro<'a>>
    ensures { option_map (λ m. m.now) result ≡ macro_at macros.now name.now }
{
    macros.get(name)
}

/// An opening bracket.
pub fn opens(kind: &TokenKind) -> bool
    ensures { result ≡ opens kind.now }
{
    matches!(kind, TokenKind::Punct(Punct::LeftParen))
}

/// A closing bracket.
pub fn closes(kind: &TokenKind) -> bool
    ensures { result ≡ closes kind.now }
{
    matches!(kind, TokenKind::Punct(Punct::RightParen))
}

/// A comma.
pub fn is_comma(kind: &TokenKind) -> bool
    ensures { result ≡ is_comma kind.now }
{
    matches!(kind, TokenKind::Punct(Punct::Comma))
}

/// An argument of a call as it was written, or expanded.
#[derive(Drop)]
pub enum Argument<'a> {
    Written(Vec<Item<'a>>),
    Expanded(Vec<Item<'a>>),
}

/// The arguments of a call. Most calls have few of them.
pub type Arguments<'a> = SmallVec<Argument<'a>, 2>;

// What stands in a small vector's free places.
impl<'a> MadeWith<Global> for Argument<'a> {
    fn made_with(alloc: Global) -> Argument<'a> {
        Argument::Expanded(Vec::new(alloc))
    }
}
