//! A token with its place in the source.

ghost use Rattle.std.specs.Prelude.{◌≡◌, IfOk};
ghost use Rattle.c_tokens.specs.Tokens.{is_hash};

use crate::puncts::Punct;
use c_headers::HeaderId;
use fc_base::{NoMemory, Place, Text};
use std::alloc::Global;

/// How many tokens a source may have.
pub const TOKEN_LIMIT: u64 = 1_000_000;

/// What the spelling of an integer literal says beside its value (C11 6.4.4.1): whether it is decimal, whether it
/// has the suffix u, and the number of its letters l, from 0 to 2.
#[derive(Clone, Copy, PartialEq, Eq)]
pub struct NumberKind {
    pub decimal: bool,
    pub unsigned: bool,
    pub longs: u8,
}

/// What a token is. `CharConst` has the byte of a character constant, `Str` the bytes of a string literal without
/// its NUL, `HeaderName` the bytes between `<` and `>`, and `Header` is an inclusion that has been carried out.
#[derive(Drop)]
pub enum TokenKind {
    Name(Text),
    Number { value: u64, kind: NumberKind },
    CharConst(u8),
    Str(Text),
    Punct(Punct),
    HeaderName(Text),
    Header(HeaderId),
}

impl TokenKind {
    /// The punctuator `#`.
    pub fn is_hash(&self) -> bool
        ensures { result ≡ is_hash self.now }
    {
        matches!(self, TokenKind::Punct(Punct::Hash))
    }

    /// A copy of the kind, in memory of its own.
    pub fn copied(&self, alloc: Global) -> Result<TokenKind, NoMemory>
        ensures { IfOk result (λ copy. copy ≡ self.now) }
    {
        Ok(match self {
            TokenKind::Name(name) => TokenKind::Name(Text::from_bytes(alloc, name.bytes())?),
            TokenKind::Number { value, kind } => TokenKind::Number {
                value: *value,
                kind: *kind,
            },
            TokenKind::CharConst(byte) => TokenKind::CharConst(*byte),
            TokenKind::Str(text) => TokenKind::Str(Text::from_bytes(alloc, text.bytes())?),
            TokenKind::Punct(punct) => TokenKind::Punct(*punct),
            TokenKind::HeaderName(name) => TokenKind::HeaderName(Text::from_bytes(
                alloc,
                name.bytes(),
            )?),
            TokenKind::Header(header) => TokenKind::Header(*header),
        })
    }
}

/// A token. It starts its line where no other token stands before it there, and is spaced where white space or a
/// comment stands right before it.
#[derive(Drop)]
pub struct Token {
    pub kind: TokenKind,
    pub place: Place,
    pub starts_line: bool,
    pub spaced: bool,
}

impl Token {
    /// A copy of the token, in memory of its own.
    pub fn copied(&self, alloc: Global) -> Result<Token, NoMemory>
        ensures { IfOk result (λ copy. copy ≡ self.now) }
    {
        Ok(Token {
            kind: self.kind.copied(alloc)?,
            place: self.place,
            starts_line: self.starts_line,
            spaced: self.spaced,
        })
    }
}
