//! A cursor over tokens, each with what it is to the grammar.

ghost use Rattle.std.specs.Prelude.{◌≡◌, Some, None, IsTrue, IsFalse, ◌<◌, ◌^◌, ◌∷◌, [], List, length, map, MatchOption};
ghost use Rattle.c_tokens.specs.declared.tokens.Token.{Token};
ghost use Rattle.c_tokens.specs.declared.tokens.TokenKind.TheVariants as kind;
ghost use Rattle.parse_meaning.specs.declared.terminals.Terminal.TheVariants as k;
ghost use Rattle.c_tokens.specs.declared.puncts.Punct.TheVariants as p;
ghost use Rattle.parse_meaning.specs.Terminals.{Lexeme, at, lexeme, terminal, place_of};
ghost use Rattle.parse_reading.specs.Reading.{begins_spec, after_left_paren, after_right_paren, after_left_bracket, after_right_bracket, after_comma, after_colon};
ghost use Rattle.parse_reading.specs.ReadingStatements.{after_semicolon, after_left_brace, after_while};
ghost use Rattle.parse_tokens.specs.Gives.{Passes};

use crate::faults::ParseFault;
use crate::terminals::is_spec;
use crate::type_names::TypeNames;
use crate::words::keyword;
use c_tokens::{Punct, Token, TokenKind};
use fc_base::Place;
use parse_meaning::{Keyword, Terminal};
use std::marker::Model;

/// The tokens that are left to read, where some names are those of types.
#[derive(Drop)]
pub struct Tokens<'a> {
    rest: &'a [Token],
    types: &'a TypeNames,
}

impl<'a> Model for Tokens<'a> {
    ghost use Rattle.std.specs.Prelude.{List};
    ghost use Rattle.parse_meaning.specs.Terminals.{Lexeme};

    ghost Value = { List Lexeme };

    ghost use Rattle.parse_tokens.specs.Cursor.{lexemes_of};

    ghost view = { lexemes_of };
}

fn named(types: &TypeNames, name: &[u8]) -> Terminal
    ensures { result ≡ terminal types.now (kind.Name name.now) }
{
    match keyword(name) {
        Some(word) => Terminal::Word(word),
        None => if types.has(name) {
            Terminal::Type
        } else {
            Terminal::Name
        },
    }
}

fn terminal(types: &TypeNames, kind: &TokenKind) -> Terminal
    ensures { result ≡ terminal types.now kind.now }
{
    match kind {
        TokenKind::Name(name) => named(types, name.bytes()),
        TokenKind::Number { .. } | TokenKind::CharConst(_) => Terminal::Constant,
        TokenKind::Str(_) => Terminal::Str,
        TokenKind::Punct(punct) => Terminal::Punct(*punct),
        TokenKind::HeaderName(_) => Terminal::Other,
        TokenKind::Header(_) => Terminal::Header,
    }
}

impl<'a> Tokens<'a> {
    pub fn new(rest: &'a [Token], types: &'a TypeNames) -> Tokens<'a>
        ensures { result ≡ map (lexeme types.now) rest.now }
    {
        Tokens { rest, types }
    }

    /// A cursor of its own at the same token, to look ahead.
    pub fn fork(&self) -> Tokens<'a>
        ensures { result ≡ self.now }
    {
        Tokens {
            rest: self.rest,
            types: self.types,
        }
    }

    /// How many are left.
    pub fn left(&self) -> usize
        ensures all { result ≡ length self.now }
        ensures few { result < 2 ^ 63 }
    {
        self.rest.len()
    }

    /// What the next token is.
    pub fn peek(&self) -> Option<Terminal>
        ensures few { length self.now < 2 ^ 63 }
        ensures next { MatchOption result (self.now ≡ []) (λ c. (o : Token) × (t : List Lexeme) × (self.now ≡ at c o ∷ t)) }
    {
        match self.rest.first() {
            Some(token) => Some(terminal(self.types, &token.kind)),
            None => None,
        }
    }

    /// Takes the next token.
    pub fn next(&mut self) -> Option<(Terminal, &'a Token)>
        ensures few { length self.old < 2 ^ 63 }
        ensures next { MatchOption result ((self.old ≡ []) × (self.new ≡ [])) (λ x. self.old ≡ at x.0 x.1.now ∷ self.new) }
    {
        match self.rest.split_first() {
            Some((token, rest)) => {
                let terminal = terminal(self.types, &token.kind);
                self.rest = rest;
                Some((terminal, token))
            }
            None => None,
        }
    }

    /// The place of the next token, or of the file's start where none is left.
    pub fn place(&self) -> Place
        ensures { result ≡ place_of self.now }
    {
        match self.rest.first() {
            Some(token) => token.place,
            None => Place { line: 1, col: 1 },
        }
    }

    /// Whether the next token begins a specifier.
    pub fn begins_spec(&self) -> bool
        ensures { result ≡ begins_spec self.now }
    {
        match self.peek() {
            Some(terminal) => is_spec(terminal),
            None => false,
        }
    }

    /// Takes `(`.
    pub fn expect_left_paren(&mut self) -> Result<(), ParseFault>
        ensures { Passes (after_left_paren self.old) result self.new }
    {
        match self.next() {
            Some((Terminal::Punct(Punct::LeftParen), _)) => Ok(()),
            _ => Err(ParseFault::NoDerivation),
        }
    }

    /// Takes `)`.
    pub fn expect_right_paren(&mut self) -> Result<(), ParseFault>
        ensures { Passes (after_right_paren self.old) result self.new }
    {
        match self.next() {
            Some((Terminal::Punct(Punct::RightParen), _)) => Ok(()),
            _ => Err(ParseFault::NoDerivation),
        }
    }

    /// Takes `[`.
    pub fn expect_left_bracket(&mut self) -> Result<(), ParseFault>
        ensures { Passes (after_left_bracket self.old) result self.new }
    {
        match self.next() {
            Some((Terminal::Punct(Punct::LeftBracket), _)) => Ok(()),
            _ => Err(ParseFault::NoDerivation),
        }
    }

    /// Takes `]`.
    pub fn expect_right_bracket(&mut self) -> Result<(), ParseFault>
        ensures { Passes (after_right_bracket self.old) result self.new }
    {
        match self.next() {
            Some((Terminal::Punct(Punct::RightBracket), _)) => Ok(()),
            _ => Err(ParseFault::NoDerivation),
        }
    }

    /// Takes `{`.
    pub fn expect_left_brace(&mut self) -> Result<(), ParseFault>
        ensures { Passes (after_left_brace self.old) result self.new }
    {
        match self.next() {
            Some((Terminal::Punct(Punct::LeftBrace), _)) => Ok(()),
            _ => Err(ParseFault::NoDerivation),
        }
    }

    /// Takes `,`.
    pub fn expect_comma(&mut self) -> Result<(), ParseFault>
        ensures { Passes (after_comma self.old) result self.new }
    {
        match self.next() {
            Some((Terminal::Punct(Punct::Comma), _)) => Ok(()),
            _ => Err(ParseFault::NoDerivation),
        }
    }

    /// Takes `:`.
    pub fn expect_colon(&mut self) -> Result<(), ParseFault>
        ensures { Passes (after_colon self.old) result self.new }
    {
        match self.next() {
            Some((Terminal::Punct(Punct::Colon), _)) => Ok(()),
            _ => Err(ParseFault::NoDerivation),
        }
    }

    /// Takes `;`.
    pub fn expect_semicolon(&mut self) -> Result<(), ParseFault>
        ensures { Passes (after_semicolon self.old) result self.new }
    {
        match self.next() {
            Some((Terminal::Punct(Punct::Semicolon), _)) => Ok(()),
            _ => Err(ParseFault::NoDerivation),
        }
    }

    /// Takes `while`.
    pub fn expect_while(&mut self) -> Result<(), ParseFault>
        ensures { Passes (after_while self.old) result self.new }
    {
        match self.next() {
            Some((Terminal::Word(Keyword::While), _)) => Ok(()),
            _ => Err(ParseFault::NoDerivation),
        }
    }

    /// Takes `,`, if it comes next.
    pub fn take_comma(&mut self) -> bool
        ensures taken { IsTrue result → after_comma self.old ≡ Some self.new }
        ensures other { IsFalse result → (after_comma self.old ≡ None) × (self.new ≡ self.old) }
    {
        match self.peek() {
            Some(Terminal::Punct(Punct::Comma)) => {
                self.next();
                true
            }
            _ => false,
        }
    }

    /// Takes `[`, if it comes next.
    pub fn take_left_bracket(&mut self) -> bool
        ensures taken { IsTrue result → after_left_bracket self.old ≡ Some self.new }
        ensures other { IsFalse result → (after_left_bracket self.old ≡ None) × (self.new ≡ self.old) }
    {
        match self.peek() {
            Some(Terminal::Punct(Punct::LeftBracket)) => {
                self.next();
                true
            }
            _ => false,
        }
    }
}
