//! Bytes into tokens.

ghost use Rattle.std.specs.Prelude.{◌≡◌, ◌≤◌, ◌<◌, ◌^◌, length, drop, slice_index_or, false, All, IfOk};
ghost use Rattle.fc_base.specs.declared.refusals.Place.{Place};
ghost use Rattle.fc_base.specs.Answers.{Answers};
ghost use Rattle.c_tokens.specs.Pieces.{IsLexedKind};
ghost use Rattle.c_tokens.specs.Tokens.{token_limit};
ghost use Rattle.c_lexer.specs.Outcomes.{outcome_of, is_include};
ghost use Rattle.c_lexer.specs.Lexed.{lexed};
ghost use Rattle.c_lexer.specs.Cuts.{IsLexed};
ghost use Rattle.c_lexer.specs.Reading.{line_after, is_start, is_after_include, state, read_piece, read, Adds};
ghost use Rattle.c_lexer.specs.declared.reader.Line.TheVariants.{Start};

use crate::bytes::rest_from;
use crate::joined::join_lines;
use crate::pieces::piece;
use c_tokens::{Piece, TOKEN_LIMIT, Token, TokenKind};
use fc_base::{Fault, Place, Rule};
use std::alloc::Global;

/// What a line holds before a place: no token, a `#`, a `#` and `include`, or anything else.
#[derive(Clone, Copy, PartialEq, Eq)]
enum Line {
    Start,
    Hash,
    Include,
    Other,
}

/// What the tokens before a place leave: the line so far, and whether white space or a comment stands right before.
#[derive(Clone, Copy)]
struct State {
    line: Line,
    spaced: bool,
}

fn is_include(kind: &TokenKind) -> bool
    ensures { result ≡ is_include kind.now }
{
    match kind {
        TokenKind::Name(name) => name.bytes() == b"include".as_slice(),
        _ => false,
    }
}

impl Line {
    /// The line behind one more token.
    fn after(self, kind: &TokenKind) -> Line
        ensures { result ≡ line_after self kind.now }
    {
        match self {
            Line::Start if kind.is_hash() => Line::Hash,
            Line::Hash if is_include(kind) => Line::Include,
            _ => Line::Other,
        }
    }

    fn is_start(self) -> bool
        ensures { result ≡ is_start self }
    {
        self == Line::Start
    }

    /// Here a `<` opens a header name.
    fn is_after_include(self) -> bool
        ensures { result ≡ is_after_include self }
    {
        self == Line::Include
    }
}

impl State {
    fn new(line: Line, spaced: bool) -> State
        ensures { result ≡ state line spaced }
    {
        State { line, spaced }
    }
}

/// The place with this offset, or else this one.
fn place_at(places: &[Place], offset: usize, place: Place) -> Place
    ensures { result ≡ slice_index_or places.now offset place }
{
    if offset < places.len() {
        places[offset]
    } else {
        place
    }
}

/// Adds the token of a piece at the front of these places, where it has one.
fn add(
    tokens: &mut Vec<Token>,
    state: State,
    piece: Piece,
    place: Place,
    places: &[Place],
) -> Result<State, Fault>
    requires { length tokens.old.items ≤ token_limit }
    ensures { Adds result tokens.old.items tokens.new.items (read_piece state place places.now piece) }
{
    match piece {
        Piece::Space => Ok(State::new(state.line, true)),
        Piece::Newline => Ok(State::new(Line::Start, true)),
        Piece::Refused(rule, offset) => Err(Fault::refused(rule, place_at(places, offset, place))),
        Piece::Token(kind) => {
            if tokens.len() as u64 == TOKEN_LIMIT {
                return Err(Fault::refused(Rule::LimitTokens, place));
            }
            let line = state.line.after(&kind);
            let starts_line = state.line.is_start();
            tokens.push(Token {
                kind,
                place,
                starts_line,
                spaced: state.spaced,
            })?;
            Ok(State::new(line, false))
        }
    }
}

/// The places from this one on.
fn places_from(places: &[Place], at: usize) -> &[Place]
    requires { at ≤ length places.now }
    ensures { result.now ≡ drop at places.now }
{
    &places[at..]
}

/// The tokens of a text with its lines joined.
fn scan(alloc: Global, bytes: &[u8], places: &[Place]) -> Result<Vec<Token>, Fault>
    requires bound { length bytes.now < 2 ^ 63 }
    requires same { length places.now ≡ length bytes.now }
    ensures { Answers (λ v. v.items) result (λ out. outcome_of (read (state Start false) 0 bytes.now places.now) ≡ out) }
{
    let mut tokens = Vec::new(alloc);
    let mut state = State::new(Line::Start, false);
    let mut at = 0;
    while at < bytes.len() {
        let place = places[at];
        let front = piece(alloc, rest_from(bytes, at), state.line.is_after_include())?;
        let Some((size, piece)) = front else {
            return Err(Fault::refused(Rule::BadByte, place));
        };
        state = add(&mut tokens, state, piece, place, places_from(places, at))?;
        at += size;
    }
    Ok(tokens)
}

/// The tokens of the bytes, or the first refusal.
#[tactic(auto, unfolding(crate::specs::Lexed::lexed))]
pub fn tokens(alloc: Global, bytes: &[u8]) -> Result<Vec<Token>, Fault>
    requires { length bytes.now < 4294967295 }
    ensures is { Answers (λ v. v.items) result (IsLexed bytes.now) }
    ensures gives { Answers (λ v. v.items) result (λ out. lexed bytes.now ≡ out) }
    ensures kinds { IfOk result (λ v. All (λ t. IsLexedKind t.kind) v.items) }
{
    let joined = join_lines(alloc, bytes)?;
    scan(alloc, &joined.bytes, &joined.places)
}
