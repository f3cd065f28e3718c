//! The one form of source that is compiled so far.

ghost use Rattle.std.specs.Prelude.{◌≡◌, map};
ghost use Rattle.macro_meaning.specs.Sameness.{same_kind};
ghost use Rattle.fort_forms.specs.Forms.{form_kinds};
ghost use Rattle.macro_meaning.specs.Origins.{kinds as kinds_of};
ghost use Rattle.fort_forms.specs.Reading.{part_kind, value_at, candidate, is_form, same_kinds, form_of};

use c_tokens::{HeaderId, Punct, Token, TokenKind};
use fc_base::Place;

/// The numbers of a source whose tokens are those of `#include <string.h>` and of
/// `int main(void) { char b[SIZE]; memset(b, BYTE, COUNT); return RESULT; }`, and the place of the name `memset`.
#[derive(Clone, Copy, Debug, PartialEq, Eq)]
pub struct Form {
    pub size: u32,
    pub byte: u32,
    pub count: u32,
    pub result: u32,
    pub call: Place,
}

/// A token of the form.
#[derive(Clone, Copy)]
enum Expected {
    Include(HeaderId),
    Name(&'static str),
    Mark(Punct),
    Number(u32),
}

impl Expected {
    /// It is a token of this kind.
    fn is(self, kind: &TokenKind) -> bool
        ensures { result ≡ same_kind kind.now (part_kind self) }
    {
        match (self, kind) {
            (Expected::Include(header), TokenKind::Header(other)) => *other == header,
            (Expected::Name(name), TokenKind::Name(text)) => text.bytes() == name.as_bytes(),
            (Expected::Mark(punct), TokenKind::Punct(other)) => other.is_spelled_as(punct),
            (Expected::Number(number), TokenKind::Number { value, kind }) => {
                *value == u64::from(number)
                    && kind.decimal == (number != 0)
                    && !kind.unsigned
                    && kind.longs == 0
            }
            _ => false,
        }
    }
}

/// How many tokens stand before the form's numbers and its call.
const SIZE: usize = 10;

const CALL: usize = 13;

const BYTE: usize = 17;

const COUNT: usize = 19;

const RESULT: usize = 23;

/// The tokens of the form.
#[tactic(auto, unfolding(crate::specs::Forms::form_kinds))]
fn parts(form: &Form) -> [Expected; 26]
    ensures { map part_kind result ≡ form_kinds form.now }
{
    [
        Expected::Include(HeaderId::String),
        Expected::Name("int"),
        Expected::Name("main"),
        Expected::Mark(Punct::LeftParen),
        Expected::Name("void"),
        Expected::Mark(Punct::RightParen),
        Expected::Mark(Punct::LeftBrace),
        Expected::Name("char"),
        Expected::Name("b"),
        Expected::Mark(Punct::LeftBracket),
        Expected::Number(form.size),
        Expected::Mark(Punct::RightBracket),
        Expected::Mark(Punct::Semicolon),
        Expected::Name("memset"),
        Expected::Mark(Punct::LeftParen),
        Expected::Name("b"),
        Expected::Mark(Punct::Comma),
        Expected::Number(form.byte),
        Expected::Mark(Punct::Comma),
        Expected::Number(form.count),
        Expected::Mark(Punct::RightParen),
        Expected::Mark(Punct::Semicolon),
        Expected::Name("return"),
        Expected::Number(form.result),
        Expected::Mark(Punct::Semicolon),
        Expected::Mark(Punct::RightBrace),
    ]
}

/// The tokens are these, one for one.
fn are_parts(tokens: &[Token], parts: &[Expected]) -> bool
    ensures { result ≡ same_kinds (kinds_of tokens.now) (map part_kind parts.now) }
{
    if tokens.len() != parts.len() {
        return false;
    }
    for i in 0..tokens.len() {
        if !parts[i].is(&tokens[i].kind) {
            return false;
        }
    }
    true
}

/// The value of the integer literal behind so many tokens, where it fits.
fn value_at(tokens: &[Token], i: usize) -> Option<u32>
    ensures { result ≡ value_at tokens.now i }
{
    match &tokens.get(i)?.kind {
        TokenKind::Number { value, .. } => u32::try_from(*value).ok(),
        _ => None,
    }
}

/// The form that the tokens are, if they are any.
fn candidate(tokens: &[Token]) -> Option<Form>
    ensures { result ≡ candidate tokens.now }
{
    Some(Form {
        size: value_at(tokens, SIZE)?,
        byte: value_at(tokens, BYTE)?,
        count: value_at(tokens, COUNT)?,
        result: value_at(tokens, RESULT)?,
        call: tokens.get(CALL)?.place,
    })
}

fn is_form(form: &Form) -> bool
    ensures { result ≡ is_form form.now }
{
    1 <= form.size
        && form.size <= 4096
        && form.byte <= 255
        && form.count <= 65535
        && form.result <= 255
}

/// The form that the tokens are.
#[tactic(auto, unfolding(crate::specs::Reading::form_of))]
pub fn read_form(tokens: &[Token]) -> Option<Form>
    ensures { result ≡ form_of tokens.now }
{
    let form = candidate(tokens)?;
    if is_form(&form) && are_parts(tokens, &parts(&form)) {
        Some(form)
    } else {
        None
    }
}
