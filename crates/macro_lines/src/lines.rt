//! What a list of tokens begins with, and the words of directives.

ghost use Rattle.std.specs.Prelude.{◌≡◌, ◌+◌, ◌≤◌, ◌<◌, length, drop, take, option_map};
ghost use Rattle.std.specs.List.{prefix_len};
ghost use Rattle.macro_meaning.specs.Macros.{same_name};
ghost use Rattle.macro_meaning.specs.Definitions.{name_of, is_defined_word};
ghost use Rattle.macro_meaning.specs.Lines.{is_directive, in_text, in_line, directive_named, directive_word};
ghost use Rattle.macro_lines.specs.Lines.{PartIs};

use c_tokens::{Token, TokenKind};
use macro_meaning::Word;

/// What a list begins with: a text of so many tokens, or a directive with so many further tokens on its line.
#[derive(Clone, Copy)]
pub enum GroupPart {
    Nothing,
    Text(usize),
    Line(usize),
}

fn is_directive(token: &Token) -> bool
    ensures { result ≡ is_directive token.now }
{
    token.kind.is_hash() && token.starts_line
}

fn text_len(tokens: &[Token]) -> usize
    ensures value { result ≡ prefix_len in_text tokens.now }
    ensures within { result ≤ length tokens.now }
{
    let mut end = 0;
    while end < tokens.len() && !is_directive(&tokens[end]) {
        end += 1;
    }
    end
}

fn line_len(tokens: &[Token]) -> usize
    ensures value { result ≡ prefix_len in_line tokens.now }
    ensures within { result ≤ length tokens.now }
{
    let mut end = 0;
    while end < tokens.len() && !tokens[end].starts_line {
        end += 1;
    }
    end
}

/// The list without so many tokens at its front.
pub fn after(tokens: &[Token], n: usize) -> &[Token]
    requires { n ≤ length tokens.now }
    ensures { result.now ≡ drop n tokens.now }
{
    &tokens[n..]
}

/// So many tokens at the front of the list.
pub fn first(tokens: &[Token], n: usize) -> &[Token]
    requires { n ≤ length tokens.now }
    ensures { result.now ≡ take n tokens.now }
{
    &tokens[..n]
}

/// What the list begins with.
pub fn part_of(tokens: &[Token]) -> GroupPart
    ensures is { PartIs tokens.now result }
{
    if tokens.is_empty() {
        GroupPart::Nothing
    } else if is_directive(&tokens[0]) {
        GroupPart::Line(line_len(after(tokens, 1)))
    } else {
        GroupPart::Text(text_len(tokens))
    }
}

/// The bytes of a name.
pub fn name_of(kind: &TokenKind) -> Option<&[u8]>
    ensures { option_map (λ n. n.now) result ≡ name_of kind.now }
{
    match kind {
        TokenKind::Name(name) => Some(name.bytes()),
        _ => None,
    }
}

/// Whether two names have the same bytes.
fn same_name(a: &[u8], b: &[u8]) -> bool
    ensures { result ≡ same_name a.now b.now }
{
    a == b
}

/// The word `defined`, which no macro may be called.
pub fn is_defined_word(name: &[u8]) -> bool
    ensures { result ≡ is_defined_word name.now }
{
    same_name(name, b"defined")
}

fn directive_named(name: &[u8]) -> Word
    ensures { result ≡ directive_named name.now }
{
    if same_name(name, b"if") {
        Word::If
    } else if same_name(name, b"ifdef") {
        Word::Ifdef
    } else if same_name(name, b"ifndef") {
        Word::Ifndef
    } else if same_name(name, b"elif") {
        Word::Elif
    } else if same_name(name, b"else") {
        Word::Else
    } else if same_name(name, b"endif") {
        Word::Endif
    } else if same_name(name, b"include") {
        Word::Include
    } else if same_name(name, b"define") {
        Word::Define
    } else if same_name(name, b"undef") {
        Word::Undef
    } else {
        Word::Unknown
    }
}

/// The word that a directive begins with.
pub fn directive_word(kind: &TokenKind) -> Word
    ensures { result ≡ directive_word kind.now }
{
    match kind {
        TokenKind::Name(name) => directive_named(name.bytes()),
        _ => Word::Unknown,
    }
}
