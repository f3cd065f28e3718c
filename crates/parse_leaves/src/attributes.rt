//! Attribute lists (GCC manual, "Attribute Syntax").

ghost use Rattle.std.specs.Prelude.{◌≡◌, ◌<◌, [], length, IfOk};
ghost use Rattle.parse_meaning.specs.Expressions as grammar;
ghost use Rattle.parse_reading.specs.Reading as spec;
ghost use Rattle.parse_tokens.specs.Gives.{GivesPart};
ghost use Rattle.parse_leaves.specs.Sides.{side_of};

use c_tokens::{Punct, Token};
use c_tree::Attribute;
use parse_meaning::{Brackets, Terminal};
use parse_tokens::{ParseFault, Tokens, copy_text, is_word};
use sqlite_items::Items;
use std::alloc::Global;

fn opening(punct: Punct) -> Option<Brackets>
    ensures { result ≡ grammar.opening punct }
{
    match punct {
        Punct::LeftParen => Some(Brackets::Round),
        Punct::LeftBracket => Some(Brackets::Square),
        Punct::LeftBrace => Some(Brackets::Curly),
        _ => None,
    }
}

fn closing(punct: Punct) -> Option<Brackets>
    ensures { result ≡ grammar.closing punct }
{
    match punct {
        Punct::RightParen => Some(Brackets::Round),
        Punct::RightBracket => Some(Brackets::Square),
        Punct::RightBrace => Some(Brackets::Curly),
        _ => None,
    }
}

fn same_brackets(a: Brackets, b: Brackets) -> bool
    ensures { result ≡ spec.same_brackets a b }
{
    matches!(
        (a, b),
        (Brackets::Round, Brackets::Round)
            | (Brackets::Square, Brackets::Square)
            | (Brackets::Curly, Brackets::Curly)
    )
}

/// What a token is among brackets.
#[derive(Clone, Copy, PartialEq, Eq)]
enum Side {
    Opens(Brackets),
    Closes(Brackets),
    Neither,
}

fn side_of(terminal: Terminal) -> Side
    ensures { result ≡ side_of terminal }
{
    let Terminal::Punct(punct) = terminal else {
        return Side::Neither;
    };
    match opening(punct) {
        Some(kind) => Side::Opens(kind),
        None => match closing(punct) {
            Some(kind) => Side::Closes(kind),
            None => Side::Neither,
        },
    }
}

/// Tokens in which each bracket has its partner, up to a bracket that closes none of them.
fn balanced(alloc: Global, tokens: &mut Tokens<'_>) -> Result<Items<Token>, ParseFault>
    ensures { GivesPart (spec.balanced [] tokens.old) result tokens.new }
{
    let mut waiting = Vec::new(alloc);
    let mut all = Items::new(alloc);
    while let Some(terminal) = tokens.peek() {
        match side_of(terminal) {
            Side::Opens(kind) => waiting.push(kind)?,
            Side::Closes(kind) => match waiting.pop() {
                Some(open) if same_brackets(open, kind) => (),
                Some(_) => return Err(ParseFault::NoDerivation),
                None => return Ok(all),
            },
            Side::Neither => (),
        }
        if let Some((_, token)) = tokens.next() {
            all.push(token.copied(alloc)?)?;
        }
    }
    Err(ParseFault::NoDerivation)
}

/// The tokens between the brackets of an attribute, and the bracket that closes.
#[tactic(auto, unfolding(parse_reading::specs::Reading::attribute_called))]
fn attribute_called(
    alloc: Global,
    tokens: &mut Tokens<'_>,
    name: &Token,
) -> Result<Attribute, ParseFault>
    ensures { GivesPart (spec.attribute_called name.now tokens.old) result tokens.new }
{
    let args = balanced(alloc, tokens)?;
    tokens.expect_right_paren()?;
    Ok(Attribute {
        name: copy_text(alloc, name)?,
        args: Some(args),
    })
}

fn attribute_behind(
    alloc: Global,
    tokens: &mut Tokens<'_>,
    name: &Token,
) -> Result<Attribute, ParseFault>
    ensures { GivesPart (spec.attribute_behind name.now tokens.old) result tokens.new }
{
    match tokens.peek() {
        Some(Terminal::Punct(Punct::LeftParen)) => {
            tokens.next();
            attribute_called(alloc, tokens, name)
        }
        _ => Ok(Attribute {
            name: copy_text(alloc, name)?,
            args: None,
        }),
    }
}

/// `name` or `name (1, 2)`.
#[tactic(auto, unfolding(parse_reading::specs::Reading::attribute))]
fn attribute(alloc: Global, tokens: &mut Tokens<'_>) -> Result<Attribute, ParseFault>
    ensures { GivesPart (spec.attribute tokens.old) result tokens.new }
{
    match tokens.next() {
        Some((terminal, token)) => {
            if is_word(terminal) {
                attribute_behind(alloc, tokens, token)
            } else {
                Err(ParseFault::NoDerivation)
            }
        }
        None => Err(ParseFault::NoDerivation),
    }
}

/// Attributes with commas between them, by so many turns at most, and the two brackets that close their list.
fn attributes(
    alloc: Global,
    tokens: &mut Tokens<'_>,
    turns: usize,
) -> Result<Items<Attribute>, ParseFault>
    ensures { GivesPart (spec.attributes turns tokens.old) result tokens.new }
{
    let mut all = Items::new(alloc);
    for _turn in 0..turns {
        all.push(attribute(alloc, tokens)?)?;
        if !tokens.take_comma() {
            tokens.expect_right_paren()?;
            tokens.expect_right_paren()?;
            return Ok(all);
        }
    }
    Err(ParseFault::NoDerivation)
}

fn attributes_within(alloc: Global, tokens: &mut Tokens<'_>) -> Result<Items<Attribute>, ParseFault>
    ensures { GivesPart (spec.attributes_within tokens.old) result tokens.new }
{
    match tokens.peek() {
        Some(Terminal::Punct(Punct::RightParen)) => {
            tokens.next();
            tokens.expect_right_paren()?;
            Ok(Items::new(alloc))
        }
        _ => {
            let turns = tokens.left();
            attributes(alloc, tokens, turns)
        }
    }
}

/// `((noreturn, format (printf, 1, 2)))`, behind the word `__attribute__`.
#[tactic(auto, unfolding(parse_reading::specs::Reading::attribute_list))]
pub fn attribute_list(
    alloc: Global,
    tokens: &mut Tokens<'_>,
) -> Result<Items<Attribute>, ParseFault>
    ensures reads { GivesPart (spec.attribute_list tokens.old) result tokens.new }
    ensures on { IfOk result (λ _. length tokens.new < length tokens.old) }
{
    tokens.expect_left_paren()?;
    tokens.expect_left_paren()?;
    attributes_within(alloc, tokens)
}
