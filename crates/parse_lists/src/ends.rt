//! What stands behind an item of a list.

ghost use Rattle.std.specs.Prelude.{◌≡◌, ◌≤◌, ◌<◌, length, IfOk};
ghost use Rattle.parse_tokens.specs.Gives.{GivesPart};
ghost use Rattle.parse_lists.specs.Ends as spec;

use c_tokens::Punct;
use parse_meaning::Terminal;
use parse_tokens::{ParseFault, Tokens};

/// Takes the `,` or the `)` behind a parameter. Whether it was the last one.
pub fn take_params_end(tokens: &mut Tokens<'_>) -> Result<bool, ParseFault>
    ensures reads { GivesPart (spec.params_end_at tokens.old) result tokens.new }
    ensures on { IfOk result (λ _. length tokens.new < length tokens.old) }
{
    match tokens.next() {
        Some((Terminal::Punct(Punct::Comma), _)) => Ok(false),
        Some((Terminal::Punct(Punct::RightParen), _)) => Ok(true),
        _ => Err(ParseFault::NoDerivation),
    }
}

/// Takes the `,` or the `;` behind a declarator of members. Whether it was the last one.
pub fn take_declarators_end(tokens: &mut Tokens<'_>) -> Result<bool, ParseFault>
    ensures reads { GivesPart (spec.declarators_end_at tokens.old) result tokens.new }
    ensures on { IfOk result (λ _. length tokens.new < length tokens.old) }
{
    match tokens.next() {
        Some((Terminal::Punct(Punct::Comma), _)) => Ok(false),
        Some((Terminal::Punct(Punct::Semicolon), _)) => Ok(true),
        _ => Err(ParseFault::NoDerivation),
    }
}

/// Takes the `}` of a body, if it comes next. Whether it does.
pub fn take_body_end(tokens: &mut Tokens<'_>) -> bool
    ensures reads { spec.body_end_at tokens.old ≡ (result, tokens.new) }
    ensures on { length tokens.new ≤ length tokens.old }
{
    match tokens.peek() {
        Some(Terminal::Punct(Punct::RightBrace)) => {
            tokens.next();
            true
        }
        _ => false,
    }
}

/// Takes the `,`, the `}` or both behind an enumerator. Whether it was the last one.
pub fn take_enumerators_end(tokens: &mut Tokens<'_>) -> Result<bool, ParseFault>
    ensures reads { GivesPart (spec.enumerators_end_at tokens.old) result tokens.new }
    ensures on { IfOk result (λ _. length tokens.new < length tokens.old) }
{
    match tokens.next() {
        Some((Terminal::Punct(Punct::RightBrace), _)) => Ok(true),
        Some((Terminal::Punct(Punct::Comma), _)) => Ok(take_body_end(tokens)),
        _ => Err(ParseFault::NoDerivation),
    }
}
