//! Parts that a token ends. Where the token is missing the part is let go.

ghost use Rattle.std.specs.Prelude.{◌≡◌, IfOk};
ghost use Rattle.parse_reading.specs.Reading.{after_comma, after_colon, after_right_paren, after_right_bracket};
ghost use Rattle.parse_reading.specs.ReadingStatements.{after_semicolon};
ghost use Rattle.parse_tokens.specs.Endings.{ended};
ghost use Rattle.parse_tokens.specs.Gives.{Gives};

use crate::faults::{ParseFault, WithHeight};
use crate::tokens::Tokens;
use tree_drops::LetGo;

/// The part, if a comma comes next.
pub fn before_comma<T: LetGo>(
    tokens: &mut Tokens<'_>,
    part: WithHeight<T>,
) -> Result<WithHeight<T>, ParseFault>
    ensures reads { Gives (ended after_comma part.tree part.height tokens.old) result tokens.new }
    ensures same { IfOk result (λ x. x ≡ part) }
{
    match tokens.expect_comma() {
        Ok(()) => Ok(part),
        Err(fault) => {
            part.let_go();
            Err(fault)
        }
    }
}

/// The part, if a colon comes next.
pub fn before_colon<T: LetGo>(
    tokens: &mut Tokens<'_>,
    part: WithHeight<T>,
) -> Result<WithHeight<T>, ParseFault>
    ensures reads { Gives (ended after_colon part.tree part.height tokens.old) result tokens.new }
    ensures same { IfOk result (λ x. x ≡ part) }
{
    match tokens.expect_colon() {
        Ok(()) => Ok(part),
        Err(fault) => {
            part.let_go();
            Err(fault)
        }
    }
}

/// The part, if a semicolon comes next.
pub fn before_semicolon<T: LetGo>(
    tokens: &mut Tokens<'_>,
    part: WithHeight<T>,
) -> Result<WithHeight<T>, ParseFault>
    ensures reads { Gives (ended after_semicolon part.tree part.height tokens.old) result tokens.new }
    ensures same { IfOk result (λ x. x ≡ part) }
{
    match tokens.expect_semicolon() {
        Ok(()) => Ok(part),
        Err(fault) => {
            part.let_go();
            Err(fault)
        }
    }
}

/// The part, if `)` comes next.
pub fn before_right_paren<T: LetGo>(
    tokens: &mut Tokens<'_>,
    part: WithHeight<T>,
) -> Result<WithHeight<T>, ParseFault>
    ensures reads { Gives (ended after_right_paren part.tree part.height tokens.old) result tokens.new }
    ensures same { IfOk result (λ x. x ≡ part) }
{
    match tokens.expect_right_paren() {
        Ok(()) => Ok(part),
        Err(fault) => {
            part.let_go();
            Err(fault)
        }
    }
}

/// The part, if `]` comes next.
pub fn before_right_bracket<T: LetGo>(
    tokens: &mut Tokens<'_>,
    part: WithHeight<T>,
) -> Result<WithHeight<T>, ParseFault>
    ensures reads { Gives (ended after_right_bracket part.tree part.height tokens.old) result tokens.new }
    ensures same { IfOk result (λ x. x ≡ part) }
{
    match tokens.expect_right_bracket() {
        Ok(()) => Ok(part),
        Err(fault) => {
            part.let_go();
            Err(fault)
        }
    }
}
