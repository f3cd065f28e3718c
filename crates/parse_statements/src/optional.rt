//! Expressions that may be left out.

ghost use Rattle.std.specs.Prelude.{◌≡◌, ◌<◌, ◌≤◌, IfOk};
ghost use Rattle.parse_reading.specs.Reading.{expression};
ghost use Rattle.parse_reading.specs.ReadingStatements as spec;
ghost use Rattle.parse_tokens.specs.Rooms.{depth_room};
ghost use Rattle.parse_tokens.specs.Endings as endings;
ghost use Rattle.parse_tokens.specs.Gives.{Gives};
ghost use Rattle.parse_statements.specs.Lists.{after_end, taken};

use c_tokens::Punct;
use c_tree::Expr;
use parse_expressions::expression;
use parse_meaning::Terminal;
use parse_operators::EXPRESSION;
use parse_tokens::{ParseFault, Tokens, WithHeight, before_right_paren, before_semicolon};
use std::alloc::Global;
use tree_drops::LetGo;

/// What stands behind an expression that may be left out.
#[derive(Clone, Copy)]
pub enum End {
    Semicolon,
    RightParen,
}

impl End {
    /// The part, if the token comes next.
    fn behind<T: LetGo>(
        self,
        tokens: &mut Tokens<'_>,
        part: WithHeight<T>,
    ) -> Result<WithHeight<T>, ParseFault>
        ensures reads { Gives (endings.ended (after_end self) part.tree part.height tokens.old) result tokens.new }
        ensures same { IfOk result (λ x. x ≡ part) }
    {
        match self {
            End::Semicolon => before_semicolon(tokens, part),
            End::RightParen => before_right_paren(tokens, part),
        }
    }

    /// Takes the token, if it comes next.
    fn eat(self, tokens: &mut Tokens<'_>) -> bool
        ensures { taken (after_end self tokens.old) tokens.old ≡ (result, tokens.new) }
    {
        match (self, tokens.peek()) {
            (End::Semicolon, Some(Terminal::Punct(Punct::Semicolon)))
            | (End::RightParen, Some(Terminal::Punct(Punct::RightParen))) => {
                tokens.next();
                true
            }
            _ => false,
        }
    }
}

#[tactic(auto, unfolding(parse_reading::specs::ReadingStatements::ended))]
fn ended(
    alloc: Global,
    tokens: &mut Tokens<'_>,
    depth: usize,
    end: End,
) -> Result<WithHeight<Option<Expr>>, ParseFault>
    requires { depth < depth_room }
    ensures reads { Gives (spec.ended (after_end end) (expression depth) tokens.old) result tokens.new }
    ensures low { IfOk result (λ x. x.height ≤ depth) }
{
    let WithHeight { tree, height } = expression(alloc, tokens, depth, EXPRESSION)?;
    let found = WithHeight {
        tree: Some(tree),
        height,
    };
    end.behind(tokens, found)
}

/// `a;` or `;`, and the same with the other end.
pub fn optional(
    alloc: Global,
    tokens: &mut Tokens<'_>,
    depth: usize,
    end: End,
) -> Result<WithHeight<Option<Expr>>, ParseFault>
    requires { depth < depth_room }
    ensures reads { Gives (spec.optional (after_end end) (expression depth) tokens.old) result tokens.new }
    ensures low { IfOk result (λ x. x.height ≤ depth) }
{
    if end.eat(tokens) {
        Ok(WithHeight {
            tree: None,
            height: 0,
        })
    } else {
        ended(alloc, tokens, depth, end)
    }
}
