//! Expressions (C11 6.5), and the parts of declarators that lead to them.

ghost use Rattle.std.specs.Prelude.{◌≤◌, ◌<◌, ◌+◌, suc, length, IfOk};
ghost use Rattle.parse_reading.specs.Reading as spec;
ghost use Rattle.parse_tokens.specs.Rooms.{depth_room};
ghost use Rattle.parse_tokens.specs.Gives.{Gives, Low};

use crate::terms::Terms;
use c_tree::{Declarator, Expr};
use fc_base::Place;
use parse_tokens::{ParseFault, Tokens, WithHeight};
use parse_type_names::Grammar;
use sqlite_items::Boxed;
use std::alloc::Global;

/// An expression of a level, whose tree is no higher than the depth.
pub fn expression(
    alloc: Global,
    tokens: &mut Tokens<'_>,
    depth: usize,
    level: u8,
) -> Result<WithHeight<Expr>, ParseFault>
    requires { depth < depth_room }
    ensures reads { Gives (spec.expression depth level tokens.old) result tokens.new }
    ensures low { IfOk result (λ x. x.height ≤ depth) }
    ensures on { IfOk result (λ _. length tokens.new < length tokens.old) }
{
    if depth == 0 {
        return Err(ParseFault::NoDerivation);
    }
    Terms {
        grammar: Grammar {
            alloc,
            depth: depth - 1,
            expr: expression,
        },
    }
    .level_up_to(tokens, level)
}

/// The bound of an array behind its bracket, or none, and the bracket that closes.
pub fn bound(
    alloc: Global,
    tokens: &mut Tokens<'_>,
    depth: usize,
) -> Result<WithHeight<Option<Boxed<Expr>>>, ParseFault>
    requires { depth < depth_room }
    ensures reads { Gives (spec.bound (spec.expression depth) tokens.old) result tokens.new }
    ensures low { IfOk result (λ x. x.height ≤ depth) }
    ensures on { IfOk result (λ _. length tokens.new < length tokens.old) }
{
    Grammar {
        alloc,
        depth,
        expr: expression,
    }
    .bound(tokens)
}

/// An abstract declarator, with the place of the first token of its parameter or type name (C11 6.7.7).
pub fn abstract_declarator(
    alloc: Global,
    tokens: &mut Tokens<'_>,
    depth: usize,
    place: Place,
) -> Result<WithHeight<Declarator>, ParseFault>
    requires { depth < depth_room }
    ensures reads { Gives (spec.abstract (spec.expression depth) (suc depth) place tokens.old) result tokens.new }
    ensures low { Low (depth + 1) result tokens.old tokens.new }
    ensures on { IfOk result (λ _. length tokens.new ≤ length tokens.old) }
{
    Grammar {
        alloc,
        depth,
        expr: expression,
    }
    .abstract_declarator(tokens, place)
}
