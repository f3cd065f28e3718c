//! What type names, bounds and abstract declarators have in common: a function that reads expressions, and how high these
//! may be.

ghost use Rattle.std.specs.Prelude.{◌≤◌, ◌<◌, IfOk};
ghost use Rattle.parse_reading.specs.Reading as spec;
ghost use Rattle.parse_tokens.specs.Rooms.{depth_room};
ghost use Rattle.parse_tokens.specs.Gives.{Gives};
ghost use Rattle.parse_type_names.specs.Nests.{Nests};

use c_tree::Expr;
use parse_tokens::{ParseFault, Tokens, WithHeight};
use std::alloc::Global;

/// The rules of type names, bounds and abstract declarators whose expressions are at most `depth` high, over a function that
/// reads these.
#[derive(Clone, Copy)]
pub struct Grammar<F> {
    pub alloc: Global,
    pub depth: usize,
    pub expr: F,
}

impl<F: Fn(Global, &mut Tokens<'_>, usize, u8) -> Result<WithHeight<Expr>, ParseFault>> Grammar<F> {
    /// An expression of a level.
    pub fn expression(
        &self,
        tokens: &mut Tokens<'_>,
        level: u8,
    ) -> Result<WithHeight<Expr>, ParseFault>
        requires { Nests self.now.depth (F.pre self.now.expr) (F.post self.now.expr) }
        ensures reads { Gives (spec.expression self.now.depth level tokens.old) result tokens.new }
        ensures low { IfOk result (λ x. x.height ≤ self.now.depth) }
        ensures few { self.now.depth < depth_room }
    {
        (self.expr)(self.alloc, tokens, self.depth, level)
    }
}
