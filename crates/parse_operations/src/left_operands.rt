//! Expressions so far, and parts of nodes, boxed.

ghost use Rattle.std.specs.Prelude.{◌≡◌, IfOk};

use c_tree::{Expr, ExprKind};
use fc_base::Place;
use parse_leaves::boxed_behind;
use parse_tokens::WithHeight;
use sqlite_items::Boxed;
use std::alloc::{AllocError, Global};
use tree_drops::{IntoBox, LetGo, both};

/// An expression so far, and its level.
#[derive(Drop)]
pub struct LeftOperand {
    pub level: u8,
    pub tree: Expr,
    pub height: usize,
}

impl LetGo for LeftOperand {
    fn let_go(self) {
        self.tree.let_go();
    }
}

impl LeftOperand {
    ghost use Rattle.parse_meaning.specs.Expressions.{expr};

    /// A node of the level.
    pub fn new(level: u8, kind: ExprKind, place: Place, height: usize) -> LeftOperand
        ensures { result ≡ record { level = level; tree = expr kind place; height = height } }
    {
        LeftOperand {
            level,
            tree: Expr { kind, place },
            height,
        }
    }

    /// The expression, which does not go on.
    pub fn finish(self) -> WithHeight<Expr>
        ensures { result ≡ record { tree = self.tree; height = self.height } }
    {
        WithHeight {
            tree: self.tree,
            height: self.height,
        }
    }
}

/// Two parts of a node.
pub fn boxed_pair<A: IntoBox, B: IntoBox>(
    alloc: Global,
    a: A,
    b: B,
) -> Result<(Boxed<A>, Boxed<B>), AllocError>
    ensures { IfOk result (λ pair. pair ≡ (a, b)) }
{
    let (a, b) = boxed_behind(alloc, a, b)?;
    let (b, a) = boxed_behind(alloc, b, a)?;
    Ok((a, b))
}

/// Three parts of a node.
pub fn boxed_three<A: IntoBox, B: IntoBox, C: IntoBox>(
    alloc: Global,
    a: A,
    b: B,
    c: C,
) -> Result<(Boxed<A>, Boxed<B>, Boxed<C>), AllocError>
    ensures { IfOk result (λ parts. parts ≡ (a, b, c)) }
{
    let (c, pair) = both(c, boxed_pair(alloc, a, b))?;
    let ((a, b), c) = boxed_behind(alloc, pair, c)?;
    Ok((a, b, c))
}
