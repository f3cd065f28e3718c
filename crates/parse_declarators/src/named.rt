//! What a declarator declares.

ghost use Rattle.std.specs.Prelude.{◌≡◌};
ghost use Rattle.parse_meaning.specs.Expressions.{nearer};
ghost use Rattle.parse_declarators.specs.Named.{nearest_of};

use c_tree::Declarator;
use tree_drops::LetGo;

/// What stands next to the name of a declarator, whatever parentheses are round it.
#[derive(Clone, Copy, PartialEq, Eq)]
pub enum Nearest {
    /// Nothing.
    Bare,
    Parameters,
    /// A star or an array's bound.
    Other,
}

impl Nearest {
    /// What stands nearest where this comes behind it.
    pub fn behind(self, next: Nearest) -> Nearest
        ensures { nearest_of result ≡ nearer (nearest_of self) (nearest_of next) }
    {
        match self {
            Nearest::Bare => next,
            nearest => nearest,
        }
    }
}

/// A declarator, with the name that it declares and what stands next to that.
#[derive(Drop)]
pub struct Named<'a> {
    pub tree: Declarator,
    pub name: &'a [u8],
    pub nearest: Nearest,
}

impl LetGo for Named<'_> {
    fn let_go(self) {
        self.tree.let_go();
    }
}
