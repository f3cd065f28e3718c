//! Initialisers (C11 6.7.9).

ghost use Rattle.std.specs.Prelude.{◌+◌, ◌<◌, length};
ghost use Rattle.parse_meaning.specs.Expressions.{assignment};
ghost use Rattle.parse_reading.specs.Reading.{expression};
ghost use Rattle.parse_reading.specs.ReadingStatements as spec;
ghost use Rattle.parse_tokens.specs.Rooms.{depth_room};
ghost use Rattle.parse_tokens.specs.Gives.{Gives};
ghost use Rattle.parse_initialisers.specs.Nests.{Nests};
ghost use Rattle.parse_initialisers.specs.Readers.{Within};

use c_tokens::Punct;
use c_tree::Init;
use fc_base::Place;
use parse_expressions::expression;
use parse_lists::take_enumerators_end;
use parse_meaning::Terminal;
use parse_operators::ASSIGNMENT;
use parse_tokens::{ParseFault, Tokens, WithHeight};
use sqlite_items::Items;
use std::alloc::Global;
use tree_drops::InitItems;

/// Initialisers whose parts in braces are read by `deep`, to the depth.
#[derive(Clone, Copy)]
struct Initialisers<F> {
    alloc: Global,
    depth: usize,
    deep: F,
}

impl<F: Fn(Global, &mut Tokens<'_>, usize) -> Result<WithHeight<Init>, ParseFault>> Initialisers<
    F,
> {
    fn sub(&self, tokens: &mut Tokens<'_>) -> Result<WithHeight<Init>, ParseFault>
        requires { Nests spec.initialiser self.now.depth (F.pre self.now.deep) (F.post self.now.deep) }
        ensures reads { Gives (spec.initialiser self.now.depth tokens.old) result tokens.new }
        ensures low { Within self.now.depth result }
        ensures few { self.now.depth + 1 < depth_room }
    {
        (self.deep)(self.alloc, tokens, self.depth)
    }

    /// `1, 2 }` or `1, 2, }`, behind the first brace.
    fn items(&self, tokens: &mut Tokens<'_>) -> Result<WithHeight<Items<Init>>, ParseFault>
        requires { Nests spec.initialiser self.now.depth (F.pre self.now.deep) (F.post self.now.deep) }
        ensures reads { Gives (spec.inits (spec.initialiser self.now.depth) (length tokens.old) tokens.old) result tokens.new }
        ensures low { Within self.now.depth result }
    {
        let mut trees = InitItems::new(self.alloc);
        let mut height = 0;
        for _turn in 0..tokens.left() {
            let next = self.sub(tokens)?;
            trees.push(next.tree)?;
            height = height.max(next.height);
            if take_enumerators_end(tokens)? {
                return Ok(WithHeight {
                    tree: trees.finish(),
                    height,
                });
            }
        }
        Err(ParseFault::NoDerivation)
    }

    #[tactic(auto, unfolding(parse_reading::specs::ReadingStatements::init_list))]
    fn list(&self, tokens: &mut Tokens<'_>, place: Place) -> Result<WithHeight<Init>, ParseFault>
        requires { Nests spec.initialiser self.now.depth (F.pre self.now.deep) (F.post self.now.deep) }
        ensures reads { Gives (spec.init_list (spec.initialiser self.now.depth) (expression (self.now.depth + 1)) place tokens.old) result tokens.new }
        ensures low { Within (self.now.depth + 1) result }
    {
        let found = self.items(tokens)?;
        Ok(WithHeight {
            tree: Init::List {
                items: found.tree,
                place,
            },
            height: found.height + 1,
        })
    }

    #[tactic(auto, unfolding(parse_reading::specs::ReadingStatements::init_expr))]
    fn expr(&self, tokens: &mut Tokens<'_>) -> Result<WithHeight<Init>, ParseFault>
        requires { Nests spec.initialiser self.now.depth (F.pre self.now.deep) (F.post self.now.deep) }
        ensures reads { Gives (spec.init_expr (spec.initialiser self.now.depth) (expression (self.now.depth + 1)) tokens.old) result tokens.new }
        ensures low { Within (self.now.depth + 1) result }
    {
        let found = expression(self.alloc, tokens, self.depth + 1, ASSIGNMENT)?;
        Ok(WithHeight {
            tree: Init::Expr(found.tree),
            height: found.height,
        })
    }

    fn any(&self, tokens: &mut Tokens<'_>) -> Result<WithHeight<Init>, ParseFault>
        requires { Nests spec.initialiser self.now.depth (F.pre self.now.deep) (F.post self.now.deep) }
        ensures reads { Gives (spec.init_by (spec.initialiser self.now.depth) (expression (self.now.depth + 1)) tokens.old) result tokens.new }
        ensures low { Within (self.now.depth + 1) result }
    {
        let place = tokens.place();
        match tokens.peek() {
            Some(Terminal::Punct(Punct::LeftBrace)) => {
                tokens.next();
                self.list(tokens, place)
            }
            _ => self.expr(tokens),
        }
    }
}

/// An initialiser: an assignment expression, or a list in braces, to the depth.
pub fn initialiser(
    alloc: Global,
    tokens: &mut Tokens<'_>,
    depth: usize,
) -> Result<WithHeight<Init>, ParseFault>
    requires { depth < depth_room }
    ensures reads { Gives (spec.initialiser depth tokens.old) result tokens.new }
    ensures low { Within depth result }
{
    if depth == 0 {
        return Err(ParseFault::NoDerivation);
    }
    Initialisers {
        alloc,
        depth: depth - 1,
        deep: initialiser,
    }
    .any(tokens)
}
