//! Type names and abstract declarators (C11 6.7.7), and the bounds of arrays (C11 6.7.6.2).

ghost use Rattle.std.specs.Prelude.{◌≡◌, ◌≤◌, ◌<◌, ◌+◌, ◌^◌, suc, max, length, IfOk};
ghost use Rattle.c_tree.specs.declared.nodes.Declarator.TheVariants as d;
ghost use Rattle.parse_meaning.specs.Terminals.{place_of};
ghost use Rattle.parse_reading.specs.Reading as spec;
ghost use Rattle.parse_tokens.specs.Rooms.{height_room};
ghost use Rattle.parse_tokens.specs.Gives.{Gives, Low};
ghost use Rattle.parse_type_names.specs.Abstracts.{with_bound, group_bound, group_at, pointer_at};
ghost use Rattle.parse_type_names.specs.Nests.{Nests};

use crate::grammar::Grammar;
use c_tokens::Punct;
use c_tree::{Declarator, Expr, PointerWord, TypeName};
use fc_base::Place;
use parse_leaves::{Context, boxed_behind, plain_specs, pointer_words, stars};
use parse_meaning::Terminal;
use parse_operators::CONDITIONAL;
use parse_tokens::{ParseFault, Tokens, WithHeight, before_right_bracket, kept};
use sqlite_items::{Boxed, Items};
use std::alloc::{AllocError, Global};
use tree_drops::{IntoBox, both};

/// `a[b]`, where `a` began at `start`.
fn array(
    alloc: Global,
    of: WithHeight<Declarator>,
    bound: WithHeight<Option<Boxed<Expr>>>,
    start: Place,
) -> Result<WithHeight<Declarator>, AllocError>
    requires of { of.height < height_room }
    requires bound { bound.height < height_room }
    ensures { IfOk result (λ x. x ≡ record { tree = d.Array of.tree bound.tree start; height = suc (max of.height bound.height) }) }
{
    let height = of.height.max(bound.height) + 1;
    let (bound, of) = boxed_behind(alloc, bound.tree, of.tree)?;
    Ok(WithHeight {
        tree: Declarator::Array {
            of,
            bound,
            place: start,
        },
        height,
    })
}

/// `* a`
fn pointed(
    alloc: Global,
    words: Items<PointerWord>,
    of: WithHeight<Declarator>,
    star: Place,
) -> Result<WithHeight<Declarator>, AllocError>
    requires { of.height + 1 < 2 ^ 64 }
    ensures { IfOk result (λ x. x ≡ record { tree = d.Pointer words of.tree star; height = suc of.height }) }
{
    let height = of.height + 1;
    let (words, of) = boxed_behind(alloc, words, of.tree)?;
    Ok(WithHeight {
        tree: Declarator::Pointer {
            words,
            of,
            place: star,
        },
        height,
    })
}

impl<F: Fn(Global, &mut Tokens<'_>, usize, u8) -> Result<WithHeight<Expr>, ParseFault>> Grammar<F> {
    #[tactic(auto, unfolding(parse_reading::specs::Reading::bound_some))]
    fn bound_some(
        &self,
        tokens: &mut Tokens<'_>,
    ) -> Result<WithHeight<Option<Boxed<Expr>>>, ParseFault>
        requires { Nests self.now.depth (F.pre self.now.expr) (F.post self.now.expr) }
        ensures reads { Gives (spec.bound_some (spec.expression self.now.depth) tokens.old) result tokens.new }
        ensures low { IfOk result (λ x. x.height ≤ self.now.depth) }
    {
        let bound = self.expression(tokens, CONDITIONAL)?;
        let bound = before_right_bracket(tokens, bound)?;
        Ok(WithHeight {
            tree: Some(Expr::boxed(self.alloc, bound.tree)?),
            height: bound.height,
        })
    }

    /// A bound or none, and the bracket that closes.
    pub fn bound(
        &self,
        tokens: &mut Tokens<'_>,
    ) -> Result<WithHeight<Option<Boxed<Expr>>>, ParseFault>
        requires { Nests self.now.depth (F.pre self.now.expr) (F.post self.now.expr) }
        ensures reads { Gives (spec.bound (spec.expression self.now.depth) tokens.old) result tokens.new }
        ensures low { IfOk result (λ x. x.height ≤ self.now.depth) }
        ensures on { IfOk result (λ _. length tokens.new < length tokens.old) }
    {
        match tokens.peek() {
            Some(Terminal::Punct(Punct::RightBracket)) => {
                tokens.next();
                Ok(WithHeight {
                    tree: None,
                    height: 0,
                })
            }
            _ => self.bound_some(tokens),
        }
    }

    /// A declarator and the bound behind a bracket, which make a tree a node higher.
    fn with_bound(
        &self,
        tokens: &mut Tokens<'_>,
        of: WithHeight<Declarator>,
        start: Place,
    ) -> Result<WithHeight<Declarator>, ParseFault>
        requires nests { Nests self.now.depth (F.pre self.now.expr) (F.post self.now.expr) }
        requires low { of.height ≤ self.now.depth + 1 }
        ensures reads { Gives (with_bound (spec.expression self.now.depth) (suc self.now.depth) start of.tree of.height tokens.old) result tokens.new }
        ensures low { IfOk result (λ x. x.height ≤ self.now.depth + 1) }
        ensures on { IfOk result (λ _. length tokens.new < length tokens.old) }
    {
        let bound = self.bound(tokens);
        let (of, bound) = both(of, bound)?;
        let whole = array(self.alloc, of, bound, start)?;
        let is_low = whole.height <= self.depth + 1;
        kept(whole, is_low)
    }

    /// Any number of bounds.
    fn arrays(
        &self,
        tokens: &mut Tokens<'_>,
        place: Place,
    ) -> Result<WithHeight<Declarator>, ParseFault>
        requires { Nests self.now.depth (F.pre self.now.expr) (F.post self.now.expr) }
        ensures reads { Gives (spec.arrays (spec.expression self.now.depth) (suc self.now.depth) place (length tokens.old) (place_of tokens.old) (spec.found (d.Omitted place) 1 tokens.old)) result tokens.new }
        ensures low { Low (self.now.depth + 1) result tokens.old tokens.new }
        ensures few { length tokens.old < 2 ^ 63 }
    {
        let start = tokens.place();
        let mut whole = WithHeight {
            tree: Declarator::Omitted { place },
            height: 1,
        };
        for _turn in 0..tokens.left() {
            if !tokens.take_left_bracket() {
                return Ok(whole);
            }
            whole = self.with_bound(tokens, whole, start)?;
        }
        let ends = !tokens.take_left_bracket();
        kept(whole, ends)
    }

    /// `)[a]`
    fn group_bound(
        &self,
        tokens: &mut Tokens<'_>,
    ) -> Result<WithHeight<Option<Boxed<Expr>>>, ParseFault>
        requires { Nests self.now.depth (F.pre self.now.expr) (F.post self.now.expr) }
        ensures reads { Gives (group_bound (spec.expression self.now.depth) tokens.old) result tokens.new }
        ensures low { IfOk result (λ x. x.height ≤ self.now.depth) }
        ensures on { IfOk result (λ _. length tokens.new + 3 ≤ length tokens.old) }
    {
        tokens.expect_right_paren()?;
        tokens.expect_left_bracket()?;
        self.bound(tokens)
    }

    /// `*)[a]` behind the parenthesis at `start`.
    fn group(
        &self,
        tokens: &mut Tokens<'_>,
        place: Place,
        start: Place,
    ) -> Result<WithHeight<Declarator>, ParseFault>
        requires { Nests self.now.depth (F.pre self.now.expr) (F.post self.now.expr) }
        ensures reads { Gives (group_at (spec.expression self.now.depth) place start tokens.old) result tokens.new }
        ensures low { Low (self.now.depth + 2) result tokens.old tokens.new }
    {
        let star = tokens.place();
        let words = stars(self.alloc, tokens)?;
        if words.is_empty() {
            return Err(ParseFault::NoDerivation);
        }
        let bound = self.group_bound(tokens)?;
        let omitted = WithHeight {
            tree: Declarator::Omitted { place },
            height: 1,
        };
        let of = pointed(self.alloc, words, omitted, star);
        let (bound, of) = both(bound, of)?;
        Ok(array(self.alloc, of, bound, start)?)
    }

    fn abstract_direct(
        &self,
        tokens: &mut Tokens<'_>,
        place: Place,
    ) -> Result<WithHeight<Declarator>, ParseFault>
        requires { Nests self.now.depth (F.pre self.now.expr) (F.post self.now.expr) }
        ensures reads { Gives (spec.abstract_direct (spec.expression self.now.depth) (suc self.now.depth) place tokens.old) result tokens.new }
        ensures low { Low (self.now.depth + 1) result tokens.old tokens.new }
        ensures few { length tokens.old < 2 ^ 63 }
    {
        match tokens.peek() {
            Some(Terminal::Punct(Punct::LeftParen)) => {
                let start = tokens.place();
                tokens.next();
                self.group(tokens, place, start)
            }
            _ => self.arrays(tokens, place),
        }
    }

    /// `* const [2]`
    fn abstract_pointer(
        &self,
        tokens: &mut Tokens<'_>,
        place: Place,
    ) -> Result<WithHeight<Declarator>, ParseFault>
        requires { Nests self.now.depth (F.pre self.now.expr) (F.post self.now.expr) }
        ensures reads { Gives (pointer_at (spec.expression self.now.depth) (suc self.now.depth) place tokens.old) result tokens.new }
        ensures low { Low (self.now.depth + 2) result (spec.pointer_words tokens.old).1 tokens.new }
    {
        let star = tokens.place();
        let words = pointer_words(self.alloc, tokens)?;
        let of = self.abstract_direct(tokens, place);
        let (words, of) = both(words, of)?;
        Ok(pointed(self.alloc, words, of, star)?)
    }

    /// An abstract declarator, with the place of the first token of its parameter or type name.
    pub fn abstract_declarator(
        &self,
        tokens: &mut Tokens<'_>,
        place: Place,
    ) -> Result<WithHeight<Declarator>, ParseFault>
        requires { Nests self.now.depth (F.pre self.now.expr) (F.post self.now.expr) }
        ensures reads { Gives (spec.abstract (spec.expression self.now.depth) (suc self.now.depth) place tokens.old) result tokens.new }
        ensures low { Low (self.now.depth + 1) result tokens.old tokens.new }
        ensures few { length tokens.old < 2 ^ 63 }
    {
        match tokens.peek() {
            Some(Terminal::Punct(Punct::Star)) => self.abstract_pointer(tokens, place),
            _ => self.abstract_direct(tokens, place),
        }
    }

    /// A type name no higher than the parts.
    #[tactic(auto, unfolding(parse_reading::specs::Reading::type_name))]
    pub fn type_name(&self, tokens: &mut Tokens<'_>) -> Result<WithHeight<TypeName>, ParseFault>
        requires { Nests self.now.depth (F.pre self.now.expr) (F.post self.now.expr) }
        ensures reads { Gives (spec.type_name self.now.depth (spec.expression self.now.depth) tokens.old) result tokens.new }
        ensures low { IfOk result (λ x. x.height ≤ self.now.depth) }
    {
        let place = tokens.place();
        let specs = plain_specs(self.alloc, tokens, Context::Inner)?;
        let declarator = self.abstract_declarator(tokens, place);
        let (specs, declarator) = both(specs, declarator)?;
        let height = specs.height.max(declarator.height) + 1;
        let name = WithHeight {
            tree: TypeName {
                specs: specs.tree.specs.finish(),
                declarator: declarator.tree,
                place,
            },
            height,
        };
        kept(name, height <= self.depth)
    }
}
