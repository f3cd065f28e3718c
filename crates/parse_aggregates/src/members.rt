//! The members of structures and unions (C11 6.7.2.1), and lists of specifiers with bodies.

ghost use Rattle.std.specs.Prelude.{◌≤◌, ◌<◌, ◌^◌, length, IfOk};
ghost use Rattle.parse_meaning.specs.Specifiers.{outer};
ghost use Rattle.parse_reading.specs.Reading.{specs_any, specs_in};
ghost use Rattle.parse_reading.specs.ReadingDeclarators as spec;
ghost use Rattle.parse_tokens.specs.Rooms.{depth_room};
ghost use Rattle.parse_tokens.specs.Gives.{Gives, Low};
ghost use Rattle.parse_leaves.specs.Counts.{GivesCounted, GivesSpecs, total};
ghost use Rattle.parse_aggregates.specs.Nests.{NestsSpecs};

use c_tree::{Declarator, MemberDecl};
use parse_declarators::declarator;
use parse_leaves::{Context, Counted, SpecList};
use parse_lists::{take_body_end, take_declarators_end};
use parse_tokens::{ParseFault, Tokens, WithHeight, kept};
use sqlite_items::Items;
use std::alloc::Global;
use tree_drops::{DeclaratorItems, MemberDeclItems, both};

/// `*a, b[2];`
fn declarators(
    alloc: Global,
    tokens: &mut Tokens<'_>,
    depth: usize,
) -> Result<WithHeight<Items<Declarator>>, ParseFault>
    requires { depth < depth_room }
    ensures reads { Gives (spec.declarators (spec.declarator depth) (length tokens.old) tokens.old) result tokens.new }
    ensures low { Low depth result tokens.old tokens.new }
    ensures on { IfOk result (λ _. length tokens.new < length tokens.old) }
{
    let mut trees = DeclaratorItems::new(alloc);
    let mut height = 0;
    let turns = tokens.left();
    for _turn in 0..turns {
        let next = declarator(alloc, tokens, depth)?;
        let named = next.tree;
        trees.push(named.tree)?;
        height = height.max(next.height);
        if take_declarators_end(tokens)? {
            return Ok(WithHeight {
                tree: trees.finish(),
                height,
            });
        }
    }
    Err(ParseFault::NoDerivation)
}

/// The productions of specifiers with bodies, over a function that reads the specifiers of members.
#[derive(Clone, Copy)]
pub struct Bodies<F> {
    pub alloc: Global,
    /// How high what stands in a body may be, but for suffixes of its declarators.
    pub depth: usize,
    pub spec: F,
}

impl<F: Fn(Global, &mut Tokens<'_>, usize) -> Result<WithHeight<Counted>, ParseFault>> Bodies<F> {
    /// A specifier.
    fn one(&self, tokens: &mut Tokens<'_>) -> Result<WithHeight<Counted>, ParseFault>
        requires { NestsSpecs self.now.depth (F.pre self.now.spec) (F.post self.now.spec) }
        ensures reads { GivesCounted (spec.outer_spec self.now.depth tokens.old) result tokens.new }
        ensures low { Low self.now.depth result tokens.old tokens.new }
        ensures small { IfOk result (λ x. total x.tree.tally ≤ 1) }
        ensures on { IfOk result (λ _. length tokens.new < length tokens.old) }
    {
        (self.spec)(self.alloc, tokens, self.depth)
    }

    /// Specifiers, by so many turns at most.
    #[tactic(auto, using(parse_leaves::proofs::SpecSteps::behind_nothing))]
    fn specs_any(
        &self,
        tokens: &mut Tokens<'_>,
        turns: usize,
    ) -> Result<WithHeight<SpecList>, ParseFault>
        requires nests { NestsSpecs self.now.depth (F.pre self.now.spec) (F.post self.now.spec) }
        requires few { turns < 2 ^ 63 }
        ensures reads { GivesSpecs (specs_any (spec.outer_spec self.now.depth) turns tokens.old) result tokens.new }
        ensures low { Low self.now.depth result tokens.old tokens.new }
        ensures small { IfOk result (λ x. total x.tree.tally < 2 ^ 63) }
        ensures on { IfOk result (λ _. length tokens.new < length tokens.old) }
    {
        let mut list = SpecList::new(self.alloc);
        let mut height = 0;
        for _turn in 0..turns {
            let one = self.one(tokens)?;
            list.push(one.tree)?;
            height = height.max(one.height);
            if !tokens.begins_spec() {
                return Ok(WithHeight { tree: list, height });
            }
        }
        Err(ParseFault::NoDerivation)
    }

    /// Specifiers that may stand together in an external declaration.
    #[tactic(auto, unfolding(parse_reading::specs::Reading::specs_in))]
    pub fn specs(&self, tokens: &mut Tokens<'_>) -> Result<WithHeight<SpecList>, ParseFault>
        requires { NestsSpecs self.now.depth (F.pre self.now.spec) (F.post self.now.spec) }
        ensures reads { GivesSpecs (specs_in (spec.outer_spec self.now.depth) outer tokens.old) result tokens.new }
        ensures low { Low self.now.depth result tokens.old tokens.new }
        ensures small { IfOk result (λ x. total x.tree.tally < 2 ^ 63) }
        ensures on { IfOk result (λ _. length tokens.new < length tokens.old) }
        ensures few { length tokens.old < 2 ^ 63 }
    {
        let turns = tokens.left();
        let list = self.specs_any(tokens, turns)?;
        let stands = list.tree.may_stand(Context::Outer);
        kept(list, stands)
    }

    /// `int *a, b[2];`
    #[tactic(auto, unfolding(parse_reading::specs::ReadingDeclarators::member_decl))]
    fn member_decl(&self, tokens: &mut Tokens<'_>) -> Result<WithHeight<MemberDecl>, ParseFault>
        requires { NestsSpecs self.now.depth (F.pre self.now.spec) (F.post self.now.spec) }
        ensures reads { Gives (spec.member_decl (spec.declarator self.now.depth) (spec.outer_spec self.now.depth) tokens.old) result tokens.new }
        ensures low { Low self.now.depth result tokens.old tokens.new }
        ensures on { IfOk result (λ _. length tokens.new < length tokens.old) }
    {
        let specs = self.specs(tokens)?;
        let declarators = declarators(self.alloc, tokens, self.depth);
        let (specs, declarators) = both(specs, declarators)?;
        Ok(WithHeight {
            tree: MemberDecl {
                specs: specs.tree.specs.finish(),
                declarators: declarators.tree,
            },
            height: specs.height.max(declarators.height),
        })
    }

    /// `int a; char b; }`
    pub fn members(
        &self,
        tokens: &mut Tokens<'_>,
    ) -> Result<WithHeight<Items<MemberDecl>>, ParseFault>
        requires { NestsSpecs self.now.depth (F.pre self.now.spec) (F.post self.now.spec) }
        ensures reads { Gives (spec.members (spec.declarator self.now.depth) (spec.outer_spec self.now.depth) (length tokens.old) tokens.old) result tokens.new }
        ensures low { Low self.now.depth result tokens.old tokens.new }
        ensures on { IfOk result (λ _. length tokens.new < length tokens.old) }
        ensures few { length tokens.old < 2 ^ 63 }
    {
        let mut trees = MemberDeclItems::new(self.alloc);
        let mut height = 0;
        let turns = tokens.left();
        for _turn in 0..turns {
            let next = self.member_decl(tokens)?;
            trees.push(next.tree)?;
            height = height.max(next.height);
            if take_body_end(tokens) {
                return Ok(WithHeight {
                    tree: trees.finish(),
                    height,
                });
            }
        }
        Err(ParseFault::NoDerivation)
    }
}
