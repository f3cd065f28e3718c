//! Specifiers that may have bodies (C11 6.7.2.1 and 6.7.2.2).

ghost use Rattle.std.specs.Prelude.{◌≡◌, ◌+◌, ◌≤◌, ◌<◌, ◌^◌, length, IfOk};
ghost use Rattle.parse_meaning.specs.Specifiers.{outer, whole_type};
ghost use Rattle.parse_reading.specs.Reading.{expression, specs_in};
ghost use Rattle.parse_reading.specs.ReadingDeclarators as spec;
ghost use Rattle.parse_tokens.specs.Rooms.{depth_room};
ghost use Rattle.parse_tokens.specs.Gives.{Low};
ghost use Rattle.parse_leaves.specs.Counts.{GivesCounted, GivesSpecs, tally_of, total};
ghost use Rattle.parse_aggregates.specs.Nests.{NestsSpecs};

use crate::enumerations::enumerators;
use crate::members::Bodies;
use c_tokens::{Punct, Token};
use c_tree::{Aggregate, Spec};
use fc_base::Place;
use parse_leaves::{Counted, SpecList, Tally, plain_spec};
use parse_lists::copy_identifier;
use parse_meaning::{Keyword, Terminal};
use parse_tokens::{ParseFault, Tokens, WithHeight, is_tag};
use std::alloc::Global;
use tree_drops::both;

/// A structure, union or enumeration as a specifier.
fn as_whole(spec: Spec, height: usize) -> WithHeight<Counted>
    ensures spec { result.tree.spec ≡ spec }
    ensures height { result.height ≡ height }
    ensures tally { tally_of result.tree.tally ≡ whole_type }
    ensures small { total result.tree.tally ≡ 1 }
{
    WithHeight {
        tree: Counted {
            spec,
            tally: Tally::whole_type(),
        },
        height,
    }
}

impl<F: Fn(Global, &mut Tokens<'_>, usize) -> Result<WithHeight<Counted>, ParseFault>> Bodies<F> {
    /// `int x; }` behind `struct {`
    #[tactic(auto, unfolding(parse_reading::specs::ReadingDeclarators::untagged))]
    fn untagged(
        &self,
        tokens: &mut Tokens<'_>,
        aggregate: Aggregate,
        place: Place,
    ) -> Result<WithHeight<Counted>, ParseFault>
        requires { NestsSpecs self.now.depth (F.pre self.now.spec) (F.post self.now.spec) }
        ensures reads { GivesCounted (spec.untagged (expression self.now.depth) (spec.declarator self.now.depth) (spec.outer_spec self.now.depth) aggregate place tokens.old) result tokens.new }
        ensures low { Low (self.now.depth + 1) result tokens.old tokens.new }
        ensures small { IfOk result (λ x. total x.tree.tally ≤ 1) }
        ensures on { IfOk result (λ _. length tokens.new < length tokens.old) }
    {
        let members = self.members(tokens)?;
        let spec = Spec::Untagged {
            aggregate,
            members: members.tree,
            place,
        };
        Ok(as_whole(spec, members.height + 1))
    }

    /// `int x; }` behind `struct S {`, with the tag's token
    #[tactic(auto, unfolding(parse_reading::specs::ReadingDeclarators::tagged))]
    fn tagged(
        &self,
        tokens: &mut Tokens<'_>,
        aggregate: Aggregate,
        place: Place,
        tag: &Token,
    ) -> Result<WithHeight<Counted>, ParseFault>
        requires { NestsSpecs self.now.depth (F.pre self.now.spec) (F.post self.now.spec) }
        ensures reads { GivesCounted (spec.tagged (expression self.now.depth) (spec.declarator self.now.depth) (spec.outer_spec self.now.depth) aggregate place tag.now tokens.old) result tokens.new }
        ensures low { Low (self.now.depth + 1) result tokens.old tokens.new }
        ensures small { IfOk result (λ x. total x.tree.tally ≤ 1) }
        ensures on { IfOk result (λ _. length tokens.new < length tokens.old) }
    {
        let tag = copy_identifier(self.alloc, tag)?;
        let members = self.members(tokens);
        let (tag, members) = both(tag, members)?;
        let spec = Spec::Tagged {
            aggregate,
            tag,
            members: Some(members.tree),
            place,
        };
        Ok(as_whole(spec, members.height + 1))
    }

    /// Behind `struct S`, with the tag's token.
    fn tagged_behind(
        &self,
        tokens: &mut Tokens<'_>,
        aggregate: Aggregate,
        place: Place,
        tag: &Token,
    ) -> Result<WithHeight<Counted>, ParseFault>
        requires { NestsSpecs self.now.depth (F.pre self.now.spec) (F.post self.now.spec) }
        ensures reads { GivesCounted (spec.tagged_behind (expression self.now.depth) (spec.declarator self.now.depth) (spec.outer_spec self.now.depth) aggregate place tag.now tokens.old) result tokens.new }
        ensures low { Low (self.now.depth + 1) result tokens.old tokens.new }
        ensures small { IfOk result (λ x. total x.tree.tally ≤ 1) }
        ensures on { IfOk result (λ _. length tokens.new ≤ length tokens.old) }
    {
        match tokens.peek() {
            Some(Terminal::Punct(Punct::LeftBrace)) => {
                tokens.next();
                self.tagged(tokens, aggregate, place, tag)
            }
            _ => {
                let spec = Spec::Tagged {
                    aggregate,
                    tag: copy_identifier(self.alloc, tag)?,
                    members: None,
                    place,
                };
                Ok(as_whole(spec, 1))
            }
        }
    }

    /// Behind `struct` or `union`, with that word's place.
    fn aggregate_spec(
        &self,
        tokens: &mut Tokens<'_>,
        aggregate: Aggregate,
        place: Place,
    ) -> Result<WithHeight<Counted>, ParseFault>
        requires { NestsSpecs self.now.depth (F.pre self.now.spec) (F.post self.now.spec) }
        ensures reads { GivesCounted (spec.aggregate_spec (expression self.now.depth) (spec.declarator self.now.depth) (spec.outer_spec self.now.depth) aggregate place tokens.old) result tokens.new }
        ensures low { Low (self.now.depth + 1) result tokens.old tokens.new }
        ensures small { IfOk result (λ x. total x.tree.tally ≤ 1) }
        ensures on { IfOk result (λ _. length tokens.new < length tokens.old) }
    {
        match tokens.next() {
            Some((Terminal::Punct(Punct::LeftBrace), _)) => self.untagged(tokens, aggregate, place),
            Some((terminal, token)) if is_tag(terminal) => {
                self.tagged_behind(tokens, aggregate, place, token)
            }
            _ => Err(ParseFault::NoDerivation),
        }
    }

    /// `A, B }` behind `enum {`
    #[tactic(auto, unfolding(parse_reading::specs::ReadingDeclarators::enum_untagged))]
    fn enum_untagged(
        &self,
        tokens: &mut Tokens<'_>,
        place: Place,
    ) -> Result<WithHeight<Counted>, ParseFault>
        requires { NestsSpecs self.now.depth (F.pre self.now.spec) (F.post self.now.spec) }
        ensures reads { GivesCounted (spec.enum_untagged (expression self.now.depth) (spec.declarator self.now.depth) (spec.outer_spec self.now.depth) place tokens.old) result tokens.new }
        ensures low { Low (self.now.depth + 1) result tokens.old tokens.new }
        ensures small { IfOk result (λ x. total x.tree.tally ≤ 1) }
        ensures on { IfOk result (λ _. length tokens.new < length tokens.old) }
    {
        let enumerators = enumerators(self.alloc, tokens, self.depth)?;
        let spec = Spec::Enum {
            tag: None,
            enumerators: enumerators.tree,
            place,
        };
        Ok(as_whole(spec, enumerators.height + 1))
    }

    /// `A, B }` behind `enum E {`, with the tag's token
    #[tactic(auto, unfolding(parse_reading::specs::ReadingDeclarators::enum_tagged))]
    fn enum_tagged(
        &self,
        tokens: &mut Tokens<'_>,
        place: Place,
        tag: &Token,
    ) -> Result<WithHeight<Counted>, ParseFault>
        requires { NestsSpecs self.now.depth (F.pre self.now.spec) (F.post self.now.spec) }
        ensures reads { GivesCounted (spec.enum_tagged (expression self.now.depth) (spec.declarator self.now.depth) (spec.outer_spec self.now.depth) place tag.now tokens.old) result tokens.new }
        ensures low { Low (self.now.depth + 1) result tokens.old tokens.new }
        ensures small { IfOk result (λ x. total x.tree.tally ≤ 1) }
        ensures on { IfOk result (λ _. length tokens.new < length tokens.old) }
    {
        let tag = copy_identifier(self.alloc, tag)?;
        let enumerators = enumerators(self.alloc, tokens, self.depth);
        let (tag, enumerators) = both(tag, enumerators)?;
        let spec = Spec::Enum {
            tag: Some(tag),
            enumerators: enumerators.tree,
            place,
        };
        Ok(as_whole(spec, enumerators.height + 1))
    }

    /// Behind `enum E`, with the tag's token.
    fn enum_behind(
        &self,
        tokens: &mut Tokens<'_>,
        place: Place,
        tag: &Token,
    ) -> Result<WithHeight<Counted>, ParseFault>
        requires { NestsSpecs self.now.depth (F.pre self.now.spec) (F.post self.now.spec) }
        ensures reads { GivesCounted (spec.enum_behind (expression self.now.depth) (spec.declarator self.now.depth) (spec.outer_spec self.now.depth) place tag.now tokens.old) result tokens.new }
        ensures low { Low (self.now.depth + 1) result tokens.old tokens.new }
        ensures small { IfOk result (λ x. total x.tree.tally ≤ 1) }
        ensures on { IfOk result (λ _. length tokens.new ≤ length tokens.old) }
    {
        match tokens.peek() {
            Some(Terminal::Punct(Punct::LeftBrace)) => {
                tokens.next();
                self.enum_tagged(tokens, place, tag)
            }
            _ => {
                let tag = copy_identifier(self.alloc, tag)?;
                Ok(as_whole(Spec::EnumTag { tag, place }, 1))
            }
        }
    }

    /// Behind `enum`, with that word's place.
    fn enum_spec(
        &self,
        tokens: &mut Tokens<'_>,
        place: Place,
    ) -> Result<WithHeight<Counted>, ParseFault>
        requires { NestsSpecs self.now.depth (F.pre self.now.spec) (F.post self.now.spec) }
        ensures reads { GivesCounted (spec.enum_spec (expression self.now.depth) (spec.declarator self.now.depth) (spec.outer_spec self.now.depth) place tokens.old) result tokens.new }
        ensures low { Low (self.now.depth + 1) result tokens.old tokens.new }
        ensures small { IfOk result (λ x. total x.tree.tally ≤ 1) }
        ensures on { IfOk result (λ _. length tokens.new < length tokens.old) }
    {
        match tokens.next() {
            Some((Terminal::Punct(Punct::LeftBrace), _)) => self.enum_untagged(tokens, place),
            Some((terminal, token)) if is_tag(terminal) => self.enum_behind(tokens, place, token),
            _ => Err(ParseFault::NoDerivation),
        }
    }

    /// A specifier.
    fn any(&self, tokens: &mut Tokens<'_>) -> Result<WithHeight<Counted>, ParseFault>
        requires { NestsSpecs self.now.depth (F.pre self.now.spec) (F.post self.now.spec) }
        ensures reads { GivesCounted (spec.spec_by (expression self.now.depth) (spec.declarator self.now.depth) (spec.outer_spec self.now.depth) tokens.old) result tokens.new }
        ensures low { Low (self.now.depth + 1) result tokens.old tokens.new }
        ensures small { IfOk result (λ x. total x.tree.tally ≤ 1) }
        ensures on { IfOk result (λ _. length tokens.new < length tokens.old) }
    {
        let place = tokens.place();
        match tokens.peek() {
            Some(Terminal::Word(Keyword::Struct)) => {
                tokens.next();
                self.aggregate_spec(tokens, Aggregate::Struct, place)
            }
            Some(Terminal::Word(Keyword::Union)) => {
                tokens.next();
                self.aggregate_spec(tokens, Aggregate::Union, place)
            }
            Some(Terminal::Word(Keyword::Enum)) => {
                tokens.next();
                self.enum_spec(tokens, place)
            }
            _ => plain_spec(self.alloc, tokens),
        }
    }
}

/// A specifier that may have a body.
fn outer_spec(
    alloc: Global,
    tokens: &mut Tokens<'_>,
    depth: usize,
) -> Result<WithHeight<Counted>, ParseFault>
    requires { depth < depth_room }
    ensures reads { GivesCounted (spec.outer_spec depth tokens.old) result tokens.new }
    ensures low { Low depth result tokens.old tokens.new }
    ensures small { IfOk result (λ x. total x.tree.tally ≤ 1) }
    ensures on { IfOk result (λ _. length tokens.new < length tokens.old) }
{
    if depth == 0 {
        return Err(ParseFault::NoDerivation);
    }
    Bodies {
        alloc,
        depth: depth - 1,
        spec: outer_spec,
    }
    .any(tokens)
}

/// The specifiers of an external declaration, with structures, unions and enumerations in them.
pub fn outer_specs(
    alloc: Global,
    tokens: &mut Tokens<'_>,
    depth: usize,
) -> Result<WithHeight<SpecList>, ParseFault>
    requires { depth < depth_room }
    ensures reads { GivesSpecs (specs_in (spec.outer_spec depth) outer tokens.old) result tokens.new }
    ensures low { Low depth result tokens.old tokens.new }
    ensures small { IfOk result (λ x. total x.tree.tally < 2 ^ 63) }
    ensures on { IfOk result (λ _. length tokens.new < length tokens.old) }
    ensures few { IfOk result (λ x. x.height ≤ depth + 2 ^ 63) }
{
    Bodies {
        alloc,
        depth,
        spec: outer_spec,
    }
    .specs(tokens)
}
