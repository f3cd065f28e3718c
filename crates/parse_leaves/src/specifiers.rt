//! Specifiers without bodies (C11 6.7.1 to 6.7.4).

ghost use Rattle.std.specs.Prelude.{◌≡◌, ◌+◌, ◌<◌, ◌≤◌, ◌^◌, List, ◌++◌, ◌∷◌, [], None, length, option_map, IfOk, OnOk, IfSome};
ghost use Rattle.c_tree.specs.declared.nodes.Spec.TheVariants as s;
ghost use Rattle.parse_meaning.specs.Terminals.{Lexeme};
ghost use Rattle.parse_meaning.specs.Expressions as grammar;
ghost use Rattle.parse_meaning.specs.Expressions.{identifier};
ghost use Rattle.parse_meaning.specs.Specifiers.{together, may_stand, nothing};
ghost use Rattle.parse_reading.specs.Reading as spec;
ghost use Rattle.parse_leaves.specs.Counts.{tally_of, total, context_of, GivesCounted, GivesSpecs, GivesTag};

use crate::attributes::attribute_list;
use crate::tallies::{Context, Tally};
use c_tree::{Aggregate, BasicWord, Identifier, Spec};
use fc_base::{NoMemory, Place};
use parse_meaning::{Keyword, Terminal};
use parse_tokens::{ParseFault, Tokens, WithHeight, copy_text, is_tag, kept};
use std::alloc::Global;
use tree_drops::{LetGo, SpecItems};

/// A specifier, and what it counts as.
#[derive(Drop)]
pub struct Counted {
    pub spec: Spec,
    pub tally: Tally,
}

/// Specifiers, and what they count as together.
#[derive(Drop)]
pub struct SpecList {
    pub specs: SpecItems,
    pub tally: Tally,
}

impl LetGo for SpecList {
    fn let_go(self) {}
}

impl SpecList {
    pub fn new(alloc: Global) -> SpecList
        ensures specs { result.specs ≡ [] }
        ensures tally { tally_of result.tally ≡ nothing }
        ensures total { total result.tally ≡ 0 }
    {
        SpecList {
            specs: SpecItems::new(alloc),
            tally: Tally::nothing(),
        }
    }

    /// Adds the specifier at the end.
    pub fn push(&mut self, one: Counted) -> Result<(), NoMemory>
        requires { total self.old.tally + total one.tally < 2 ^ 64 }
        ensures specs { OnOk result (self.new.specs ≡ self.old.specs ++ one.spec ∷ []) }
        ensures tally { OnOk result (tally_of self.new.tally ≡ together (tally_of self.old.tally) (tally_of one.tally)) }
        ensures total { OnOk result (total self.new.tally ≡ total self.old.tally + total one.tally) }
    {
        self.specs.push(one.spec)?;
        self.tally = self.tally.together(one.tally);
        Ok(())
    }

    /// Whether they may stand together where the list stands.
    pub fn may_stand(&self, context: Context) -> bool
        requires { total self.now.tally < 2 ^ 64 }
        ensures { result ≡ may_stand (context_of context) (tally_of self.now.tally) }
    {
        self.tally.may_stand(context)
    }
}

/// A specifier that is 1 high.
fn as_counted(spec: Spec, tally: Tally) -> WithHeight<Counted>
    ensures { result ≡ record { tree = record { spec = spec; tally = tally }; height = 1 } }
{
    WithHeight {
        tree: Counted { spec, tally },
        height: 1,
    }
}

fn basic_word(word: Keyword) -> Option<(BasicWord, Tally)>
    ensures word { option_map (λ x. (x.0, tally_of x.1)) result ≡ grammar.basic_word word }
    ensures small { IfSome result (λ x. total x.1 ≤ 1) }
{
    let nothing = Tally::nothing();
    match word {
        Keyword::Void => Some((BasicWord::Void, Tally { void: 1, ..nothing })),
        Keyword::Char => Some((BasicWord::Char, Tally { char: 1, ..nothing })),
        Keyword::Short => Some((
            BasicWord::Short,
            Tally {
                short: 1,
                ..nothing
            },
        )),
        Keyword::Int => Some((BasicWord::Int, Tally { int: 1, ..nothing })),
        Keyword::Long => Some((BasicWord::Long, Tally { long: 1, ..nothing })),
        Keyword::Signed => Some((
            BasicWord::Signed,
            Tally {
                signed: 1,
                ..nothing
            },
        )),
        Keyword::Unsigned => Some((
            BasicWord::Unsigned,
            Tally {
                unsigned: 1,
                ..nothing
            },
        )),
        _ => None,
    }
}

/// The tag behind `struct`, `union` or `enum`.
fn tag(alloc: Global, tokens: &mut Tokens<'_>) -> Result<Identifier, ParseFault>
    ensures { GivesTag tokens.old result tokens.new }
{
    match tokens.next() {
        Some((terminal, token)) if is_tag(terminal) => Ok(Identifier {
            name: copy_text(alloc, token)?,
            place: token.place,
        }),
        _ => Err(ParseFault::NoDerivation),
    }
}

/// `struct T` or `union T` behind the word.
fn tagged(
    alloc: Global,
    tokens: &mut Tokens<'_>,
    aggregate: Aggregate,
    place: Place,
) -> Result<WithHeight<Counted>, ParseFault>
    ensures reads { GivesCounted (spec.tag (λ q. s.Tagged aggregate (identifier q) None place) tokens.old) result tokens.new }
    ensures low { IfOk result (λ x. x.height ≤ 1) }
    ensures small { IfOk result (λ x. total x.tree.tally ≤ 1) }
    ensures on { IfOk result (λ _. length tokens.new ≤ length tokens.old) }
{
    let tag = tag(alloc, tokens)?;
    let spec = Spec::Tagged {
        aggregate,
        tag,
        members: None,
        place,
    };
    Ok(as_counted(spec, Tally::whole_type()))
}

/// `enum E` behind the word.
fn enum_tagged(
    alloc: Global,
    tokens: &mut Tokens<'_>,
    place: Place,
) -> Result<WithHeight<Counted>, ParseFault>
    ensures reads { GivesCounted (spec.tag (λ q. s.EnumTag (identifier q) place) tokens.old) result tokens.new }
    ensures low { IfOk result (λ x. x.height ≤ 1) }
    ensures small { IfOk result (λ x. total x.tree.tally ≤ 1) }
    ensures on { IfOk result (λ _. length tokens.new ≤ length tokens.old) }
{
    let tag = tag(alloc, tokens)?;
    Ok(as_counted(Spec::EnumTag { tag, place }, Tally::whole_type()))
}

#[tactic(auto, unfolding(parse_reading::specs::Reading::attribute_spec))]
fn attribute_spec(
    alloc: Global,
    tokens: &mut Tokens<'_>,
    place: Place,
) -> Result<WithHeight<Counted>, ParseFault>
    ensures reads { GivesCounted (spec.attribute_spec place tokens.old) result tokens.new }
    ensures low { IfOk result (λ x. x.height ≤ 1) }
    ensures small { IfOk result (λ x. total x.tree.tally ≤ 1) }
    ensures on { IfOk result (λ _. length tokens.new ≤ length tokens.old) }
{
    let list = attribute_list(alloc, tokens)?;
    Ok(as_counted(Spec::Attributes { list, place }, Tally::nothing()))
}

fn basic_spec(word: Keyword, place: Place) -> Result<WithHeight<Counted>, ParseFault>
    ensures reads { (t : List Lexeme) → GivesCounted (spec.basic_spec (grammar.basic_word word) place t) result t }
    ensures low { IfOk result (λ x. x.height ≤ 1) }
    ensures small { IfOk result (λ x. total x.tree.tally ≤ 1) }
{
    match basic_word(word) {
        Some((word, tally)) => Ok(as_counted(Spec::Basic { word, place }, tally)),
        None => Err(ParseFault::NoDerivation),
    }
}

/// What stands behind a keyword that a specifier begins with.
fn word_spec(
    alloc: Global,
    tokens: &mut Tokens<'_>,
    word: Keyword,
    place: Place,
) -> Result<WithHeight<Counted>, ParseFault>
    ensures reads { GivesCounted (spec.word_spec word place tokens.old) result tokens.new }
    ensures low { IfOk result (λ x. x.height ≤ 1) }
    ensures small { IfOk result (λ x. total x.tree.tally ≤ 1) }
    ensures on { IfOk result (λ _. length tokens.new ≤ length tokens.old) }
{
    let nothing = Tally::nothing();
    match word {
        Keyword::Typedef => Ok(as_counted(
            Spec::Typedef { place },
            Tally {
                typedef: 1,
                ..nothing
            },
        )),
        Keyword::Extern => Ok(as_counted(
            Spec::Extern { place },
            Tally {
                extern_: 1,
                ..nothing
            },
        )),
        Keyword::Static => Ok(as_counted(
            Spec::Static { place },
            Tally {
                static_: 1,
                ..nothing
            },
        )),
        Keyword::Inline => Ok(as_counted(
            Spec::Inline { place },
            Tally {
                inline: 1,
                ..nothing
            },
        )),
        Keyword::Const => Ok(as_counted(Spec::Const { place }, nothing)),
        Keyword::Attribute => attribute_spec(alloc, tokens, place),
        Keyword::Struct => tagged(alloc, tokens, Aggregate::Struct, place),
        Keyword::Union => tagged(alloc, tokens, Aggregate::Union, place),
        Keyword::Enum => enum_tagged(alloc, tokens, place),
        word => basic_spec(word, place),
    }
}

/// A specifier without a body.
pub fn plain_spec(alloc: Global, tokens: &mut Tokens<'_>) -> Result<WithHeight<Counted>, ParseFault>
    ensures reads { GivesCounted (spec.plain_spec tokens.old) result tokens.new }
    ensures low { IfOk result (λ x. x.height ≤ 1) }
    ensures small { IfOk result (λ x. total x.tree.tally ≤ 1) }
    ensures on { IfOk result (λ _. length tokens.new < length tokens.old) }
{
    match tokens.next() {
        Some((Terminal::Type, token)) => {
            let name = copy_text(alloc, token)?;
            let spec = Spec::TypedefName {
                name,
                place: token.place,
            };
            Ok(as_counted(spec, Tally::whole_type()))
        }
        Some((Terminal::Word(word), token)) => word_spec(alloc, tokens, word, token.place),
        _ => Err(ParseFault::NoDerivation),
    }
}

/// Specifiers without bodies, by so many turns at most.
fn specs_any(
    alloc: Global,
    tokens: &mut Tokens<'_>,
    turns: usize,
) -> Result<WithHeight<SpecList>, ParseFault>
    requires { turns < 2 ^ 63 }
    ensures reads { GivesSpecs (spec.specs_any spec.plain_spec turns tokens.old) result tokens.new }
    ensures low { IfOk result (λ x. x.height ≤ 1) }
    ensures small { IfOk result (λ x. total x.tree.tally < 2 ^ 63) }
    ensures on { IfOk result (λ _. length tokens.new < length tokens.old) }
{
    let mut list = SpecList::new(alloc);
    let mut height = 0;
    for _turn in 0..turns {
        let one = plain_spec(alloc, tokens)?;
        list.push(one.tree)?;
        height = height.max(one.height);
        if !tokens.begins_spec() {
            return Ok(WithHeight { tree: list, height });
        }
    }
    Err(ParseFault::NoDerivation)
}

/// Specifiers without bodies that may stand together where they stand.
#[tactic(auto, unfolding(parse_reading::specs::Reading::specs_in))]
pub fn plain_specs(
    alloc: Global,
    tokens: &mut Tokens<'_>,
    context: Context,
) -> Result<WithHeight<SpecList>, ParseFault>
    ensures reads { GivesSpecs (spec.specs_in spec.plain_spec (context_of context) tokens.old) result tokens.new }
    ensures low { IfOk result (λ x. x.height ≤ 1) }
    ensures small { IfOk result (λ x. total x.tree.tally < 2 ^ 63) }
    ensures on { IfOk result (λ _. length tokens.new < length tokens.old) }
    ensures few { length tokens.old < 2 ^ 63 }
{
    let turns = tokens.left();
    let list = specs_any(alloc, tokens, turns)?;
    let stands = list.tree.may_stand(context);
    kept(list, stands)
}
