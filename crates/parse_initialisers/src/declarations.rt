//! Declarators with their initialisers, and the declarations of blocks (C11 6.7).

ghost use Rattle.std.specs.Prelude.{◌≡◌, ◌<◌, ◌≤◌, ◌+◌, ◌*◌, ◌^◌, max, length, map};
ghost use Rattle.parse_meaning.specs.Statements.{are_objects, is_object};
ghost use Rattle.parse_reading.specs.ReadingDeclarators.{declarator};
ghost use Rattle.parse_reading.specs.ReadingStatements as spec;
ghost use Rattle.parse_tokens.specs.Rooms.{depth_room};
ghost use Rattle.parse_tokens.specs.Gives.{Gives, GivesAs, GivesPart};
ghost use Rattle.parse_declarators.specs.Named.{named_of, nearest_of};
ghost use Rattle.parse_initialisers.specs.Declarations.{declared_of, init_of, inits_of, local_of};
ghost use Rattle.parse_initialisers.specs.Readers.{Within, attribute_at, init_at, init_declarator_from, init_declarators_from, locals};

use crate::initialisers::initialiser;
use c_tokens::Punct;
use c_tree::{Attribute, Init, InitDeclarator, Spec};
use parse_declarators::{Named, Nearest, declarator};
use parse_leaves::{Context, SpecList, attribute_list, plain_specs};
use parse_lists::take_declarators_end;
use parse_meaning::{Keyword, Terminal};
use parse_tokens::{ParseFault, Tokens, WithHeight, kept};
use sqlite_items::Items;
use std::alloc::Global;
use tree_drops::{InitDeclaratorItems, LetGo, both};

/// A name that is declared, and what stands nearest to it in its declarator.
#[derive(Clone, Copy)]
pub struct Declared<'a> {
    pub name: &'a [u8],
    pub nearest: Nearest,
}

/// A declarator with its attributes and initialiser, and what it declares.
#[derive(Drop)]
pub struct NamedInit<'a> {
    pub tree: InitDeclarator,
    pub declared: Declared<'a>,
}

/// Several of them in order.
#[derive(Drop)]
pub struct NamedInits<'a> {
    pub trees: InitDeclaratorItems,
    pub declared: Items<Declared<'a>>,
}

/// A declaration in a block.
#[derive(Drop)]
pub struct Local {
    pub specs: Items<Spec>,
    pub declarators: Items<InitDeclarator>,
}

impl LetGo for Local {
    fn let_go(self) {
        self.specs.let_go();
        self.declarators.let_go();
    }
}

/// Takes `__attribute__`, if it comes next.
fn takes_attribute(tokens: &mut Tokens<'_>) -> bool
    ensures { attribute_at tokens.old ≡ (result, tokens.new) }
{
    match tokens.peek() {
        Some(Terminal::Word(Keyword::Attribute)) => {
            tokens.next();
            true
        }
        _ => false,
    }
}

/// Any number of attribute lists (GCC manual, "Attribute Syntax").
#[tactic(auto, using(parse_leaves::proofs::AttributeSteps::before_nothing))]
fn attribute_lists(
    alloc: Global,
    tokens: &mut Tokens<'_>,
) -> Result<Items<Items<Attribute>>, ParseFault>
    ensures { GivesPart (spec.attribute_lists (length tokens.old) tokens.old) result tokens.new }
{
    let mut lists = Items::new(alloc);
    for _turn in 0..tokens.left() {
        if !takes_attribute(tokens) {
            return Ok(lists);
        }
        lists.push(attribute_list(alloc, tokens)?)?;
    }
    if takes_attribute(tokens) {
        Err(ParseFault::NoDerivation)
    } else {
        Ok(lists)
    }
}

/// `= 1`, or nothing.
#[tactic(auto, unfolding(crate::specs::Readers::init_some))]
fn init_part(
    alloc: Global,
    tokens: &mut Tokens<'_>,
    depth: usize,
) -> Result<WithHeight<Option<Init>>, ParseFault>
    requires { depth < depth_room }
    ensures reads { Gives (init_at (spec.initialiser depth) tokens.old) result tokens.new }
    ensures low { Within depth result }
{
    match tokens.peek() {
        Some(Terminal::Punct(Punct::Assign)) => {
            tokens.next();
            let found = initialiser(alloc, tokens, depth)?;
            Ok(WithHeight {
                tree: Some(found.tree),
                height: found.height,
            })
        }
        _ => Ok(WithHeight {
            tree: None,
            height: 0,
        }),
    }
}

/// A declarator of its parts.
fn initialised<'a>(
    first: WithHeight<Named<'a>>,
    attributes: Items<Items<Attribute>>,
    init: WithHeight<Option<Init>>,
) -> WithHeight<NamedInit<'a>>
    ensures { result ≡ record { tree = record { tree = record { declarator = first.entry.tree.tree; attributes = attributes; init = init.tree }; declared = record { name = first.entry.tree.name; nearest = first.entry.tree.nearest } }; height = max first.entry.height init.height } }
{
    let Named {
        tree,
        name,
        nearest,
    } = first.tree;
    WithHeight {
        tree: NamedInit {
            tree: InitDeclarator {
                declarator: tree,
                attributes,
                init: init.tree,
            },
            declared: Declared { name, nearest },
        },
        height: first.height.max(init.height),
    }
}

/// Attribute lists and an initialiser, behind their declarator.
#[tactic(auto, unfolding(crate::specs::Readers::init_declarator_from))]
fn init_declarator<'a>(
    alloc: Global,
    tokens: &mut Tokens<'a>,
    depth: usize,
    first: WithHeight<Named<'a>>,
) -> Result<WithHeight<NamedInit<'a>>, ParseFault>
    requires few { depth < depth_room }
    requires low { first.height ≤ 2 * depth + 2 ^ 63 }
    ensures reads { GivesAs init_of (init_declarator_from (declarator depth) (spec.initialiser depth) (named_of first.entry.tree) first.entry.height tokens.old) result tokens.new }
    ensures low { Within depth result }
{
    let lists = attribute_lists(alloc, tokens);
    let (named, lists) = both(first, lists)?;
    let init = init_part(alloc, tokens, depth);
    let parts = both(lists, init);
    let (declarator, (attributes, init)) = both(named, parts)?;
    Ok(initialised(declarator, attributes, init))
}

/// `= 1, b, *c = &b;`, behind the first declarator, in at most so many turns.
pub fn init_declarators<'a>(
    alloc: Global,
    tokens: &mut Tokens<'a>,
    depth: usize,
    first: WithHeight<Named<'a>>,
    turns: usize,
) -> Result<WithHeight<NamedInits<'a>>, ParseFault>
    requires few { depth < depth_room }
    requires low { first.height ≤ 2 * depth + 2 ^ 63 }
    ensures reads { GivesAs inits_of (init_declarators_from (declarator depth) (spec.initialiser depth) turns (named_of first.entry.tree) first.entry.height tokens.old) result tokens.new }
    ensures low { Within depth result }
{
    let mut found = NamedInits {
        trees: InitDeclaratorItems::new(alloc),
        declared: Items::new(alloc),
    };
    let mut height = 0;
    let mut named = first;
    for _turn in 0..turns {
        let next = init_declarator(alloc, tokens, depth, named)?;
        let NamedInit { tree, declared } = next.tree;
        found.trees.push(tree)?;
        found.declared.push(declared)?;
        height = height.max(next.height);
        if take_declarators_end(tokens)? {
            return Ok(WithHeight {
                tree: found,
                height,
            });
        }
        named = declarator(alloc, tokens, depth)?;
    }
    named.let_go();
    Err(ParseFault::NoDerivation)
}

fn is_object(nearest: Nearest) -> bool
    ensures { result ≡ is_object (nearest_of nearest) }
{
    nearest != Nearest::Parameters
}

/// None of them is a function.
fn are_objects(declared: &[Declared<'_>]) -> bool
    ensures { result ≡ are_objects (map declared_of declared.now) }
{
    for one in declared {
        if !is_object(one.nearest) {
            return false;
        }
    }
    true
}

/// A declaration in a block of its parts.
fn as_local(
    specs: WithHeight<SpecList>,
    declarators: WithHeight<Items<InitDeclarator>>,
) -> WithHeight<Local>
    ensures { result ≡ record { tree = record { specs = specs.tree.specs; declarators = declarators.tree }; height = max specs.height declarators.height } }
{
    WithHeight {
        height: specs.height.max(declarators.height),
        tree: Local {
            specs: specs.tree.specs.finish(),
            declarators: declarators.tree,
        },
    }
}

/// A declaration in a block or in the head of a `for`, up to and with its semicolon.
#[tactic(auto, unfolding(parse_reading::specs::ReadingStatements::local))]
pub fn local_declaration(
    alloc: Global,
    tokens: &mut Tokens<'_>,
    depth: usize,
) -> Result<WithHeight<Local>, ParseFault>
    requires { depth < depth_room }
    ensures reads { GivesAs local_of (locals depth tokens.old) result tokens.new }
    ensures low { Within depth result }
{
    let list = plain_specs(alloc, tokens, Context::Block)?;
    let turns = tokens.left();
    let first = declarator(alloc, tokens, depth);
    let (listed, first) = both(list, first)?;
    let found = init_declarators(alloc, tokens, depth, first, turns);
    let (specs, WithHeight { tree, height }) = both(listed, found)?;
    let NamedInits { trees, declared } = tree;
    let holds = are_objects(declared.as_slice());
    let declarators = WithHeight {
        tree: trees.finish(),
        height,
    };
    let local = as_local(specs, declarators);
    kept(local, holds)
}
