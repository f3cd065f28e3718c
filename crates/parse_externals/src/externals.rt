//! External declarations (C11 6.9).

ghost use Rattle.std.specs.Prelude.{◌≡◌, ◌<◌, ◌≤◌, ◌+◌, ◌*◌, ◌^◌, suc, max, [], List, map, IfOk, IfErr};
ghost use Rattle.c_headers.specs.Headers.{type_view};
ghost use Rattle.parse_meaning.specs.Terminals.{Lexeme, header_types};
ghost use Rattle.parse_meaning.specs.File.{type_names};
ghost use Rattle.parse_reading.specs.Reading.{bounded, found};
ghost use Rattle.parse_reading.specs.ReadingFile as spec;
ghost use Rattle.parse_tokens.specs.Rooms.{depth_room};
ghost use Rattle.parse_tokens.specs.Gives.{GivesAs};
ghost use Rattle.parse_tokens.specs.declared.faults.ParseFault.TheVariants as fault;
ghost use Rattle.parse_leaves.specs.Counts.{specs_of, tally_of};
ghost use Rattle.parse_declarators.specs.Named.{named_of};
ghost use Rattle.parse_initialisers.specs.Declarations.{declared_of};
ghost use Rattle.parse_externals.specs.Externals.{brace_at, declared_from, external_of};

use c_headers::HeaderType;
use c_tokens::{HeaderId, Punct, Token, TokenKind};
use c_tree::{Declarator, External, InitDeclarator, Stmt};
use fc_base::{NoMemory, Place, Text};
use parse_aggregates::outer_specs;
use parse_declarators::{Named, declarator};
use parse_initialisers::{Declared, NamedInits, init_declarators};
use parse_leaves::{SpecList, Tally};
use parse_meaning::Terminal;
use parse_statements::block_items;
use parse_tokens::{ParseFault, Tokens, WithHeight, kept};
use sqlite_items::Items;
use std::alloc::Global;
use tree_drops::{LetGo, both};

/// An external declaration, and the names of types that it makes.
#[derive(Drop)]
pub struct NamedExternal {
    pub tree: External,
    pub names: Items<Text>,
}

impl LetGo for NamedExternal {
    fn let_go(self) {
        self.tree.let_go();
        self.names.let_go();
    }
}

fn names_of_types(alloc: Global, types: &[HeaderType]) -> Result<Items<Text>, NoMemory>
    ensures { IfOk result (λ names. names ≡ map (λ t. (type_view t).name) types.now) }
{
    let mut names = Items::new(alloc);
    for t in types {
        names.push(Text::from_bytes(alloc, t.name.as_bytes())?)?;
    }
    Ok(names)
}

/// The names of types that the declarations of a header make.
fn header_types(alloc: Global, header: HeaderId) -> Result<Items<Text>, NoMemory>
    ensures { IfOk result (λ names. names ≡ header_types header) }
{
    names_of_types(alloc, header.types())
}

/// The inclusion of a header that the token is.
fn header(alloc: Global, token: &Token) -> Result<WithHeight<NamedExternal>, ParseFault>
    ensures { (t : List Lexeme) → GivesAs external_of (spec.header_read token.now.kind token.now.place t) result t }
{
    match &token.kind {
        TokenKind::Header(id) => {
            let names = header_types(alloc, *id)?;
            Ok(WithHeight {
                tree: NamedExternal {
                    tree: External::Header {
                        id: *id,
                        place: token.place,
                    },
                    names,
                },
                height: 1,
            })
        }
        _ => Err(ParseFault::NoDerivation),
    }
}

fn names_of(alloc: Global, declared: &[Declared<'_>]) -> Result<Items<Text>, NoMemory>
    ensures { IfOk result (λ names. names ≡ map (λ one. one.name.now) declared.now) }
{
    let mut names = Items::new(alloc);
    for one in declared {
        names.push(Text::from_bytes(alloc, one.name)?)?;
    }
    Ok(names)
}

/// The names of types that a declaration makes: with `typedef` all that it declares (C11 6.7.8).
fn type_names(
    alloc: Global,
    tally: Tally,
    declared: &[Declared<'_>],
) -> Result<Items<Text>, ParseFault>
    ensures names { IfOk result (λ names. names ≡ type_names (tally_of tally) (map declared_of declared.now)) }
    ensures memory { IfErr result (λ e. e ≡ fault.NoMemory) }
{
    if tally.typedef == 0 {
        Ok(Items::new(alloc))
    } else {
        let names = names_of(alloc, declared)?;
        Ok(names)
    }
}

/// The declaration with the names, if its tree is not too high.
fn within(
    declaration: WithHeight<External>,
    names: Items<Text>,
    depth: usize,
) -> Result<WithHeight<NamedExternal>, ParseFault>
    requires { depth < depth_room }
    ensures { (t : List Lexeme) → GivesAs external_of (bounded (suc depth) (found (spec.as_external declaration.tree names) declaration.height t)) result t }
{
    let is_low = declaration.height <= depth + 1;
    let named = WithHeight {
        tree: NamedExternal {
            tree: declaration.tree,
            names,
        },
        height: declaration.height,
    };
    kept(named, is_low)
}

/// A declaration of its parts (C11 6.7).
fn declaration_of(
    specs: WithHeight<SpecList>,
    declarators: WithHeight<Items<InitDeclarator>>,
    place: Place,
) -> WithHeight<External>
    requires specs { specs.height + 1 < 2 ^ 64 }
    requires declarators { declarators.height + 1 < 2 ^ 64 }
    ensures { result ≡ record { tree = External.Declaration specs.tree.specs declarators.tree place; height = suc (max specs.height declarators.height) } }
{
    WithHeight {
        height: specs.height.max(declarators.height) + 1,
        tree: External::Declaration {
            specs: specs.tree.specs.finish(),
            declarators: declarators.tree,
            place,
        },
    }
}

/// A declaration, behind its first declarator (C11 6.7).
fn declared<'a>(
    alloc: Global,
    tokens: &mut Tokens<'a>,
    depth: usize,
    specs: WithHeight<SpecList>,
    first: WithHeight<Named<'a>>,
    place: Place,
    turns: usize,
) -> Result<WithHeight<NamedExternal>, ParseFault>
    requires few { depth + 1 < depth_room }
    requires specs_low { specs.height ≤ depth + 2 ^ 63 }
    requires first_low { first.height ≤ depth + 2 ^ 63 }
    ensures { GivesAs external_of (declared_from depth place (specs_of specs.tree) specs.height turns (named_of first.entry.tree) first.entry.height tokens.old) result tokens.new }
{
    let inits = init_declarators(alloc, tokens, depth, first, turns);
    let (specs, WithHeight { tree, height }) = both(specs, inits)?;
    let NamedInits { trees, declared } = tree;
    let names = type_names(alloc, specs.tree.tally, declared.as_slice());
    let declarators = WithHeight {
        tree: trees.finish(),
        height,
    };
    let declaration = declaration_of(specs, declarators, place);
    let (declaration, names) = both(declaration, names)?;
    within(declaration, names, depth)
}

/// A function of its parts (C11 6.9.1).
fn function_of(
    specs: WithHeight<SpecList>,
    declarator: WithHeight<Declarator>,
    items: WithHeight<Items<Stmt>>,
    place: Place,
    start: Place,
) -> WithHeight<External>
    requires specs { specs.height + 2 < 2 ^ 64 }
    requires declarator { declarator.height + 2 < 2 ^ 64 }
    requires items { items.height + 2 < 2 ^ 64 }
    ensures { result ≡ record { tree = External.Function specs.tree.specs declarator.tree (Stmt.Block items.tree start) place; height = suc (max specs.height (max declarator.height (suc items.height))) } }
{
    WithHeight {
        height: specs.height.max(declarator.height.max(items.height + 1)) + 1,
        tree: External::Function {
            specs: specs.tree.specs.finish(),
            declarator: declarator.tree,
            body: Stmt::Block {
                items: items.tree,
                place: start,
            },
            place,
        },
    }
}

/// A function, behind the brace of its body (C11 6.9.1).
fn function<'a>(
    alloc: Global,
    tokens: &mut Tokens<'a>,
    depth: usize,
    specs: WithHeight<SpecList>,
    first: WithHeight<Named<'a>>,
    place: Place,
    start: Place,
) -> Result<WithHeight<NamedExternal>, ParseFault>
    requires few { depth + 1 < depth_room }
    requires specs_low { specs.height ≤ depth + 2 ^ 63 }
    requires first_low { first.height ≤ depth + 2 ^ 63 }
    ensures { GivesAs external_of (spec.body depth place (found (specs_of specs.tree) specs.height tokens.old) (found (named_of first.entry.tree) first.entry.height tokens.old) start tokens.old) result tokens.new }
{
    let items = block_items(alloc, tokens, depth);
    let parts = both(specs, items);
    let (first, (specs, items)) = both(first, parts)?;
    let Named {
        tree,
        name,
        nearest,
    } = first.tree;
    let names = type_names(alloc, specs.tree.tally, &[Declared { name, nearest }]);
    let declarator = WithHeight {
        tree,
        height: first.height,
    };
    let function = function_of(specs, declarator, items, place, start);
    let (function, names) = both(function, names)?;
    within(function, names, depth)
}

/// Takes the brace that begins a body, if it comes next.
fn takes_brace(tokens: &mut Tokens<'_>) -> bool
    ensures { brace_at tokens.old ≡ (result, tokens.new) }
{
    match tokens.peek() {
        Some(Terminal::Punct(Punct::LeftBrace)) => {
            tokens.next();
            true
        }
        _ => false,
    }
}

/// A declaration with declarators or a function, behind the specifiers.
fn declaration(
    alloc: Global,
    tokens: &mut Tokens<'_>,
    depth: usize,
    specs: WithHeight<SpecList>,
    place: Place,
) -> Result<WithHeight<NamedExternal>, ParseFault>
    requires few { depth + 1 < depth_room }
    requires specs_low { specs.height ≤ depth + 2 ^ 63 }
    ensures { GivesAs external_of (spec.declaration depth place (found (specs_of specs.tree) specs.height tokens.old) tokens.old) result tokens.new }
{
    let turns = tokens.left();
    let first = declarator(alloc, tokens, depth);
    let (specs, first) = both(specs, first)?;
    let start = tokens.place();
    if takes_brace(tokens) {
        function(alloc, tokens, depth, specs, first, place, start)
    } else {
        declared(alloc, tokens, depth, specs, first, place, turns)
    }
}

/// `struct pair { int a, b; };`, behind the specifiers: a declaration without declarators.
fn undeclared(
    alloc: Global,
    depth: usize,
    specs: WithHeight<SpecList>,
    place: Place,
) -> Result<WithHeight<NamedExternal>, ParseFault>
    requires few { depth + 1 < depth_room }
    requires specs_low { specs.height ≤ depth + 2 ^ 63 }
    ensures { (t : List Lexeme) → GivesAs external_of (bounded (suc depth) (found (spec.as_external (External.Declaration specs.tree.specs [] place) []) (suc specs.height) t)) result t }
{
    let declaration = WithHeight {
        tree: External::Declaration {
            specs: specs.tree.specs.finish(),
            declarators: Items::new(alloc),
            place,
        },
        height: specs.height + 1,
    };
    within(declaration, Items::new(alloc), depth)
}

#[tactic(auto, unfolding(parse_reading::specs::ReadingFile::specified))]
fn specified(
    alloc: Global,
    tokens: &mut Tokens<'_>,
    depth: usize,
) -> Result<WithHeight<NamedExternal>, ParseFault>
    requires { depth + 1 < depth_room }
    ensures { GivesAs external_of (spec.specified depth tokens.old) result tokens.new }
{
    let place = tokens.place();
    let specs = outer_specs(alloc, tokens, depth)?;
    match tokens.peek() {
        Some(Terminal::Punct(Punct::Semicolon)) => {
            tokens.next();
            undeclared(alloc, depth, specs, place)
        }
        _ => declaration(alloc, tokens, depth, specs, place),
    }
}

/// An external declaration, whose parts are read to the depth.
pub fn external(
    alloc: Global,
    tokens: &mut Tokens<'_>,
    depth: usize,
) -> Result<WithHeight<NamedExternal>, ParseFault>
    requires { depth + 1 < depth_room }
    ensures { GivesAs external_of (spec.external depth tokens.old) result tokens.new }
{
    match tokens.peek() {
        Some(Terminal::Header) => match tokens.next() {
            Some((_, token)) => header(alloc, token),
            None => Err(ParseFault::NoDerivation),
        },
        _ => specified(alloc, tokens, depth),
    }
}
