//! Declarators (C11 6.7.6).

ghost use Rattle.std.specs.Prelude.{◌≡◌, ◌+◌, ◌-◌, ◌≤◌, ◌<◌, ◌^◌, suc, max, List, Some, length, IfOk, IsTrue};
ghost use Rattle.parse_meaning.specs.Terminals.{Lexeme};
ghost use Rattle.parse_reading.specs.Reading.{bounded, expression, found};
ghost use Rattle.parse_reading.specs.ReadingDeclarators as spec;
ghost use Rattle.parse_tokens.specs.Rooms.{depth_room};
ghost use Rattle.parse_tokens.specs.Gives.{Gives, Low};
ghost use Rattle.parse_declarators.specs.Named.{GivesNamed, GivesOpenings, HasRoom, as_read};
ghost use Rattle.parse_declarators.specs.Nests.{Nests};
ghost use Rattle.parse_declarators.specs.Suffixes.{begins_star, pointer_at, opening_at, left_paren_at, suffix_at, name_at, bracketed, params_at, with_bound, with_params, array_at, function_at, pointed, closed, in_parens, around};

use crate::named::{Named, Nearest};
use crate::params::Declarators;
use c_tokens::Punct;
use c_tree::{Declarator, Expr, Params, PointerWord};
use fc_base::Place;
use parse_expressions::bound;
use parse_leaves::{boxed_behind, pointer_words};
use parse_meaning::Terminal;
use parse_tokens::{ParseFault, Tokens, WithHeight, copy_text, kept, text_of};
use sqlite_items::{Boxed, Items};
use std::alloc::{AllocError, Global};
use tree_drops::{LetGo, both};

/// The stars before a direct declarator, with their qualifiers.
#[derive(Drop)]
pub struct Pointer {
    words: Items<PointerWord>,
    place: Place,
}

/// What stands before the name of a declarator, or before the parenthesis round a declarator.
#[derive(Drop)]
pub struct Opening {
    pointer: Option<Pointer>,
    /// Where the direct declarator begins.
    start: Place,
}

impl LetGo for Opening {
    fn let_go(self) {}
}

/// The openings of a declarator.
#[derive(Drop)]
pub struct Openings {
    /// What stands before each parenthesis, the inmost last.
    outer: Items<Opening>,
    /// What stands before the name.
    inmost: Opening,
}

/// How a declarator goes on.
#[derive(Clone, Copy, PartialEq, Eq)]
pub enum Suffix {
    /// With a bound in brackets.
    Array,
    /// With parameters in parentheses.
    Function,
}

/// Whether a star comes next.
fn begins_star(tokens: &Tokens<'_>) -> bool
    ensures next { result ≡ begins_star tokens.now }
    ensures few { length tokens.now < 2 ^ 63 }
{
    matches!(tokens.peek(), Some(Terminal::Punct(Punct::Star)))
}

/// `* const *`, if it comes next.
fn take_pointer(alloc: Global, tokens: &mut Tokens<'_>) -> Result<Option<Pointer>, AllocError>
    ensures reads { IfOk result (λ x. pointer_at tokens.old ≡ (x, tokens.new)) }
    ensures few { length tokens.old < 2 ^ 63 }
    ensures on { IfOk result (λ _. length tokens.new ≤ length tokens.old) }
{
    if !begins_star(tokens) {
        return Ok(None);
    }
    let place = tokens.place();
    let words = pointer_words(alloc, tokens)?;
    Ok(Some(Pointer { words, place }))
}

/// What comes before the next name or parenthesis.
fn take_opening(alloc: Global, tokens: &mut Tokens<'_>) -> Result<Opening, AllocError>
    ensures reads { IfOk result (λ x. opening_at tokens.old ≡ (x, tokens.new)) }
    ensures few { length tokens.old < 2 ^ 63 }
    ensures on { IfOk result (λ _. length tokens.new ≤ length tokens.old) }
{
    let pointer = take_pointer(alloc, tokens)?;
    Ok(Opening {
        pointer,
        start: tokens.place(),
    })
}

/// Takes the `(` of a declarator in parentheses, if it comes next. Whether it does.
fn take_left_paren(tokens: &mut Tokens<'_>) -> bool
    ensures reads { left_paren_at tokens.old ≡ (result, tokens.new) }
    ensures on { length tokens.new ≤ length tokens.old }
    ensures taken { IsTrue result → length tokens.new < length tokens.old }
{
    match tokens.peek() {
        Some(Terminal::Punct(Punct::LeftParen)) => {
            tokens.next();
            true
        }
        _ => false,
    }
}

/// How the declarator goes on, if it does.
fn next_suffix(tokens: &Tokens<'_>) -> Option<Suffix>
    ensures { result ≡ suffix_at tokens.now }
{
    match tokens.peek() {
        Some(Terminal::Punct(Punct::LeftBracket)) => Some(Suffix::Array),
        Some(Terminal::Punct(Punct::LeftParen)) => Some(Suffix::Function),
        _ => None,
    }
}

/// The name that is declared.
fn take_name<'a>(
    alloc: Global,
    tokens: &mut Tokens<'a>,
) -> Result<WithHeight<Named<'a>>, ParseFault>
    ensures reads { GivesNamed (name_at tokens.old) result tokens.new }
    ensures low { IfOk result (λ x. x.height ≡ 1) }
    ensures on { IfOk result (λ _. length tokens.new < length tokens.old) }
{
    match tokens.next() {
        Some((Terminal::Name, token)) => Ok(WithHeight {
            tree: Named {
                tree: Declarator::Name {
                    name: copy_text(alloc, token)?,
                    place: token.place,
                },
                name: text_of(token),
                nearest: Nearest::Bare,
            },
            height: 1,
        }),
        _ => Err(ParseFault::NoDerivation),
    }
}

/// What stands before the name of a declarator, and the name.
fn take_openings<'a>(
    alloc: Global,
    tokens: &mut Tokens<'a>,
) -> Result<(Openings, WithHeight<Named<'a>>), ParseFault>
    ensures reads { GivesOpenings tokens.old result tokens.new }
    ensures few { length tokens.old < 2 ^ 63 }
    ensures low { IfOk result (λ x. x.1.height ≡ 1) }
    ensures on { IfOk result (λ _. length tokens.new < length tokens.old) }
{
    let mut outer = Items::new(alloc);
    let mut inmost = take_opening(alloc, tokens)?;
    while take_left_paren(tokens) {
        outer.push(inmost)?;
        inmost = take_opening(alloc, tokens)?;
    }
    let name = take_name(alloc, tokens);
    fc_base::both(Openings { outer, inmost }, name)
}

/// The declarator behind its pointer.
fn pointed<'a>(
    alloc: Global,
    pointer: Option<Pointer>,
    direct: WithHeight<Named<'a>>,
) -> Result<WithHeight<Named<'a>>, AllocError>
    requires { direct.height < 2 ^ 64 - 1 }
    ensures reads { IfOk result (λ x. (t : List Lexeme) → as_read x t ≡ pointed pointer (as_read direct.entry t)) }
    ensures low { IfOk result (λ x. x.height ≤ direct.entry.height + 1) }
{
    let Some(Pointer { words, place }) = pointer else {
        return Ok(direct);
    };
    let WithHeight { tree: of, height } = direct;
    let (words, tree) = boxed_behind(alloc, words, of.tree)?;
    Ok(WithHeight {
        tree: Named {
            tree: Declarator::Pointer {
                words,
                of: tree,
                place,
            },
            name: of.name,
            nearest: of.nearest.behind(Nearest::Other),
        },
        height: height + 1,
    })
}

/// The declarator with a bound behind it, which begins at `start`.
fn with_bound<'a>(
    alloc: Global,
    of: WithHeight<Named<'a>>,
    size: WithHeight<Option<Boxed<Expr>>>,
    start: Place,
) -> Result<WithHeight<Named<'a>>, AllocError>
    requires of { of.height + 1 < 2 ^ 64 }
    requires size { size.height + 1 < 2 ^ 64 }
    ensures reads { IfOk result (λ x. (s t : List Lexeme) → as_read x t ≡ with_bound start (as_read of.entry s) (found size.tree size.height t)) }
    ensures height { IfOk result (λ x. x.height ≡ suc (max of.entry.height size.height)) }
{
    let height = of.height.max(size.height) + 1;
    let of = of.tree;
    let (bound, tree) = boxed_behind(alloc, size.tree, of.tree)?;
    Ok(WithHeight {
        tree: Named {
            tree: Declarator::Array {
                of: tree,
                bound,
                place: start,
            },
            name: of.name,
            nearest: of.nearest.behind(Nearest::Other),
        },
        height,
    })
}

/// The declarator with parameters behind it, which begins at `start`.
fn with_params<'a>(
    alloc: Global,
    of: WithHeight<Named<'a>>,
    params: WithHeight<Params>,
    start: Place,
) -> Result<WithHeight<Named<'a>>, AllocError>
    requires of { of.height + 1 < 2 ^ 64 }
    requires params { params.height + 1 < 2 ^ 64 }
    ensures reads { IfOk result (λ x. (s t : List Lexeme) → as_read x t ≡ with_params start (as_read of.entry s) (found params.tree params.height t)) }
    ensures height { IfOk result (λ x. x.height ≡ suc (max of.entry.height params.height)) }
{
    let height = of.height.max(params.height) + 1;
    let of = of.tree;
    let (params, tree) = boxed_behind(alloc, params.tree, of.tree)?;
    Ok(WithHeight {
        tree: Named {
            tree: Declarator::Function {
                of: tree,
                params,
                place: start,
            },
            name: of.name,
            nearest: of.nearest.behind(Nearest::Parameters),
        },
        height,
    })
}

/// The declarator, if its tree is not too high.
fn within<'a>(
    found: WithHeight<Named<'a>>,
    depth: usize,
) -> Result<WithHeight<Named<'a>>, ParseFault>
    requires { depth < depth_room }
    ensures reads { (t : List Lexeme) → GivesNamed (bounded (suc depth) (as_read found.entry t)) result t }
    ensures same { IfOk result (λ x. x.height ≡ found.entry.height) }
{
    let low_enough = found.height <= depth + 1;
    kept(found, low_enough)
}

/// `[2]`, or without a bound.
fn bracketed(
    alloc: Global,
    tokens: &mut Tokens<'_>,
    depth: usize,
) -> Result<WithHeight<Option<Boxed<Expr>>>, ParseFault>
    requires { depth < depth_room }
    ensures reads { Gives (bracketed (expression depth) tokens.old) result tokens.new }
    ensures low { IfOk result (λ x. x.height ≤ depth) }
    ensures on { IfOk result (λ _. length tokens.new < length tokens.old) }
{
    tokens.expect_left_bracket()?;
    bound(alloc, tokens, depth)
}

impl<
    'a,
    F: Fn(Global, &mut Tokens<'a>, usize) -> Result<WithHeight<Named<'a>>, ParseFault>,
> Declarators<F> {
    /// A declarator that `[2]` stands behind.
    fn array(
        &self,
        tokens: &mut Tokens<'a>,
        start: Place,
        of: WithHeight<Named<'a>>,
    ) -> Result<WithHeight<Named<'a>>, ParseFault>
        requires nests { Nests self.now.depth (F.pre self.now.declarator) (F.post self.now.declarator) }
        requires few { HasRoom of.height tokens.old }
        ensures reads { GivesNamed (array_at (suc self.now.depth) (expression self.now.depth) (spec.declarator self.now.depth) start (as_read of.entry tokens.old) tokens.old) result tokens.new }
        ensures low { Low (max of.entry.height (self.now.depth + 1)) result tokens.old tokens.new }
        ensures on { IfOk result (λ _. length tokens.new < length tokens.old) }
    {
        let size = bracketed(self.alloc, tokens, self.depth);
        let (of, size) = both(of, size)?;
        let found = with_bound(self.alloc, of, size, start)?;
        within(found, self.depth)
    }

    /// `(int x, char *y)`
    fn params(&self, tokens: &mut Tokens<'a>) -> Result<WithHeight<Params>, ParseFault>
        requires { Nests self.now.depth (F.pre self.now.declarator) (F.post self.now.declarator) }
        ensures reads { Gives (params_at (suc self.now.depth) (expression self.now.depth) (spec.declarator self.now.depth) tokens.old) result tokens.new }
        ensures low { Low self.now.depth result tokens.old tokens.new }
        ensures on { IfOk result (λ _. length tokens.new < length tokens.old) }
    {
        tokens.expect_left_paren()?;
        self.params_in(tokens)
    }

    /// A declarator that `(int x, char *y)` stands behind.
    fn function(
        &self,
        tokens: &mut Tokens<'a>,
        start: Place,
        of: WithHeight<Named<'a>>,
    ) -> Result<WithHeight<Named<'a>>, ParseFault>
        requires nests { Nests self.now.depth (F.pre self.now.declarator) (F.post self.now.declarator) }
        requires few { HasRoom of.height tokens.old }
        ensures reads { GivesNamed (function_at (suc self.now.depth) (expression self.now.depth) (spec.declarator self.now.depth) start (as_read of.entry tokens.old) tokens.old) result tokens.new }
        ensures low { Low (max of.entry.height (self.now.depth + 1)) result tokens.old tokens.new }
        ensures on { IfOk result (λ _. length tokens.new < length tokens.old) }
    {
        let params = self.params(tokens);
        let (of, params) = both(of, params)?;
        let found = with_params(self.alloc, of, params, start)?;
        within(found, self.depth)
    }

    /// How a declarator goes on, as `[2][3]`, with the place where it begins.
    fn suffixes(
        &self,
        tokens: &mut Tokens<'a>,
        start: Place,
        first: WithHeight<Named<'a>>,
    ) -> Result<WithHeight<Named<'a>>, ParseFault>
        requires nests { Nests self.now.depth (F.pre self.now.declarator) (F.post self.now.declarator) }
        requires few { HasRoom first.height tokens.old }
        ensures reads { GivesNamed (spec.suffixes (suc self.now.depth) (expression self.now.depth) (spec.declarator self.now.depth) (length tokens.old) start (as_read first.entry tokens.old)) result tokens.new }
        ensures low { Low (max first.entry.height (self.now.depth + 1)) result tokens.old tokens.new }
        ensures on { IfOk result (λ _. length tokens.new ≤ length tokens.old) }
    {
        let mut left = first;
        while let Some(suffix) = next_suffix(tokens) {
            left = match suffix {
                Suffix::Array => self.array(tokens, start, left)?,
                Suffix::Function => self.function(tokens, start, left)?,
            };
        }
        Ok(left)
    }

    /// The declarator of an opening, whose name or parentheses have been read.
    fn closed(
        &self,
        tokens: &mut Tokens<'a>,
        opening: Opening,
        first: WithHeight<Named<'a>>,
    ) -> Result<WithHeight<Named<'a>>, ParseFault>
        requires nests { Nests self.now.depth (F.pre self.now.declarator) (F.post self.now.declarator) }
        requires few { HasRoom first.height tokens.old }
        ensures reads { GivesNamed (closed (suc self.now.depth) (expression self.now.depth) (spec.declarator self.now.depth) opening (as_read first.entry tokens.old)) result tokens.new }
        ensures low { Low (max first.entry.height (self.now.depth + 1) + 1) result tokens.old tokens.new }
        ensures on { IfOk result (λ _. length tokens.new ≤ length tokens.old) }
    {
        let Opening { pointer, start } = opening;
        let direct = self.suffixes(tokens, start, first);
        let (pointer, direct) = fc_base::both(pointer, direct)?;
        Ok(pointed(self.alloc, pointer, direct)?)
    }

    /// The declarator of an opening whose parenthesis holds the inner one, from the `)` on.
    fn in_parens(
        &self,
        tokens: &mut Tokens<'a>,
        opening: Opening,
        inner: WithHeight<Named<'a>>,
    ) -> Result<WithHeight<Named<'a>>, ParseFault>
        requires nests { Nests self.now.depth (F.pre self.now.declarator) (F.post self.now.declarator) }
        requires few { HasRoom inner.height tokens.old }
        ensures reads { GivesNamed (in_parens (suc self.now.depth) (expression self.now.depth) (spec.declarator self.now.depth) opening (Some (as_read inner.entry tokens.old))) result tokens.new }
        ensures low { Low (max inner.entry.height (self.now.depth + 1)) result tokens.old tokens.new }
        ensures on { IfOk result (λ _. length tokens.new < length tokens.old) }
    {
        let paren = tokens.expect_right_paren();
        let (parts, ()) = both((opening, inner), paren)?;
        let (opening, inner) = parts;
        self.closed(tokens, opening, inner)
    }

    /// The declarator round the inner one, by what stands before each parenthesis, the inmost last.
    fn around(
        &self,
        tokens: &mut Tokens<'a>,
        outer: Items<Opening>,
        inner: WithHeight<Named<'a>>,
    ) -> Result<WithHeight<Named<'a>>, ParseFault>
        requires nests { Nests self.now.depth (F.pre self.now.declarator) (F.post self.now.declarator) }
        requires few { HasRoom inner.height tokens.old }
        ensures reads { GivesNamed (around (suc self.now.depth) (expression self.now.depth) (spec.declarator self.now.depth) outer (Some (as_read inner.entry tokens.old))) result tokens.new }
        ensures low { Low (max inner.entry.height (self.now.depth + 1)) result tokens.old tokens.new }
        ensures on { IfOk result (λ _. length tokens.new ≤ length tokens.old) }
    {
        let mut outer = outer;
        let mut declarator = inner;
        while let Some(opening) = outer.pop() {
            let next = self.in_parens(tokens, opening, declarator);
            let (left, next) = fc_base::both(outer, next)?;
            outer = left;
            declarator = next;
        }
        Ok(declarator)
    }

    /// `*(*x)[2]`: one loop has gone in to the name, and another one goes out again.
    fn whole(&self, tokens: &mut Tokens<'a>) -> Result<WithHeight<Named<'a>>, ParseFault>
        requires { Nests self.now.depth (F.pre self.now.declarator) (F.post self.now.declarator) }
        ensures reads { GivesNamed (spec.whole (suc self.now.depth) (expression self.now.depth) (spec.declarator self.now.depth) (suc (length tokens.old)) tokens.old) result tokens.new }
        ensures low { Low (self.now.depth + 1) result tokens.old tokens.new }
        ensures on { IfOk result (λ _. length tokens.new < length tokens.old) }
        ensures few { length tokens.old < 2 ^ 63 }
    {
        let (openings, name) = take_openings(self.alloc, tokens)?;
        let Openings { outer, inmost } = openings;
        let inner = self.closed(tokens, inmost, name);
        let (outer, inner) = fc_base::both(outer, inner)?;
        self.around(tokens, outer, inner)
    }
}

/// A declarator, whose parameters and bounds are lower than the depth.
pub fn declarator<'a>(
    alloc: Global,
    tokens: &mut Tokens<'a>,
    depth: usize,
) -> Result<WithHeight<Named<'a>>, ParseFault>
    requires { depth < depth_room }
    ensures reads { GivesNamed (spec.declarator depth tokens.old) result tokens.new }
    ensures low { Low depth result tokens.old tokens.new }
    ensures on { IfOk result (λ _. length tokens.new < length tokens.old) }
    ensures few { IfOk result (λ x. x.height ≤ depth + 2 ^ 63) }
{
    if depth == 0 {
        return Err(ParseFault::NoDerivation);
    }
    Declarators {
        alloc,
        depth: depth - 1,
        declarator,
    }
    .whole(tokens)
}
