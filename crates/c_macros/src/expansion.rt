//! The whole list, directive by directive and text by text.

ghost use Rattle.std.specs.Prelude.{◌≡◌, length, [], IfOk, reverse};
ghost use Rattle.std.specs.List.{All};
ghost use Rattle.fc_base.specs.Answers.{Answers};
ghost use Rattle.macro_meaning.specs.Macros.{Macros, items};
ghost use Rattle.macro_meaning.specs.Expansion.{Expanded, IsExpanded, Moved};
ghost use Rattle.c_tokens.specs.Pieces.{IsLexedKind};
ghost use Rattle.macro_meaning.specs.Moves as moves;
ghost use Rattle.macro_items.specs.Views.{table, views};
ghost use Rattle.c_macros.specs.States.{state_view, EndsAs};
ghost use Rattle.macro_lines.specs.Lines.{PartIs};
ghost use Rattle.macro_lines.specs.declared.GroupPart.TheVariants as part;
ghost use Rattle.macro_replacement.specs.Replacing.{AddsAs};
ghost use Rattle.c_macros.specs.Doing.{DoesAs};

use crate::directives::directive;
use c_tokens::Token;
use fc_base::{Fault, Level, Rule};
use indexmap::IndexMap;
use macro_definitions::{State, set_macro, takes};
use macro_items::{Item, Macros};
use macro_lines::{
    Builtins, GroupPart, after, first, fortify_source, item, make_builtins, part_of,
};
use macro_meaning::Group;
use macro_replacement::append_replaced;
use std::alloc::{AllocError, Global};

fn items<'a>(alloc: Global, text: &'a [Token]) -> Result<Vec<Item<'a>>, AllocError>
    ensures { IfOk result (λ v. views v.items ≡ items text.now) }
{
    let mut list = Vec::with_capacity(alloc, text.len())?;
    for token in text {
        list.push(item(&token.kind, token))?;
    }
    Ok(list)
}

/// Expands the text of a taken group.
fn take_text<'a>(
    alloc: Global,
    macros: &Macros<'a>,
    text: &'a [Token],
    done: &mut Vec<Token>,
    count: u64,
) -> Result<u64, Fault>
    ensures { AddsAs result (table macros.now) count (items text.now) done.old.items done.new.items }
{
    let list = items(alloc, text)?;
    append_replaced(alloc, macros, list, count, done)
}

fn start<'a>(alloc: Global, tokens: &'a Builtins, level: Level) -> Result<State<'a>, AllocError>
    ensures { IfOk result (λ st. state_view st ≡ moves.start level) }
{
    let mut macros = IndexMap::new(alloc);
    let (name, meaning) = fortify_source(alloc, tokens, level)?;
    set_macro(&mut macros, name, meaning)?;
    let groups = Vec::new(alloc);
    let headers = Vec::new(alloc);
    Ok(State {
        alloc,
        tokens,
        macros,
        groups,
        headers,
    })
}

/// The end of the list, where no conditional may be open.
fn finish(groups: &[Group]) -> Result<(), Fault>
    ensures { EndsAs result (moves.at_end (reverse groups.now)) }
{
    if groups.is_empty() {
        Ok(())
    } else {
        Err(Fault::refused(Rule::OpenConditional, groups[0].place))
    }
}

/// A text at the front of the list, which is expanded where its group is taken.
fn text_part<'a>(
    st: &State<'a>,
    rest: &'a [Token],
    n: usize,
    done: &mut Vec<Token>,
    count: u64,
) -> Result<u64, Fault>
    requires { PartIs rest.now (part.Text n) }
    ensures { DoesAs result (state_view st.now) count (moves.move (state_view st.now) rest.now) (state_view st.now) done.old.items done.new.items }
{
    if takes(&st.groups) {
        take_text(st.alloc, &st.macros, first(rest, n), done, count)
    } else {
        Ok(count)
    }
}

/// A directive at the front of the list.
fn line_part<'a>(
    st: &mut State<'a>,
    rest: &'a [Token],
    n: usize,
    done: &mut Vec<Token>,
    count: u64,
) -> Result<u64, Fault>
    requires { PartIs rest.now (part.Line n) }
    ensures { DoesAs result (state_view st.old) count (moves.move (state_view st.old) rest.now) (state_view st.new) done.old.items done.new.items }
{
    let line = first(after(rest, 1), n);
    directive(st, &rest[0], line, done, count)
}

/// Goes through the list part by part, and puts what the parts give into the empty list `done`.
fn take_parts<'a>(
    source: &'a [Token],
    st: &mut State<'a>,
    done: &mut Vec<Token>,
) -> Result<(), Fault>
    requires { done.old.items ≡ [] }
    ensures { Answers (λ u. done.new.items) result (Moved (state_view st.old) (length source.now) source.now) }
{
    let mut count = source.len() as u64;
    let mut at = 0;
    'parts: loop {
        let rest = after(source, at);
        match part_of(rest) {
            GroupPart::Nothing => return finish(&st.groups),
            GroupPart::Text(n) => {
                count = text_part(st, rest, n, done, count)?;
                at += n;
            }
            GroupPart::Line(n) => {
                count = line_part(st, rest, n, done, count)?;
                at += n + 1;
            }
        }
    }
}

fn run<'a>(
    alloc: Global,
    tokens: &'a Builtins,
    source: &'a [Token],
    level: Level,
) -> Result<Vec<Token>, Fault>
    ensures { Answers (λ v. v.items) result (IsExpanded level source.now) }
{
    let mut st = start(alloc, tokens, level)?;
    let mut done = Vec::new(alloc);
    let end = take_parts(source, &mut st, &mut done);
    drop(st);
    match end {
        Ok(()) => Ok(done),
        Err(fault) => Err(fault),
    }
}

/// The list with its directives carried out and its macros replaced, or the first refusal.
pub fn expand(alloc: Global, tokens: &[Token], level: Level) -> Result<Vec<Token>, Fault>
    // What it gives is what the list expands to, or its refusal.
    ensures is { Answers (λ v. v.items) result (IsExpanded level tokens.now) }
    // The list has no other expansion.
    ensures only { Answers (λ v. v.items) result (λ out. (other : Expanded) → IsExpanded level tokens.now other → other ≡ out) }
    // Where each token of the list can be spelled, each that it gives can be.
    ensures kinds { All (λ t. IsLexedKind t.kind) tokens.now → IfOk result (λ v. All (λ t. IsLexedKind t.kind) v.items) }
{
    let builtins = make_builtins(alloc)?;
    let list = run(alloc, &builtins, tokens, level);
    drop(builtins);
    list
}
