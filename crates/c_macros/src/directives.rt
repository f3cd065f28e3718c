//! What directives do (C11 6.10.1 to 6.10.3). Each gives the token of an inclusion, or none.

ghost use Rattle.std.specs.Prelude.{◌≡◌, IfOk, option_map, option_to_list, reverse, if◌then◌else◌, Some, None, true, false, ◌∷◌};
ghost use Rattle.macro_meaning.specs.Definitions.{definition, header_macros};
ghost use Rattle.macro_meaning.specs.Moves as moves;
ghost use Rattle.macro_meaning.specs.Moves.{with_definition, with_definitions, only_name, only_header, header_token, waits, by_condition, group};
ghost use Rattle.macro_meaning.specs.declared.GroupState.TheVariants.{Taken, Waits, Over};
ghost use Rattle.macro_meaning.specs.Sameness as sameness;
ghost use Rattle.std.specs.List.{list_any};
ghost use Rattle.macro_items.specs.Views.{table, meaning_view};
ghost use Rattle.c_macros.specs.States.{state_view, GoesAs};
ghost use Rattle.macro_lines.specs.Lines.{entry_views};
ghost use Rattle.c_macros.specs.Doing.{DoesAs};

use c_tokens::{HeaderId, Token, TokenKind};
use fc_base::{Fault, Place, Rule};
use macro_definitions::{
    State, definition_of, meaning, operator, same_header, same_meaning, set_macro, takes,
    unset_macro,
};
use macro_items::{Macro, Macros, find};
use macro_lines::{Builtins, Entry, after, directive_word, header_macros, holds, name_of};
use macro_meaning::{Group, GroupState, Word};
use std::alloc::{AllocError, Global};

/// Adds a macro, and tells whether its name had no other meaning.
fn add_macro<'a>(
    macros: &mut Macros<'a>,
    name: &'a [u8],
    meaning: Macro<'a>,
) -> Result<bool, AllocError>
    ensures { IfOk result (λ ok. with_definition name.now (meaning_view meaning.entry) (table macros.old) ≡ (if ok then Some (table macros.new) else None)) }
{
    if let Some(old) = find(macros, name) {
        return Ok(same_meaning(old, &meaning));
    }
    set_macro(macros, name, meaning)?;
    Ok(true)
}

/// Adds macros in the order from the last one, and tells whether no name had another meaning.
fn add_macros<'a>(macros: &mut Macros<'a>, entries: &mut Vec<Entry<'a>>) -> Result<bool, AllocError>
    ensures { IfOk result (λ ok. with_definitions (entry_views (reverse entries.old.items)) (table macros.old) ≡ (if ok then Some (table macros.new) else None)) }
{
    while let Some((name, meaning)) = entries.pop() {
        if !add_macro(macros, name, meaning)? {
            return Ok(false);
        }
    }
    Ok(true)
}

/// Adds the macros of a header, and tells whether no name had another meaning.
fn add_header<'a>(
    alloc: Global,
    tokens: &'a Builtins,
    macros: &mut Macros<'a>,
    header: HeaderId,
) -> Result<bool, AllocError>
    ensures { IfOk result (λ ok. with_definitions (header_macros header) (table macros.old) ≡ (if ok then Some (table macros.new) else None)) }
{
    let mut entries = header_macros(alloc, tokens, header)?;
    entries.reverse();
    add_macros(macros, &mut entries)
}

fn define<'a>(st: &mut State<'a>, place: Place, line: &'a [Token]) -> Result<Option<Token>, Fault>
    ensures { GoesAs result option_to_list (state_view st.new) (moves.on_define (state_view st.old) place (definition line.now)) }
{
    let Some(read) = definition_of(st.alloc, line)? else {
        return Err(Fault::refused(Rule::BadDefine, place));
    };
    let meaning = meaning(st.alloc, read.parameters, read.body)?;
    if !add_macro(&mut st.macros, read.name, meaning)? {
        return Err(Fault::refused(Rule::Redefined, place));
    }
    match operator(read.body) {
        Some(token) => Err(Fault::refused(Rule::LeftOutOperator, token.place)),
        None => Ok(None),
    }
}

/// The one name of a line.
fn only_name(line: &[Token]) -> Option<&[u8]>
    ensures { option_map (λ n. n.now) result ≡ only_name line.now }
{
    if line.len() == 1 {
        name_of(&line[0].kind)
    } else {
        None
    }
}

fn undefine(st: &mut State<'_>, place: Place, line: &[Token]) -> Result<Option<Token>, Fault>
    ensures { GoesAs result option_to_list (state_view st.new) (moves.on_undef (state_view st.old) place (only_name line.now)) }
{
    match only_name(line) {
        None => Err(Fault::refused(Rule::BadDefine, place)),
        Some(name) => {
            unset_macro(&mut st.macros, name);
            Ok(None)
        }
    }
}

fn only_header(line: &[Token]) -> Option<HeaderId>
    ensures { result ≡ only_header line.now }
{
    if line.len() != 1 {
        return None;
    }
    match &line[0].kind {
        TokenKind::HeaderName(name) => HeaderId::named(name.bytes()),
        _ => None,
    }
}

fn is_included(headers: &[HeaderId], header: HeaderId) -> bool
    ensures { result ≡ list_any (sameness.same_header header) headers.now }
{
    for other in headers {
        if same_header(header, *other) {
            return true;
        }
    }
    false
}

fn header_token(hash: &Token, header: HeaderId) -> Token
    ensures { result ≡ header_token hash.now header }
{
    Token {
        kind: TokenKind::Header(header),
        place: hash.place,
        starts_line: hash.starts_line,
        spaced: hash.spaced,
    }
}

fn include<'a>(st: &mut State<'a>, hash: &Token, line: &[Token]) -> Result<Option<Token>, Fault>
    ensures { GoesAs result option_to_list (state_view st.new) (moves.on_include (state_view st.old) hash.now (only_header line.now)) }
{
    let Some(header) = only_header(line) else {
        return Err(Fault::refused(Rule::UnknownHeader, hash.place));
    };
    if is_included(&st.headers, header) {
        return Ok(None);
    }
    if !add_header(st.alloc, st.tokens, &mut st.macros, header)? {
        return Err(Fault::refused(Rule::Redefined, hash.place));
    }
    st.headers.push(header)?;
    Ok(Some(header_token(hash, header)))
}

fn by_condition(holds: bool) -> GroupState
    ensures { result ≡ by_condition holds }
{
    if holds {
        GroupState::Taken
    } else {
        GroupState::Waits
    }
}

fn waits(group: GroupState) -> bool
    ensures { result ≡ waits group }
{
    matches!(group, GroupState::Waits)
}

/// Opens a conditional.
fn open(st: &mut State<'_>, place: Place, group: GroupState) -> Result<Option<Token>, Fault>
    ensures { GoesAs result option_to_list (state_view st.new) (moves.opened (state_view st.old) place group) }
{
    st.groups.push(Group {
        place,
        state: group,
        had_else: false,
    })?;
    Ok(None)
}

fn ifdef(st: &mut State<'_>, place: Place, line: &[Token]) -> Result<Option<Token>, Fault>
    ensures { GoesAs result option_to_list (state_view st.new) (moves.on_ifdef (state_view st.old) place (only_name line.now)) }
{
    let Some(name) = only_name(line) else {
        return Err(Fault::refused(Rule::BadDefine, place));
    };
    let is_macro = find(&st.macros, name).is_some();
    open(st, place, by_condition(is_macro))
}

fn ifndef(st: &mut State<'_>, place: Place, line: &[Token]) -> Result<Option<Token>, Fault>
    ensures { GoesAs result option_to_list (state_view st.new) (moves.on_ifndef (state_view st.old) place (only_name line.now)) }
{
    let Some(name) = only_name(line) else {
        return Err(Fault::refused(Rule::BadDefine, place));
    };
    let is_macro = find(&st.macros, name).is_some();
    open(st, place, by_condition(!is_macro))
}

/// The group of an `else`: it is taken where none was.
fn last_group(group: GroupState) -> GroupState
    ensures { result ≡ (if waits group then Taken else Over) }
{
    if waits(group) {
        GroupState::Taken
    } else {
        GroupState::Over
    }
}

fn otherwise(st: &mut State<'_>, place: Place) -> Result<Option<Token>, Fault>
    ensures { GoesAs result option_to_list (state_view st.new) (moves.on_else (state_view st.old) place (state_view st.old).groups) }
{
    match st.groups.pop() {
        Some(group) if !group.had_else => {
            st.groups.push(Group {
                place: group.place,
                state: last_group(group.state),
                had_else: true,
            })?;
            Ok(None)
        }
        _ => Err(Fault::refused(Rule::OpenConditional, place)),
    }
}

fn end(st: &mut State<'_>, place: Place) -> Result<Option<Token>, Fault>
    ensures { GoesAs result option_to_list (state_view st.new) (moves.on_endif (state_view st.old) place (state_view st.old).groups) }
{
    match st.groups.pop() {
        Some(_) => Ok(None),
        None => Err(Fault::refused(Rule::OpenConditional, place)),
    }
}

/// Hands on what a directive gave.
fn give(
    done: &mut Vec<Token>,
    given: Result<Option<Token>, Fault>,
    count: u64,
) -> Result<u64, Fault>
    ensures { (from st : moves.State) (n : moves.Next) → GoesAs given option_to_list st n
        → DoesAs result from count (moves.moves n) st done.old.items done.new.items }
{
    if let Some(token) = given? {
        done.push(token)?;
    }
    Ok(count)
}

/// Opens another group of a conditional.
fn reopen(st: &mut State<'_>, last: Group, group: GroupState) -> Result<Option<Token>, Fault>
    ensures { GoesAs result option_to_list (state_view st.new) (moves.with_groups (state_view st.old)
        (record last { state = group } ∷ (state_view st.old).groups)) }
{
    st.groups.push(Group {
        place: last.place,
        state: group,
        had_else: last.had_else,
    })?;
    Ok(None)
}

fn taken_if<'a>(
    st: &mut State<'a>,
    place: Place,
    line: &'a [Token],
    done: &mut Vec<Token>,
    count: u64,
) -> Result<u64, Fault>
    ensures { DoesAs result (state_view st.old) count (moves.decides place line.now (group place Waits) (state_view st.old).groups)
        (state_view st.new) done.old.items done.new.items }
{
    let (holds, count) = holds(st.alloc, st.tokens, &st.macros, place, line, count)?;
    let given = open(st, place, by_condition(holds));
    give(done, given, count)
}

fn other_if<'a>(
    st: &mut State<'a>,
    place: Place,
    line: &'a [Token],
    done: &mut Vec<Token>,
    count: u64,
) -> Result<u64, Fault>
    ensures { DoesAs result (state_view st.old) count (moves.on_elif (state_view st.old) place line.now (state_view st.old).groups)
        (state_view st.new) done.old.items done.new.items }
{
    let Some(group) = st.groups.pop() else {
        return Err(Fault::refused(Rule::OpenConditional, place));
    };
    if group.had_else {
        return Err(Fault::refused(Rule::OpenConditional, place));
    }
    if !waits(group.state) {
        let given = reopen(st, group, GroupState::Over);
        return give(done, given, count);
    }
    let (holds, count) = holds(st.alloc, st.tokens, &st.macros, place, line, count)?;
    let given = reopen(st, group, by_condition(holds));
    give(done, given, count)
}

fn taken_directive<'a>(
    st: &mut State<'a>,
    hash: &Token,
    word: Word,
    line: &'a [Token],
    done: &mut Vec<Token>,
    count: u64,
) -> Result<u64, Fault>
    ensures { DoesAs result (state_view st.old) count (moves.taken_directive (state_view st.old) hash.now line.now word)
        (state_view st.new) done.old.items done.new.items }
{
    let place = hash.place;
    match word {
        Word::If => taken_if(st, place, line, done, count),
        Word::Ifdef => give(done, ifdef(st, place, line), count),
        Word::Ifndef => give(done, ifndef(st, place, line), count),
        Word::Include => give(done, include(st, hash, line), count),
        Word::Define => give(done, define(st, place, line), count),
        Word::Undef => give(done, undefine(st, place, line), count),
        _ => Err(Fault::refused(Rule::UnknownDirective, place)),
    }
}

/// In a skipped group only conditionals are looked at.
fn skipped_directive(
    st: &mut State<'_>,
    hash: &Token,
    word: Word,
    done: &mut Vec<Token>,
    count: u64,
) -> Result<u64, Fault>
    ensures { DoesAs result (state_view st.old) count (moves.skipped_directive (state_view st.old) hash.now word)
        (state_view st.new) done.old.items done.new.items }
{
    match word {
        Word::If | Word::Ifdef | Word::Ifndef => {
            give(done, open(st, hash.place, GroupState::Over), count)
        }
        _ => Ok(count),
    }
}

/// A directive, at its `#`, with the further tokens of its line. The tokens that it gives go behind those done.
pub fn directive<'a>(
    st: &mut State<'a>,
    hash: &Token,
    line: &'a [Token],
    done: &mut Vec<Token>,
    count: u64,
) -> Result<u64, Fault>
    ensures { DoesAs result (state_view st.old) count (moves.on_directive (state_view st.old) hash.now line.now)
        (state_view st.new) done.old.items done.new.items }
{
    if line.is_empty() {
        return Ok(count);
    }
    let rest = after(line, 1);
    match directive_word(&line[0].kind) {
        Word::Elif => other_if(st, hash.place, rest, done, count),
        Word::Else => give(done, otherwise(st, hash.place), count),
        Word::Endif => give(done, end(st, hash.place), count),
        word => {
            if takes(&st.groups) {
                taken_directive(st, hash, word, rest, done, count)
            } else {
                skipped_directive(st, hash, word, done, count)
            }
        }
    }
}
