//! How the source of a row is read, and its tree or refusal held against the row.

use c_lexer::tokens;
use c_tokens::{HeaderId, Token, TokenKind};
use c_tree::FileTree;
use fc_base::{Fault, NoMemory, Place, Refusal};
use parse_decl::parse;
use std::alloc::{AllocError, Global};
use std::process::Abort;
use tree_text::{Output, push_file};

/// The one header of rows, which stands in a text without its `#include`.
const HEADER: &str = "<stddef.h>";

/// The tokens of a text, with their lines and columns.
pub fn tokens_of(alloc: Global, text: &str) -> Result<Vec<Token>, Fault> {
    if text.len() < 4_294_967_295 {
        tokens(alloc, text.as_bytes())
    } else {
        Ok(Vec::new(alloc))
    }
}

/// The tokens behind the header.
fn behind_header(tokens: Vec<Token>) -> Result<Vec<Token>, Fault> {
    let mut tokens = tokens;
    tokens.insert(
        0,
        Token {
            kind: TokenKind::Header(HeaderId::Stddef),
            place: Place { line: 1, col: 1 },
            starts_line: true,
            spaced: false,
        },
    )?;
    Ok(tokens)
}

/// The tokens of a text that may begin with the header.
fn tokens_of_file(alloc: Global, text: &str) -> Result<Vec<Token>, Fault> {
    match text.strip_prefix(HEADER) {
        Some(rest) => behind_header(tokens_of(alloc, rest)?),
        None => tokens_of(alloc, text),
    }
}

fn read(alloc: Global, text: &str) -> Result<FileTree, Fault> {
    let tokens = tokens_of_file(alloc, text)?;
    parse(alloc, &tokens)
}

fn file_text(alloc: Global, file: &FileTree) -> Result<String, NoMemory> {
    let mut out = Output::new(alloc);
    push_file(&mut out, file);
    out.finish()
}

fn refusal_text(alloc: Global, refusal: Refusal) -> Result<String, NoMemory> {
    let Refusal { rule, place } = refusal;
    Ok(format!(in alloc; "{} {}:{}", rule.name(), place.line, place.col)?)
}

/// The tree, or the rule and its place.
pub fn shown(alloc: Global, text: &str) -> Result<String, NoMemory> {
    match read(alloc, text) {
        Ok(file) => file_text(alloc, &file),
        Err(Fault::Refused(refusal)) => refusal_text(alloc, refusal),
        Err(Fault::NoMemory) => Err(NoMemory),
    }
}

pub fn assert_same(rt: &impl Abort, got: &str, want: &str) {
    assert!(rt; got == want);
}

/// Asserts that this is the tree of the source, or its refusal.
pub fn assert_shown(
    rt: &impl Abort,
    alloc: Global,
    source: &str,
    tree: &str,
) -> Result<(), NoMemory> {
    let got = shown(alloc, source)?;
    assert_same(rt, got.as_str(), tree);
    Ok(())
}

/// Asserts of each row of a table that it has the tree or refusal of its source.
pub fn assert_rows(rt: &impl Abort, alloc: Global, rows: &[(&str, &str)]) -> Result<(), NoMemory> {
    for &(source, tree) in rows {
        assert_shown(rt, alloc, source, tree)?;
    }
    Ok(())
}

/// Asserts that the parts together are the tree of the source, or its refusal.
fn assert_parts(
    rt: &impl Abort,
    alloc: Global,
    source: &str,
    tree: &[&str],
) -> Result<(), NoMemory> {
    let tree = tree.concat(alloc)?;
    assert_shown(rt, alloc, source, tree.as_str())
}

/// Asserts that the parts of a tree together are the tree of a source in parts, or its refusal.
pub fn assert_joined(
    rt: &impl Abort,
    alloc: Global,
    source: &[&str],
    tree: &[&str],
) -> Result<(), NoMemory> {
    let source = source.concat(alloc)?;
    assert_parts(rt, alloc, source.as_str(), tree)
}

/// The text, the middle so many times, and the end.
pub fn repeated(
    alloc: Global,
    start: &str,
    middle: &str,
    times: u32,
    end: &str,
) -> Result<String, AllocError> {
    let middle = middle.repeat(alloc, times as usize)?;
    [start, middle.as_str(), end].concat(alloc)
}
