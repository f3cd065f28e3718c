//! Rows of scopes: which name is found in a block and behind it (C11 6.2.1p4), and tags (C11 6.7.2.3).

use c_layout::{TagDef, Tags};
use elab_meaning::NameUse;
use elab_scope::Scope;
use fc_base::{NoMemory, Text};
use sqlite_items::Items;
use std::alloc::Global;
use std::process::Abort;
use std::test::Fail;

/// So many declarations of one name, each in a block of its own in the block before it.
const NESTED_BLOCKS: i32 = 100_000;

/// So many names of one enumeration.
const ENUMERATORS: i32 = 200_000;

/// Adds a name as an enumerator.
fn add_bytes(alloc: Global, scope: &mut Scope, name: &[u8], value: i32) -> Result<(), NoMemory> {
    let name = Text::from_bytes(alloc, name)?;
    scope.add(name, NameUse::Constant(value))
}

fn add(alloc: Global, scope: &mut Scope, name: &str, value: i32) -> Result<(), NoMemory> {
    add_bytes(alloc, scope, name.as_bytes(), value)
}

/// The value of the enumerator that a name names.
fn value_of(scope: &Scope, name: &[u8]) -> Option<i32> {
    match scope.lookup(name) {
        Some((_, NameUse::Constant(value))) => Some(*value),
        _ => None,
    }
}

fn assert_bytes(rt: &impl Abort, scope: &Scope, name: &[u8], value: Option<i32>) {
    assert!(rt; value_of(scope, name) == value);
}

fn assert_value(rt: &impl Abort, scope: &Scope, name: &str, value: Option<i32>) {
    assert_bytes(rt, scope, name.as_bytes(), value);
}

/// Lets a scope go behind what was tried in it.
fn ended(scope: Scope, done: Result<(), NoMemory>) -> Result<(), NoMemory> {
    drop(scope);
    done
}

fn names_hide(rt: &impl Abort, alloc: Global, scope: &mut Scope) -> Result<(), NoMemory> {
    add(alloc, scope, "x", 1)?;
    add(alloc, scope, "y", 2)?;
    let block = scope.len();
    add(alloc, scope, "x", 3)?;
    assert_value(rt, scope, "x", Some(3));
    assert_value(rt, scope, "y", Some(2));
    assert_value(rt, scope, "z", None);
    scope.cut(block);
    assert_value(rt, scope, "x", Some(1));
    scope.cut(0);
    assert_value(rt, scope, "x", None);
    Ok(())
}

#[test]
fn a_name_hides_those_before_it(rt: HostRuntime) -> Result<(), Fail> {
    let alloc = rt.alloc();
    let mut scope = Scope::new(alloc, Tags::new(alloc));
    let done = names_hide(&rt, alloc, &mut scope);
    Ok(ended(scope, done)?)
}

fn nest(rt: &impl Abort, alloc: Global, scope: &mut Scope) -> Result<(), NoMemory> {
    for value in 0..NESTED_BLOCKS {
        add(alloc, scope, "x", value)?;
    }
    assert_value(rt, scope, "x", Some(NESTED_BLOCKS - 1));
    for _ in 1..NESTED_BLOCKS {
        let len = scope.len();
        scope.cut(len.saturating_sub(1));
    }
    assert_value(rt, scope, "x", Some(0));
    Ok(())
}

#[test]
fn one_name_in_many_blocks(rt: HostRuntime) -> Result<(), Fail> {
    let alloc = rt.alloc();
    let mut scope = Scope::new(alloc, Tags::new(alloc));
    let done = nest(&rt, alloc, &mut scope);
    Ok(ended(scope, done)?)
}

/// A letter by its number.
fn letter(number: i32) -> u8 {
    let number = u8::try_from(number.rem_euclid(26)).unwrap_or(0);
    number.saturating_add(b'a')
}

/// The name with a number, each with a name of its own.
fn numbered(number: i32) -> [u8; 4] {
    [
        letter(number),
        letter(number / 26),
        letter(number / 676),
        letter(number / 17_576),
    ]
}

fn enumerate(rt: &impl Abort, alloc: Global, scope: &mut Scope) -> Result<(), NoMemory> {
    for number in 0..ENUMERATORS {
        let name = numbered(number);
        assert_bytes(rt, scope, &name, None);
        add_bytes(alloc, scope, &name, number)?;
    }
    for number in 0..ENUMERATORS {
        assert_bytes(rt, scope, &numbered(number), Some(number));
    }
    assert_bytes(rt, scope, &numbered(ENUMERATORS), None);
    Ok(())
}

#[test]
fn many_enumerators(rt: HostRuntime) -> Result<(), Fail> {
    let alloc = rt.alloc();
    let mut scope = Scope::new(alloc, Tags::new(alloc));
    let done = enumerate(&rt, alloc, &mut scope);
    Ok(ended(scope, done)?)
}

/// Adds a structure that is only mentioned.
fn mention(alloc: Global, scope: &mut Scope, tag: &str) -> Result<(), NoMemory> {
    let name = Text::from_bytes(alloc, tag.as_bytes())?;
    scope.add_tag(TagDef {
        name,
        is_union: false,
        members: Items::new(alloc),
        complete: false,
    })?;
    Ok(())
}

fn assert_tag(rt: &impl Abort, scope: &Scope, tag: &str, number: Option<u32>) {
    assert!(rt; scope.find_tag(tag.as_bytes()) == number);
}

fn find(rt: &impl Abort, alloc: Global, scope: &mut Scope) -> Result<(), NoMemory> {
    mention(alloc, scope, "s")?;
    mention(alloc, scope, "")?;
    mention(alloc, scope, "t")?;
    assert_tag(rt, scope, "s", Some(0));
    assert_tag(rt, scope, "t", Some(2));
    assert_tag(rt, scope, "", None);
    assert_tag(rt, scope, "u", None);
    Ok(())
}

#[test]
fn tags_by_their_names(rt: HostRuntime) -> Result<(), Fail> {
    let alloc = rt.alloc();
    let mut scope = Scope::new(alloc, Tags::new(alloc));
    let done = find(&rt, alloc, &mut scope);
    Ok(ended(scope, done)?)
}
