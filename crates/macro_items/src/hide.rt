//! Hide sets.

ghost use Rattle.std.specs.Prelude.{◌≡◌, ◌≤◌, true, List, [], ◌∷◌, ◌++◌, length, take, drop, option_map, IfOk, OnOk};
ghost use Rattle.std.specs.Bool.{Decides};
ghost use Rattle.std.specs.List.{filter};
ghost use Rattle.std.specs.List.Sorted.{IsStrictlySortedBy};
ghost use Rattle.std.specs.Ordering.{eq_by_cmp};
ghost use Rattle.std.specs.Rc.{rc_value};
ghost use Rattle.std.specs.Set.{is_member, sorted_merge};
ghost use Rattle.macro_meaning.specs.Macros.{Name, has, no_names};
ghost use Rattle.macro_meaning.specs.Turns.{intersection, union, with_name};
ghost use Rattle.macro_items.specs.HideSets.{names, members, by_bytes};

use c_tokens::TokenKind;
use smallvec::SmallVec;
use std::alloc::{AllocError, Global};
use std::cmp::Ordering;
use std::marker::Model;
use std::rc::Rc;

type Names<'a> = SmallVec<&'a [u8], 2>;

/// The names that are not replaced in a token. They stand in the order of their bytes, each once, so that two sets are
/// joined or compared in one walk along both. Tokens share the list of them, and a set of no names has no list.
#[derive(Drop)]
pub struct HideSet<'a> {
    list: Option<Rc<Names<'a>>>,
}

impl<'a> Model for HideSet<'a> {
    ghost Value = { List Name };

    ghost view = { λ s. members (option_map rc_value s.list) };

    ghost invariant = { λ s. IsStrictlySortedBy by_bytes (members (option_map rc_value s.list)) };
}

impl<'a> HideSet<'a> {
    /// No names.
    pub fn empty() -> HideSet<'a>
        ensures { has result ≡ no_names }
    {
        HideSet { list: None }
    }

    /// The set of these names.
    fn of(alloc: Global, list: Names<'a>) -> Result<HideSet<'a>, AllocError>
        requires { IsStrictlySortedBy by_bytes (names list.items) }
        ensures { IfOk result (λ s. s ≡ names list.entry.items) }
    {
        let list = if list.is_empty() {
            None
        } else {
            Some(Rc::new(alloc, list)?)
        };
        Ok(HideSet { list })
    }

    /// The names in their order.
    fn names(&self) -> &[&'a [u8]]
        ensures names { names result.now ≡ self.now }
        ensures ascends { IsStrictlySortedBy by_bytes (names result.now) }
    {
        match &self.list {
            Some(list) => list.as_slice(),
            None => &[],
        }
    }

    /// Another holder of the set.
    pub fn copied(&self) -> Result<HideSet<'a>, AllocError>
        ensures { IfOk result (λ s. s ≡ self.now) }
    {
        let list = match &self.list {
            Some(list) => Some(list.clone()?),
            None => None,
        };
        Ok(HideSet { list })
    }

    /// The name is in the set.
    pub fn has(&self, name: &[u8]) -> bool
        ensures { result ≡ has self.now name.now }
    {
        self.names().binary_search(&name).is_ok()
    }

    /// It has the names of the other set, and no more.
    pub fn is_same(&self, other: &HideSet<'a>) -> bool
        ensures { Decides result (self.now ≡ other.now) }
    {
        self.names() == other.names()
    }

    /// The names of both sets.
    pub fn intersection(
        &self,
        alloc: Global,
        other: &HideSet<'a>,
    ) -> Result<HideSet<'a>, AllocError>
        ensures { IfOk result (λ s. has s ≡ intersection (has self.now) (has other.now)) }
    {
        if self.is_same(other) {
            return self.copied();
        }
        let names = shared(alloc, self.names(), other.names())?;
        HideSet::of(alloc, names)
    }

    /// The names of either set.
    pub fn union(&self, alloc: Global, other: &HideSet<'a>) -> Result<HideSet<'a>, AllocError>
        ensures { IfOk result (λ s. has s ≡ union (has self.now) (has other.now)) }
    {
        if self.names().is_empty() {
            return other.copied();
        }
        let names = merged(alloc, self.names(), other.names())?;
        HideSet::of(alloc, names)
    }

    /// The set and the name of a token.
    fn with_name(&self, alloc: Global, kind: &'a TokenKind) -> Result<HideSet<'a>, AllocError>
        ensures { IfOk result (λ s. has s ≡ with_name kind.now (has self.now)) }
    {
        match kind {
            TokenKind::Name(name) => self.with(alloc, name.bytes()),
            _ => self.copied(),
        }
    }

    fn with(&self, alloc: Global, name: &'a [u8]) -> Result<HideSet<'a>, AllocError>
        ensures { IfOk result (λ s. has s ≡ union (has (name.now ∷ [])) (has self.now)) }
    {
        let names = self.names();
        match names.binary_search(&name) {
            Ok(_) => self.copied(),
            Err(at) => {
                let names = inserted(alloc, names, at, name)?;
                HideSet::of(alloc, names)
            }
        }
    }
}

/// The hide set of a name or a call that is replaced, and the one of the tokens that replace it.
#[derive(Drop)]
pub struct Hides<'a> {
    pub old: HideSet<'a>,
    pub new: HideSet<'a>,
    ghost grown: { union (has old) (has new) ≡ has new },
}

impl<'a> Hides<'a> {
    /// What is replaced has this set and the name of this token.
    pub fn of(alloc: Global, old: HideSet<'a>, kind: &'a TokenKind) -> Result<Hides<'a>, AllocError>
        ensures { IfOk result (λ h. has h.new ≡ with_name kind.now (has old.entry)) }
    {
        let new = old.with_name(alloc, kind)?;
        Ok(Hides { old, new })
    }
}

/// The names with another one behind so many of them.
fn inserted<'a>(
    alloc: Global,
    names: &[&'a [u8]],
    at: usize,
    name: &'a [u8],
) -> Result<Names<'a>, AllocError>
    requires { at ≤ length names.now }
    ensures { IfOk result (λ v. v.items ≡ take at names.now ++ name.entry ∷ drop at names.now) }
{
    let mut all = SmallVec::with_capacity(alloc, names.len() + 1)?;
    all.extend_from_slice(&names[..at])?;
    all.push(name)?;
    all.extend_from_slice(&names[at..])?;
    Ok(all)
}

/// Two ascending lists as one.
fn merged<'a>(alloc: Global, a: &[&'a [u8]], b: &[&'a [u8]]) -> Result<Names<'a>, AllocError>
    ensures { IfOk result (λ v. names v.items ≡ sorted_merge by_bytes true (names a.now) (names b.now)) }
{
    let mut all = SmallVec::new(alloc);
    merge_into(&mut all, a, b)?;
    Ok(all)
}

/// Puts two ascending lists as one into an empty list.
fn merge_into<'a>(all: &mut Names<'a>, a: &[&'a [u8]], b: &[&'a [u8]]) -> Result<(), AllocError>
    requires { all.old.items ≡ [] }
    ensures { OnOk result (names all.new.items ≡ sorted_merge by_bytes true (names a.now) (names b.now)) }
{
    let mut i = 0;
    let mut j = 0;
    while i < a.len() && j < b.len() {
        match a[i].cmp(&b[j]) {
            Ordering::Less => {
                all.push(a[i])?;
                i += 1;
            }
            Ordering::Equal => {
                all.push(a[i])?;
                i += 1;
                j += 1;
            }
            Ordering::Greater => {
                all.push(b[j])?;
                j += 1;
            }
        }
    }
    all.extend_from_slice(a.split_at(i).1)?;
    all.extend_from_slice(b.split_at(j).1)?;
    Ok(())
}

/// What two ascending lists share.
fn shared<'a>(alloc: Global, a: &[&'a [u8]], b: &[&'a [u8]]) -> Result<Names<'a>, AllocError>
    requires first { IsStrictlySortedBy by_bytes (names a.now) }
    requires second { IsStrictlySortedBy by_bytes (names b.now) }
    ensures { IfOk result (λ v. names v.items ≡ filter (is_member (eq_by_cmp by_bytes) (names b.now)) (names a.now)) }
{
    let mut both = SmallVec::new(alloc);
    let mut i = 0;
    let mut j = 0;
    while i < a.len() && j < b.len() {
        match a[i].cmp(&b[j]) {
            Ordering::Less => i += 1,
            Ordering::Equal => {
                both.push(a[i])?;
                i += 1;
                j += 1;
            }
            Ordering::Greater => j += 1,
        }
    }
    Ok(both)
}
