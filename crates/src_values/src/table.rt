//! Objects by their numbers.

ghost use Rattle.std.specs.Prelude.{◌≡◌, ◌+◌, ◌<◌, ◌≤◌, ◌++◌, ◌∷◌, [], length, set, get_or, nat_lt, IfOk, OnErr, true, false};
ghost use Rattle.std.specs.Borrow.{sem};
ghost use Rattle.object_meaning.specs.Objects.{object_at, is_live, size_at, add, finish, fill};
ghost use Rattle.src_values.specs.Lent.{LendsNumber};
ghost use Rattle.src_values.specs.Pages.{AreFilled, IsPushed, has_room};

use crate::objects::Object;
use crate::pages::{PAGE, Page};
use fc_base::NoMemory;
use std::alloc::Global;
use std::marker::Model;

/// Objects in pages, found by two indices. A page that others follow is let go once all its objects have ended, so that memory goes with
/// the objects that live, however many there were before.
#[derive(Drop)]
pub struct Objects {
    pages: Vec<Page>,
    count: u64,
}

impl Model for Objects {
    ghost use Rattle.std.specs.Prelude.{List};
    ghost use Rattle.object_meaning.specs.Objects.{Object as PlainObject};
    ghost use Rattle.src_values.specs.Table.{objects_in, IsTable};

    ghost Value = { List PlainObject };

    ghost view = { objects_in };

    ghost invariant = { IsTable };
}

impl Objects {
    /// No objects.
    pub fn new(alloc: Global) -> Objects
        ensures { result ≡ [] }
    {
        Objects {
            pages: Vec::new(alloc),
            count: 0,
        }
    }

    /// How many there are, ended ones too.
    pub fn len(&self) -> u64
        ensures { result ≡ length self.now }
    {
        self.count
    }

    /// One more object. Numbers that are used up are want of memory too.
    pub fn push(&mut self, object: Object, alloc: Global) -> Result<(), NoMemory>
        ensures pushed { IfOk result (λ done. self.new ≡ add self.old object) }
        ensures no_memory { OnErr result (self.new ≡ self.old) }
    {
        let Some(count) = self.count.checked_add(1) else {
            return Err(NoMemory);
        };
        push_in(&mut self.pages, object, alloc)?;
        self.count = count;
        Ok(())
    }

    /// Whether an object lives.
    pub fn is_live(&self, number: u64) -> bool
        ensures { result ≡ is_live self.now number }
    {
        match self.pages.get((number / PAGE) as usize) {
            Some(page) => page.is_live((number % PAGE) as usize),
            None => false,
        }
    }

    /// How many bytes an object has.
    pub fn size_at(&self, number: u64) -> u64
        ensures { result ≡ size_at self.now number }
    {
        match self.pages.get((number / PAGE) as usize) {
            Some(page) => page.size_at((number % PAGE) as usize),
            None => 0,
        }
    }

    /// Whether an object may be written.
    pub fn is_writable(&self, number: u64) -> bool
        ensures { result ≡ (object_at self.now number).writable }
    {
        match self.pages.get((number / PAGE) as usize) {
            Some(page) => page.is_writable((number % PAGE) as usize),
            None => false,
        }
    }

    /// A live object.
    pub fn at(&self, number: u64) -> &Object
        requires { is_live self.now number ≡ true }
        ensures { result.now ≡ object_at self.now number }
    {
        self.pages[(number / PAGE) as usize].at((number % PAGE) as usize)
    }

    /// A live object, to be changed.
    pub fn at_mut(&mut self, number: u64) -> &mut Object
        requires { is_live self.old number ≡ true }
        ensures* lends { sem 𝓛 (LendsNumber self.entry number result) }
        ensures value { result.now ≡ object_at self.old number }
    {
        let page = &mut self.pages[(number / PAGE) as usize];
        page.at_mut((number % PAGE) as usize)
    }

    /// Gives an object all its bytes. Where none is kept of it, it has ended and has none.
    pub fn fill(&mut self, number: u64, bytes: &[u8])
        requires { length bytes.now ≡ size_at self.old number }
        ensures { self.new ≡ fill self.old number bytes.now }
    {
        let at = (number / PAGE) as usize;
        let place = (number % PAGE) as usize;
        if is_kept(&self.pages, at, place) {
            let page = &mut self.pages[at];
            page.fill(place, bytes);
        }
    }

    /// Ends an object, and lets its page go if that was the last that lived of a page that others follow.
    pub fn end(&mut self, number: u64, alloc: Global)
        requires { is_live self.old number ≡ true }
        ensures { self.new ≡ finish self.old number }
    {
        let at = (number / PAGE) as usize;
        let page = &mut self.pages[at];
        page.end((number % PAGE) as usize, alloc);
        self.let_go(at, alloc);
    }

    /// Lets a page go that others follow, if all its objects have ended.
    fn let_go(&mut self, at: usize, alloc: Global)
        ensures { self.new ≡ self.old }
    {
        if at < self.pages.len() && self.pages.len() - at > 1 && self.pages[at].has_ended() {
            self.pages[at] = Page::none(alloc);
        }
    }
}

/// One more object, in the last page or in a new one.
fn push_in(pages: &mut Vec<Page>, object: Object, alloc: Global) -> Result<(), NoMemory>
    requires { AreFilled 512 pages.old.items }
    ensures pushed { IfOk result (λ done. IsPushed pages.old.items pages.new.items object) }
    ensures no_memory { OnErr result (pages.new.items ≡ pages.old.items) }
{
    if has_room(pages) {
        push_last(pages, object)
    } else {
        push_page(pages, object, alloc)
    }
}

fn push_last(pages: &mut Vec<Page>, object: Object) -> Result<(), NoMemory>
    requires filled { AreFilled 512 pages.old.items }
    requires room { has_room 512 pages.old.items ≡ true }
    ensures pushed { IfOk result (λ done. IsPushed pages.old.items pages.new.items object) }
    ensures no_memory { OnErr result (pages.new.items ≡ pages.old.items) }
{
    let last = pages.len() - 1;
    let page = &mut pages[last];
    page.push(object)?;
    Ok(())
}

fn push_page(pages: &mut Vec<Page>, object: Object, alloc: Global) -> Result<(), NoMemory>
    requires filled { AreFilled 512 pages.old.items }
    requires full { has_room 512 pages.old.items ≡ false }
    ensures pushed { IfOk result (λ done. IsPushed pages.old.items pages.new.items object) }
    ensures no_memory { OnErr result (pages.new.items ≡ pages.old.items) }
{
    let mut page = Page::none(alloc);
    page.push(object)?;
    Ok(pages.push(page)?)
}

/// Whether there is a last page with a number left.
fn has_room(pages: &[Page]) -> bool
    ensures { result ≡ has_room 512 pages.now }
{
    pages.len() > 0 && (pages[pages.len() - 1].len() as u64) < PAGE
}

/// Whether something is kept at a place of a page.
fn is_kept(pages: &[Page], at: usize, place: usize) -> bool
    ensures { result ≡ nat_lt place (length (get_or pages.now at [])) }
{
    match pages.get(at) {
        Some(page) => place < page.len(),
        None => false,
    }
}
