//! The cells of one object.

ghost use Rattle.std.specs.Prelude.{◌≡◌, ◌<◌, ◌≤◌, length, get_or, set, replicate, IfOk, [], vec_len, vec_capacity, if◌then◌else◌};
ghost use Rattle.object_meaning.specs.declared.values.Cell.TheVariants.{Byte, Uninit};
ghost use Rattle.object_meaning.specs.declared.values.Ptr.{Ptr as PlainPtr};
ghost use Rattle.src_values.specs.View.{nowhere, with_pointer};

use fc_base::NoMemory;
use object_meaning::{Cell, Ptr, Tag};
use std::alloc::Global;
use std::marker::Model;

/// A cell without its pointer.
#[derive(Clone, Copy)]
pub enum Mark {
    Byte(u8),
    Uninit,
    Part(u8),
}

/// Cells in two bytes each. The pointers of those that are part of one stand apart, each at its cell's place and up to the last
/// that there was, in room that is taken for all cells and touched as far as it is needed.
#[derive(Drop)]
pub struct Cells {
    marks: Vec<Mark>,
    pointers: Vec<Ptr>,
}

impl Model for Cells {
    ghost use Rattle.std.specs.Prelude.{List};
    ghost use Rattle.object_meaning.specs.declared.values.Cell.{Cell};
    ghost use Rattle.src_values.specs.View.{cells_in, HasRoom};

    ghost Value = { List Cell };

    ghost view = { cells_in };

    ghost invariant = { HasRoom };
}

impl Cells {
    /// No cells.
    pub fn none(alloc: Global) -> Cells
        ensures { result ≡ [] }
    {
        Cells {
            marks: Vec::new(alloc),
            pointers: Vec::new(alloc),
        }
    }

    /// That many cells, zero bytes or uninitialised. All memory is taken here.
    pub fn new(alloc: Global, count: usize, zeroed: bool) -> Result<Cells, NoMemory>
        ensures { IfOk result (λ cells. cells ≡ replicate count (if zeroed then Byte 0 else Uninit)) }
    {
        let marks = marks(alloc, first_mark(zeroed), count)?;
        let pointers = Vec::with_capacity(alloc, count)?;
        Ok(Cells { marks, pointers })
    }

    pub fn len(&self) -> usize
        ensures { result ≡ length self.now }
    {
        self.marks.len()
    }

    pub fn get(&self, at: usize) -> Cell
        requires { at < length self.now }
        ensures { result ≡ get_or self.now at Uninit }
    {
        match self.marks[at] {
            Mark::Byte(byte) => Cell::Byte(byte),
            Mark::Uninit => Cell::Uninit,
            Mark::Part(k) => Cell::Part {
                of: pointer_at(&self.pointers, at),
                k,
            },
        }
    }

    pub fn set(&mut self, at: usize, cell: Cell)
        requires { at < length self.old }
        ensures { self.new ≡ set self.old at cell }
    {
        match cell {
            Cell::Byte(byte) => self.marks[at] = Mark::Byte(byte),
            Cell::Uninit => self.marks[at] = Mark::Uninit,
            Cell::Part { of, k } => {
                self.marks[at] = Mark::Part(k);
                put_pointer(&mut self.pointers, at, of);
            }
        }
    }
}

/// The pointer at a place; past the last nothing was put.
fn pointer_at(pointers: &[Ptr], at: usize) -> Ptr
    ensures { result ≡ get_or pointers.now at nowhere }
{
    match pointers.get(at) {
        Some(pointer) => *pointer,
        None => no_pointer(),
    }
}

/// What stands where no pointer was put.
fn no_pointer() -> Ptr
    ensures { result ≡ nowhere }
{
    Ptr {
        object: 0,
        offset: 0,
        end: 0,
        tag: Tag::Unknown,
    }
}

/// Puts a pointer at a place, and before it where nothing was put, something that stands for that.
fn put_pointer(pointers: &mut Vec<Ptr>, at: usize, pointer: Ptr)
    requires { at < vec_capacity pointers.old }
    ensures items { pointers.new.items ≡ with_pointer pointers.old.items at pointer }
    ensures room { vec_capacity pointers.new ≡ vec_capacity pointers.old }
{
    while pointers.len() <= at {
        pointers.push_reserved(no_pointer());
    }
    pointers[at] = pointer;
}

/// A cell as an object begins.
fn first_mark(zeroed: bool) -> Mark
    ensures { result ≡ (if zeroed then Mark.Byte 0 else Mark.Uninit) }
{
    if zeroed { Mark::Byte(0) } else { Mark::Uninit }
}

/// So many of one mark.
fn marks(alloc: Global, mark: Mark, count: usize) -> Result<Vec<Mark>, NoMemory>
    ensures { IfOk result (λ marks. marks.items ≡ replicate count mark) }
{
    Ok(vec![in alloc; mark; count]?)
}
