//! One object.

ghost use Rattle.std.specs.Prelude.{◌≡◌, ◌<◌, true, get_or, set, map, length, IfOk};
ghost use Rattle.object_meaning.specs.declared.values.Cell.TheVariants.{Byte, Uninit};
ghost use Rattle.object_meaning.specs.Objects.{ended, begun, with_cells};

use crate::cells::Cells;
use fc_base::NoMemory;
use object_meaning::Cell;
use std::alloc::Global;
use std::marker::Model;

/// An object: its cells, whether it lives, and whether it may be written.
#[derive(Drop)]
pub struct Object {
    cells: Cells,
    alive: bool,
    writable: bool,
}

impl Model for Object {
    ghost use Rattle.object_meaning.specs.Objects.{Object};
    ghost use Rattle.src_values.specs.Seen.{object_in};

    ghost Value = { Object };

    ghost view = { object_in };
}

impl Object {
    /// An object that has ended.
    pub fn ended(alloc: Global) -> Object
        ensures { result ≡ ended }
    {
        Object {
            cells: Cells::none(alloc),
            alive: false,
            writable: false,
        }
    }

    /// What stands for a live object while it is taken out.
    pub fn stand_in(alloc: Global) -> Object
        ensures { result.alive ≡ true }
    {
        Object {
            cells: Cells::none(alloc),
            alive: true,
            writable: false,
        }
    }

    /// An object as it begins.
    pub fn begun(
        alloc: Global,
        size: usize,
        writable: bool,
        zeroed: bool,
    ) -> Result<Object, NoMemory>
        ensures { IfOk result (λ object. object ≡ begun size writable zeroed) }
    {
        let cells = Cells::new(alloc, size, zeroed)?;
        Ok(Object {
            cells,
            alive: true,
            writable,
        })
    }

    pub fn is_live(&self) -> bool
        ensures { result ≡ self.now.alive }
    {
        self.alive
    }

    /// Whether nothing is left of it.
    pub fn has_ended(&self) -> bool
        ensures { result ≡ true → self.now ≡ ended }
    {
        !self.alive && !self.writable && self.cells.len() == 0
    }

    pub fn is_writable(&self) -> bool
        ensures { result ≡ self.now.writable }
    {
        self.writable
    }

    pub fn size(&self) -> usize
        ensures size { result ≡ self.now.size }
        ensures cells { result ≡ length self.now.cells }
    {
        self.cells.len()
    }

    pub fn cell(&self, at: usize) -> Cell
        requires { at < length self.now.cells }
        ensures { result ≡ get_or self.now.cells at Uninit }
    {
        self.cells.get(at)
    }

    pub fn put(&mut self, at: usize, cell: Cell)
        requires { at < length self.old.cells }
        ensures { self.new ≡ with_cells self.old (set self.old.cells at cell) }
    {
        self.cells.set(at, cell);
    }
}
