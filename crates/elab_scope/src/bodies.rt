//! The functions whose bodies have been read.

ghost use Rattle.std.specs.Prelude.{◌≡◌, [], ◌∷◌, ◌++◌, length, OnOk, OnErr};

use c_tree::FnDef;
use fc_base::NoMemory;
use sqlite_items::Items;
use std::alloc::Global;
use std::marker::Model;
use tree_drops::{FunctionItems, LetGo};

/// Functions in text order, seen as the list of them.
#[derive(Drop)]
pub struct Bodies {
    functions: FunctionItems,
    count: usize,
}

impl Model for Bodies {
    ghost use Rattle.std.specs.Prelude.{◌≡◌, List, length};
    ghost use Rattle.std.specs.Coded.{codes};
    ghost use Rattle.c_tree.specs.contracts.programs.FnDef as node;
    ghost use Rattle.c_tree.specs.declared.programs.FnDef.{FnDef};

    ghost Value = { List FnDef };

    ghost coded = { Prim.hlevel (codes, node.the_row.coded) };

    ghost view = { λ b. b.functions };

    ghost invariant = { λ b. b.count ≡ length b.functions };
}

impl Bodies {
    pub fn new(alloc: Global) -> Bodies
        ensures { result ≡ [] }
    {
        Bodies {
            functions: FunctionItems::new(alloc),
            count: 0,
        }
    }

    pub fn len(&self) -> usize
        ensures { result ≡ length self.now }
    {
        self.count
    }

    /// Adds a function at the end. After want of memory they are as they were.
    pub fn push(&mut self, function: FnDef) -> Result<(), NoMemory>
        ensures ok { OnOk result (self.new ≡ self.old ++ function ∷ []) }
        ensures err { OnErr result (self.new ≡ self.old) }
    {
        let Some(count) = self.count.checked_add(1) else {
            function.let_go();
            return Err(NoMemory);
        };
        self.functions.push(function)?;
        self.count = count;
        Ok(())
    }

    /// The functions, in text order.
    pub fn finish(self) -> Items<FnDef>
        ensures { result ≡ self }
    {
        let Bodies { functions, .. } = self;
        functions.finish()
    }
}
