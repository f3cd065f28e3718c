//! The functions that have a body, by number.

ghost use Rattle.std.specs.Prelude.{◌≡◌, [], length, position, OnOk, OnErr};
ghost use Rattle.std.specs.Str.{bytes_eq};
ghost use Rattle.elab_scope.specs.Functions.{with_name};

use fc_base::NoMemory;
use indexmap::IndexSet;
use std::alloc::Global;
use std::marker::Model;

/// Names, each once, in the order of their first mentions, seen as the list of them.
#[derive(Drop)]
pub struct Numbered {
    alloc: Global,
    names: IndexSet<Vec<u8>>,
}

impl Model for Numbered {
    ghost use Rattle.std.specs.Prelude.{ℕ, List, map};

    ghost Value = { List (List ℕ) };

    ghost view = { λ n. map (λ name. name.items) n.names.keys };
}

impl Numbered {
    pub fn new(alloc: Global) -> Numbered
        ensures { result ≡ [] }
    {
        Numbered {
            alloc,
            names: IndexSet::new(alloc),
        }
    }

    /// Adds a name at the end where it isn't among them. After want of memory they are as they were.
    pub fn push(&mut self, name: &[u8]) -> Result<(), NoMemory>
        ensures ok { OnOk result (self.new ≡ with_name name.now self.old) }
        ensures err { OnErr result (self.new ≡ self.old) }
    {
        let name = Vec::from_slice(self.alloc, name)?;
        self.names.insert(name)?;
        Ok(())
    }

    /// The number of a name, none where it isn't among them.
    pub fn number_of(&self, name: &[u8]) -> Option<usize>
        ensures { result ≡ position (λ other. bytes_eq other name.now) self.now }
    {
        self.names.get_index_of(name)
    }

    pub fn len(&self) -> usize
        ensures { result ≡ length self.now }
    {
        self.names.len()
    }
}
