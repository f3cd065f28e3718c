//! The names of types.

ghost use Rattle.std.specs.Prelude.{◌≡◌, List, [], OnOk, OnErr};
ghost use Rattle.parse_meaning.specs.Terminals.{has};
ghost use Rattle.parse_tokens.specs.Names.{with_name};

use fc_base::{NoMemory, Text};
use indexmap::IndexSet;
use std::alloc::Global;
use std::marker::Model;

/// The names of types so far, seen as the list of them, each once, in the order in which they came.
#[derive(Drop)]
pub struct TypeNames {
    alloc: Global,
    names: IndexSet<Vec<u8>>,
}

impl Model for TypeNames {
    ghost use Rattle.std.specs.Prelude.{ℕ, List, map};

    ghost Value = { List (List ℕ) };

    ghost view = { λ types. map (λ name. name.items) types.names.keys };
}

impl TypeNames {
    pub fn new(alloc: Global) -> TypeNames
        ensures { result ≡ [] }
    {
        TypeNames {
            alloc,
            names: IndexSet::new(alloc),
        }
    }

    /// Adds the name at the end, where it isn't among them yet. After want of memory the list is as it was.
    pub fn push(&mut self, name: Text) -> Result<(), NoMemory>
        ensures ok { OnOk result (self.new ≡ with_name name self.old) }
        ensures err { OnErr result (self.new ≡ self.old) }
    {
        let name = Vec::from_slice(self.alloc, name.bytes())?;
        self.names.insert(name)?;
        Ok(())
    }

    /// Whether the name is among them.
    pub fn has(&self, name: &[u8]) -> bool
        ensures { result ≡ has self.now name.now }
    {
        self.names.contains(name)
    }
}
