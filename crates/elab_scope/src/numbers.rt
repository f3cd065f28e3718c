//! Numbers under names, found by hash.

ghost use Rattle.std.specs.Prelude.{◌≡◌, List, ℕ, None, OnOk};
ghost use Rattle.elab_scope.specs.Numbers.{number_at, HasRoom, SameNumbers, SetsNumber};

use fc_base::NoMemory;
use indexmap::IndexMap;
use std::alloc::Global;

/// A number under each of some names. A name may have room and no number, so that it can be given one without memory.
#[derive(Drop)]
pub struct Numbers {
    alloc: Global,
    map: IndexMap<Vec<u8>, Option<u32>>,
}

impl Numbers {
    /// No numbers.
    pub fn new(alloc: Global) -> Numbers
        ensures { (name : List ℕ) → number_at result name ≡ None }
    {
        Numbers {
            alloc,
            map: IndexMap::new(alloc),
        }
    }

    /// The number under a name.
    pub fn get(&self, name: &[u8]) -> Option<u32>
        ensures { result ≡ number_at self.now name.now }
    {
        match self.map.get(name) {
            Some(number) => *number,
            None => None,
        }
    }

    /// Makes room for a number under a name. No number changes.
    pub fn make_room(&mut self, name: &[u8]) -> Result<(), NoMemory>
        ensures room { OnOk result (HasRoom self.new name.now) }
        ensures same { SameNumbers self.old self.new }
    {
        if self.map.contains_key(name) {
            return Ok(());
        }
        let key = Vec::from_slice(self.alloc, name)?;
        self.map.insert(key, None)?;
        Ok(())
    }

    /// Sets the number under a name that has room, or takes it away.
    pub fn set(&mut self, name: &[u8], number: Option<u32>)
        requires { HasRoom self.old name.now }
        ensures { SetsNumber self.old self.new name.now number }
    {
        if let Some(slot) = self.map.get_mut(name) {
            *slot = number;
        }
    }
}
