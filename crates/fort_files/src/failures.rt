//! The failed calls of a store, by name.

ghost use Rattle.std.specs.Prelude.{◌≡◌, ℕ, ◌-◌, List, [], ◌∷◌, ◌++◌, length, map, take, min, OnOk, OnErr, string_bytes};
ghost use Rattle.fc_base.specs.Outside.{last_count};
ghost use Rattle.fort_files.specs.Failures.{times};

use fc_base::NoMemory;
use std::alloc::Global;
use std::marker::Model;

/// The names under which calls of one kind failed, in order, seen as the list of their bytes.
#[derive(Debug, Drop)]
pub struct Failures {
    names: Vec<String>,
}

impl Model for Failures {
    ghost Value = { List (List ℕ) };

    ghost view = { λ failures. map (λ name. string_bytes name) failures.names.items };
}

impl Failures {
    pub fn new(alloc: Global) -> Failures
        ensures { result ≡ [] }
    {
        Failures {
            names: Vec::new(alloc),
        }
    }

    /// Adds a copy of the name at the end. After want of memory the list is as it was.
    pub fn add(&mut self, name: &str) -> Result<(), NoMemory>
        ensures ok { OnOk result (self.new ≡ self.old ++ name.now ∷ []) }
        ensures err { OnErr result (self.new ≡ self.old) }
    {
        let alloc = *self.names.allocator();
        let name = String::from_str(alloc, name)?;
        self.names.push(name)?;
        Ok(())
    }

    /// Takes the last name away.
    pub fn take_back(&mut self)
        ensures { self.new ≡ take (length self.old - 1) self.old }
    {
        let _ = self.names.pop();
    }

    /// How often the name is in the list, up to the last value of a count.
    pub fn count(&self, name: &str) -> u64
        ensures { result ≡ min (times self.now name.now) last_count }
    {
        self.names
            .iter()
            .filter(|other| other.as_str() == name)
            .count() as u64
    }
}
