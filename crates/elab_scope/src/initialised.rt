//! The data objects that have an initialiser.

ghost use Rattle.std.specs.Prelude.{◌≡◌, ◌==◌, ◌∷◌, [], OnOk, OnErr};
ghost use Rattle.std.specs.List.{list_any};

use fc_base::NoMemory;
use indexmap::IndexSet;
use std::alloc::Global;
use std::marker::Model;

/// Numbers in the order in which they came, seen as the list of them with the last one first.
#[derive(Drop)]
pub struct Initialised {
    numbers: Vec<u32>,
    among: IndexSet<u32>,
}

impl Model for Initialised {
    ghost use Rattle.std.specs.Prelude.{ℕ, List, reverse};
    ghost use Rattle.elab_scope.specs.Initialised.{AreAmong};

    ghost Value = { List ℕ };

    ghost view = { λ i. reverse i.numbers.items };

    ghost invariant = { λ i. AreAmong (reverse i.numbers.items) i.among.keys };
}

impl Initialised {
    pub fn new(alloc: Global) -> Initialised
        ensures { result ≡ [] }
    {
        Initialised {
            numbers: Vec::new(alloc),
            among: IndexSet::new(alloc),
        }
    }

    /// Adds a number. After want of memory they are as they were.
    pub fn push(&mut self, number: u32) -> Result<(), NoMemory>
        ensures ok { OnOk result (self.new ≡ number ∷ self.old) }
        ensures err { OnErr result (self.new ≡ self.old) }
    {
        self.numbers.reserve(1)?;
        self.among.insert(number)?;
        self.numbers.push_reserved(number);
        Ok(())
    }

    /// Whether a number is among them.
    pub fn has(&self, number: u32) -> bool
        ensures { result ≡ list_any (λ other. other == number) self.now }
    {
        self.among.contains(&number)
    }
}
