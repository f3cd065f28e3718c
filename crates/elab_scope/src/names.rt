//! Values under names, of which a later one hides those before it (C11 6.2.1p4).

ghost use Rattle.std.specs.Prelude.{◌≡◌, ◌-◌, ◌∷◌, [], ◌++◌, length, take, slice_get, OnOk, OnErr};
ghost use Rattle.std.specs.Option.{option_copied};
ghost use Rattle.elab_scope.specs.Names.{last_number, names_of, values_of};

use crate::numbers::Numbers;
use fc_base::{NoMemory, Text};
use std::alloc::Global;
use std::marker::Model;

/// A value under a name, with the number of the entry of that name that it hides.
#[derive(Drop)]
struct Entry<T> {
    name: Text,
    value: T,
    hidden: Option<u32>,
}

/// Values under names in the order in which they came, seen as the list of them. The last one of a name is found by
/// hash. Each knows which one it hides, so that entries are cut off without looking at the others.
#[derive(Drop)]
pub struct Names<T> {
    entries: Vec<Entry<T>>,
    last: Numbers,
}

impl<T> Model for Names<T> {
    ghost use Rattle.std.specs.Prelude.{ℕ, List};
    ghost use Rattle.std.specs.Coded.{coded_list, coded×, coded_ℕ};

    ghost Value = { List (List ℕ × T) };

    ghost coded = { coded_list (coded× (coded_list coded_ℕ) T.code) };

    ghost use Rattle.elab_scope.specs.Entries.{pairs, IsIndexed};

    ghost view = { λ n. pairs n.entries.items };

    ghost invariant = { λ n. IsIndexed n.entries.items n.last };
}

impl<T> Names<T> {
    /// No entries.
    pub fn new(alloc: Global) -> Names<T>
        ensures { result ≡ [] }
    {
        Names {
            entries: Vec::new(alloc),
            last: Numbers::new(alloc),
        }
    }

    /// The number of entries.
    pub fn len(&self) -> usize
        ensures { result ≡ length self.now }
    {
        self.entries.len()
    }

    /// The number of the last entry of a name.
    pub fn last(&self, name: &[u8]) -> Option<u32>
        ensures { result ≡ last_number name.now (names_of self.now) }
    {
        self.last.get(name)
    }

    /// The value of an entry, none where there is no entry of that number.
    pub fn get(&self, number: u32) -> Option<&T>
        ensures { option_copied result ≡ slice_get (values_of self.now) number }
    {
        match self.entries.get(number as usize) {
            Some(entry) => Some(&entry.value),
            None => None,
        }
    }
}

impl<T: Drop> Names<T> {
    /// Adds an entry at the end. After want of memory the entries are as they were.
    pub fn push(&mut self, name: Text, value: T) -> Result<(), NoMemory>
        ensures ok { OnOk result (self.new ≡ self.old ++ (name, value) ∷ []) }
        ensures err { OnErr result (self.new ≡ self.old) }
    {
        let Ok(number) = u32::try_from(self.entries.len()) else {
            return Err(NoMemory);
        };
        self.entries.reserve(1)?;
        self.last.make_room(name.bytes())?;
        let hidden = self.last.get(name.bytes());
        self.last.set(name.bytes(), Some(number));
        self.entries.push_reserved(Entry {
            name,
            value,
            hidden,
        });
        Ok(())
    }

    /// Cuts the last entry off, if there is one.
    fn drop_last(&mut self)
        ensures { self.new ≡ take (length self.old - 1) self.old }
    {
        if let Some(entry) = self.entries.pop() {
            self.last.set(entry.name.bytes(), entry.hidden);
        }
    }

    /// Cuts the entries to so many; where there are fewer, all stay.
    pub fn cut(&mut self, len: usize)
        ensures { self.new ≡ take len self.old }
    {
        while self.len() > len {
            self.drop_last();
        }
    }
}
