//! The live blocks of the heap, by their objects.

ghost use Rattle.std.specs.Prelude.{◌≡◌, ◌<◌, ◌≤◌, ◌∷◌, [], not, ◌==◌, filter, IfOk, OnErr, OnOk};
ghost use Rattle.object_meaning.specs.Allocations.{block_place};
ghost use Rattle.src_lib.specs.Owners.{AreBelow};

use fc_base::NoMemory;
use std::alloc::Global;
use std::collections::BTreeMap;
use std::marker::Model;

/// The place in the heap of each live block, by its object. An object stands as far from the start as its number is from the last one
/// there can be, so that the newest comes first.
#[derive(Drop)]
pub struct Blocks {
    places: BTreeMap<u64, u64>,
}

impl Model for Blocks {
    ghost use Rattle.std.specs.Prelude.{ℕ, List};
    ghost use Rattle.src_lib.specs.OwnersSeen.{blocks_in, HasNumbers};

    ghost Value = { List (ℕ × ℕ) };

    ghost view = { blocks_in };

    ghost invariant = { HasNumbers };
}

impl Blocks {
    /// No blocks.
    pub fn new(alloc: Global) -> Blocks
        ensures { result ≡ [] }
    {
        Blocks {
            places: BTreeMap::new(alloc),
        }
    }

    /// The place of the block that is this object.
    pub fn place_of(&self, object: u64) -> Option<u64>
        ensures { result ≡ block_place self.now object }
    {
        match self.places.get(&(u64::MAX - object)) {
            Some(place) => Some(*place),
            None => None,
        }
    }

    /// One more block, whose object is newer than all others.
    pub fn push(&mut self, place: u64, object: u64) -> Result<(), NoMemory>
        requires { AreBelow object self.old }
        ensures pushed { IfOk result (λ done. self.new ≡ (place, object) ∷ self.old) }
        ensures no_memory { OnErr result (self.new ≡ self.old) }
    {
        self.places.insert(u64::MAX - object, place)?;
        Ok(())
    }

    /// Lets go of the block that is this object.
    pub fn remove(&mut self, object: u64)
        ensures { self.new ≡ filter (λ block. not (block.1 == object)) self.old }
    {
        let _count = self.places.len();
        self.places.remove(&(u64::MAX - object));
    }
}
