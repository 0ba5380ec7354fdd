//! The keys with a period that ends at the same time.
ghost use Rattle.std.specs.BTreeSet.{insert_key};
ghost use Rattle.std.specs.Cmp.Lexicographic.{slice_cmp};
ghost use Rattle.std.specs.List.{Contains};
ghost use Rattle.std.specs.Ordering.{nat_cmp};
ghost use Rattle.std.specs.Prelude.{◌≡◌, ℕ, List, [], OnErr, OnOk};

use std::alloc::Global;
use std::collections::BTreeSet;
use std::marker::Model;
use stream_base::{KeyText, NoMemory};

/// Keys, each once. Contracts see the list of them.
#[derive(Drop)]
pub struct Batch {
    keys: BTreeSet<KeyText>,
}

impl Model for Batch {
    ghost use Rattle.std.specs.Prelude.{ℕ, List};

    ghost Value = { List (List ℕ) };

    ghost view = { λ s. (s.keys).keys };
}

impl Batch {
    /// No key yet.
    pub fn new(alloc: Global) -> Batch
        ensures { result ≡ [] }
    {
        Batch {
            keys: BTreeSet::new(alloc),
        }
    }

    /// Takes a key in, unless it is there.
    pub fn add(&mut self, key: &KeyText) -> Result<(), NoMemory>
        ensures added { OnOk result (self.new ≡ insert_key (slice_cmp nat_cmp) self.old key.now) }
        ensures refused { OnErr result (self.new ≡ self.old) }
    {
        self.keys.insert(*key)?;
        Ok(())
    }

    /// Adds all of them to a set of keys.
    pub fn add_to(&self, due: &mut BTreeSet<KeyText>) -> Result<(), NoMemory>
        ensures kept { (k : List ℕ) → Contains (due.old).keys k → Contains (due.new).keys k }
        ensures added { OnOk result ((k : List ℕ) → Contains self.now k
            → Contains (due.new).keys k) }
    {
        for key in self.keys.iter() {
            due.insert(*key)?;
        }
        Ok(())
    }
}
