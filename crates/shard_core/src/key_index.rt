ghost use Rattle.std.specs.Prelude.{◌≡◌, ◌+◌, [], ℕ, IfOk, OnOk, OnErr, IsTrue, None, Some, length};
ghost use Rattle.shard_core.specs.Placed.{AreByKey, IsPlaceAdded, keys_reached, place_in, places_reached};

use crate::dues::Dues;
use crate::hints::{Hints, TRIES};
use std::alloc::Global;
use std::collections::BTreeMap;
use std::marker::Model;
use stream_base::{KeyText, NoMemory};

// Where the state of each key lies: a key's place is its number in the order in which keys came.
// Contracts see the places by key.
#[derive(Drop)]
pub struct KeyIndex {
    index: BTreeMap<KeyText, usize>,
    // The key at each place.
    keys: Vec<KeyText>,
    // Where a key is looked for first.
    hints: Hints,
}

impl Model for KeyIndex {
    ghost use Rattle.std.specs.Prelude.{ℕ, List};
    ghost use Rattle.shard_core.specs.Placed.{ArePlaced};

    ghost Value = { List (List ℕ × ℕ) };

    ghost view = { λ s. (s.index).entries };

    ghost invariant = { λ s. ArePlaced (s.index).entries s.keys.items };
}

impl KeyIndex {
    pub fn new(alloc: Global) -> KeyIndex
        ensures { result ≡ [] }
    {
        KeyIndex {
            index: BTreeMap::new(alloc),
            keys: Vec::new(alloc),
            hints: Hints::new(alloc),
        }
    }

    // The place of a key, if it has one.
    pub fn get(&self, key: &KeyText) -> Option<usize>
        ensures { result ≡ place_in self.now key.now }
    {
        match self.hinted(key) {
            Some(place) => Some(place),
            None => self.index.get(key).copied(),
        }
    }

    // The place of a key, where a hint leads to it.
    fn hinted(&self, key: &KeyText) -> Option<usize>
        ensures { (p : ℕ) → result ≡ Some p → place_in self.now key.now ≡ Some p }
    {
        let first = self.hints.first(key);
        for step in 0..TRIES {
            match self.hints.get(first.wrapping_add(step)) {
                Some(place) if self.lies_at(place, key) => return Some(place),
                Some(_) => {}
                None => return None,
            }
        }
        None
    }

    // Whether a key lies at a place.
    fn lies_at(&self, place: usize, key: &KeyText) -> bool
        ensures { IsTrue result → place_in self.now key.now ≡ Some place }
    {
        place < self.keys.len() && self.keys[place] == *key
    }

    // Gives a key that has no place the next one, or does nothing.
    pub fn add(&mut self, key: &KeyText) -> Result<usize, NoMemory>
        requires { place_in self.old key.now ≡ None }
        ensures place { IfOk result (λ p. p ≡ length self.old) }
        ensures added { IfOk result (λ p. IsPlaceAdded key.now p self.old self.new) }
        ensures len { OnOk result (length self.new ≡ length self.old + 1) }
        ensures by_key { AreByKey self.new }
        ensures refused { OnErr result (self.new ≡ self.old) }
    {
        let place = self.keys.len();
        self.hints.reserve(&self.keys)?;
        self.keys.reserve(1)?;
        self.index.insert(*key, place)?;
        self.keys.push_reserved(*key);
        self.hints.note(key, place);
        Ok(place)
    }

    // The places whose due numbers a watermark reaches, by the bytes of their keys. Where they are many
    // all keys are walked, and else these alone are put in order.
    pub fn due(&self, alloc: Global, dues: &Dues, water: u64) -> Result<Vec<usize>, NoMemory>
        requires { length dues.now.items ≡ length self.now }
        ensures { IfOk result (λ places. places.items
            ≡ places_reached dues.now.items water self.now) }
    {
        if dues.reaches_many(water) {
            self.due_of_all(alloc, dues, water)
        } else {
            self.due_of_few(alloc, dues, water)
        }
    }

    // The same by a look at each key, in order.
    fn due_of_all(&self, alloc: Global, dues: &Dues, water: u64) -> Result<Vec<usize>, NoMemory>
        ensures { IfOk result (λ places. places.items
            ≡ places_reached dues.now.items water self.now) }
    {
        let mut places = Vec::new(alloc);
        for place in self.index.values() {
            if dues.is_reached(*place, water) {
                places.push(*place)?;
            }
        }
        Ok(places)
    }

    // The same by the keys that are due.
    fn due_of_few(&self, alloc: Global, dues: &Dues, water: u64) -> Result<Vec<usize>, NoMemory>
        requires { length dues.now.items ≡ length self.now }
        ensures { IfOk result (λ places. places.items
            ≡ places_reached dues.now.items water self.now) }
    {
        let due = self.due_by_key(alloc, dues, water)?;
        let mut places = Vec::new(alloc);
        for place in due.values() {
            places.push(*place)?;
        }
        Ok(places)
    }

    // The same with their keys. Only what is due is looked at by its key, and what lies between is
    // passed over.
    fn due_by_key(
        &self,
        alloc: Global,
        dues: &Dues,
        water: u64,
    ) -> Result<BTreeMap<KeyText, usize>, NoMemory>
        requires { length dues.now.items ≡ length self.now }
        ensures { IfOk result (λ due. due.entries ≡ keys_reached dues.now.items water self.now) }
    {
        let mut due = BTreeMap::new(alloc);
        let mut from = 0;
        while let Some(place) = dues.next_reached(from, water) {
            due.insert(self.keys[place], place)?;
            from = place + 1;
        }
        Ok(due)
    }
}
