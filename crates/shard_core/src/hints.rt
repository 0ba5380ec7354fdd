use std::alloc::Global;
use stream_base::{KeyText, NoMemory};

// So many slots, one behind the other, may hint at the place of a key.
pub const TRIES: usize = 8;

// In a slot that hints at no place.
const NOWHERE: usize = usize::MAX;

// At which place a key may lie, by a hash of its bytes. Whoever takes a hint looks whether the key lies
// there, and where no hint leads to it, looks for it in order. So no contract says anything of hints,
// and keys that were chosen for their hashes are found as fast as in order.
#[derive(Drop)]
pub struct Hints {
    alloc: Global,
    slots: Vec<usize>,
    // One less than a power of two: the greatest number that a key's first slot may have.
    mask: usize,
}

impl Hints {
    pub fn new(alloc: Global) -> Hints {
        Hints {
            alloc,
            slots: Vec::new(alloc),
            mask: 0,
        }
    }

    // The number of a key's first slot.
    pub fn first(&self, key: &KeyText) -> usize {
        hash(key.bytes()) & self.mask
    }

    // The place at which a slot hints, if it does.
    pub fn get(&self, slot: usize) -> Option<usize> {
        match self.slots.get(slot) {
            Some(place) => {
                if *place == NOWHERE {
                    None
                } else {
                    Some(*place)
                }
            }
            None => None,
        }
    }

    // Hints at the place of a key, where one of its slots is free.
    pub fn note(&mut self, key: &KeyText, place: usize) {
        let first = self.first(key);
        for step in 0..TRIES {
            let slot = first.wrapping_add(step);
            if self.get(slot).is_none() {
                self.set(slot, place);
                return;
            }
        }
    }

    fn set(&mut self, slot: usize, place: usize) {
        if slot < self.slots.len() {
            self.slots[slot] = place;
        }
    }

    // Makes room for one key more than these, which lie at places from 0 on: no more than half of the
    // slots hint then.
    pub fn reserve(&mut self, keys: &[KeyText]) -> Result<(), NoMemory> {
        if keys.len() < self.mask / 2 {
            return Ok(());
        }
        let mask = self.mask.wrapping_mul(2).wrapping_add(1).max(15);
        self.slots = vec![in self.alloc; NOWHERE; mask.wrapping_add(TRIES)]?;
        self.mask = mask;
        for place in 0..keys.len() {
            self.note(&keys[place], place);
        }
        Ok(())
    }
}

// A hash of bytes, after Fowler, Noll and Vo.
fn hash(bytes: &[u8]) -> usize {
    let mut hash: usize = 0xCBF2_9CE4_8422_2325;
    for byte in bytes {
        hash = (hash ^ usize::from(*byte)).wrapping_mul(0x100_0000_01B3);
    }
    hash ^ (hash >> 32)
}
