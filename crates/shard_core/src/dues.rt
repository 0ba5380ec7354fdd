ghost use Rattle.std.specs.Prelude.{◌≡◌, ◌≤◌, ◌<◌, ◌+◌, ◌*◌, ◌/◌, ◌++◌, ◌∷◌, [], ℕ, IfNone, IfSome, OnOk, length, nat_le, slice_index, slice_set};
ghost use Rattle.shard_core.specs.Reached.{AreBlocks, AreGroups, IsNextReached, NoneReached};

use std::alloc::Global;
use std::marker::Model;
use stream_base::NoMemory;

// So many numbers lie in a block, and so many blocks in a group.
const BLOCK: usize = 32;

// The due numbers of the states by their places. Beside each block of them stands a number that is
// no greater than any of them, and so beside each group of blocks: what a watermark doesn't reach is
// passed over by a block or a group at a time, and a number is changed with no memory. Contracts see
// the numbers, and for how many more there is room.
#[derive(Drop)]
pub struct Dues {
    numbers: Vec<u64>,
    blocks: Vec<u64>,
    groups: Vec<u64>,
}

impl Model for Dues {
    ghost use Rattle.std.specs.Prelude.{◌-◌, ◌*◌, length, min};
    ghost use Rattle.stream_base.specs.Vectors.{room};
    ghost use Rattle.shard_core.specs.Reached.{AreBlocks, AreGroups, DueNumbers};

    ghost Value = { DueNumbers };

    ghost view = { λ s. record {
      items = s.numbers.items;
      room = min (room s.numbers) (32 * length s.blocks.items - length s.numbers.items);
    } };

    ghost invariant = { λ s. AreBlocks s.numbers.items s.blocks.items
        × AreGroups s.numbers.items s.blocks.items s.groups.items };
}

impl Dues {
    pub fn new(alloc: Global) -> Dues
        ensures { result.items ≡ [] }
    {
        Dues {
            numbers: Vec::new(alloc),
            blocks: Vec::new(alloc),
            groups: Vec::new(alloc),
        }
    }

    // Makes room for one more.
    pub fn reserve(&mut self) -> Result<(), NoMemory>
        ensures items { self.new.items ≡ self.old.items }
        ensures room { OnOk result (1 ≤ self.new.room) }
    {
        cover(&mut self.groups, self.blocks.len())?;
        cover(&mut self.blocks, self.numbers.len())?;
        self.numbers.reserve(1)?;
        Ok(())
    }

    // One more, for which there is room.
    pub fn push_reserved(&mut self, due: u64)
        requires { 1 ≤ self.old.room }
        ensures items { self.new.items ≡ self.old.items ++ due ∷ [] }
    {
        let block = self.numbers.len() / BLOCK;
        let group = block / BLOCK;
        self.numbers.push_reserved(due);
        self.blocks[block] = self.blocks[block].min(due);
        self.groups[group] = self.groups[group].min(due);
    }

    // Another one at a place.
    pub fn set(&mut self, place: usize, due: u64)
        requires { place < length self.old.items }
        ensures { self.new.items ≡ slice_set self.old.items place due }
    {
        let block = place / BLOCK;
        let group = block / BLOCK;
        self.numbers[place] = due;
        self.blocks[block] = self.blocks[block].min(due);
        self.groups[group] = self.groups[group].min(due);
    }

    // The first place from one on whose number a watermark reaches.
    pub fn next_reached(&self, from: usize, water: u64) -> Option<usize>
        ensures found { IfSome result (IsNextReached self.now.items water from) }
        ensures none { IfNone result
            (NoneReached self.now.items water from (length self.now.items)) }
    {
        let mut at = from;
        while at < self.numbers.len() {
            let block = at / BLOCK;
            if water < self.groups[block / BLOCK] {
                at = (block / BLOCK + 1) * BLOCK * BLOCK;
            } else if water < self.blocks[block] {
                at = (block + 1) * BLOCK;
            } else if self.numbers[at] <= water {
                return Some(at);
            } else {
                at += 1;
            }
        }
        None
    }

    // Whether a watermark reaches the number at a place. Where there is none it counts as 0.
    pub fn is_reached(&self, place: usize, water: u64) -> bool
        ensures { result ≡ nat_le (slice_index self.now.items place) water }
    {
        match self.numbers.get(place) {
            Some(number) => *number <= water,
            None => true,
        }
    }

    // Whether a watermark reaches more than one in 32 of the numbers, which only tells what is faster.
    pub fn reaches_many(&self, water: u64) -> bool {
        let mut few = self.numbers.len() / 32;
        let mut from = 0;
        while let Some(place) = self.next_reached(from, water) {
            if few == 0 {
                return true;
            }
            few -= 1;
            from = place + 1;
        }
        false
    }

    // Looks for the least numbers of the blocks and groups that a watermark reaches again.
    pub fn look_again(&mut self, water: u64)
        ensures { self.new.items ≡ self.old.items }
    {
        look_into_blocks(&self.numbers, &mut self.blocks, &self.groups, water);
        look_into_groups(&self.numbers, &self.blocks, &mut self.groups, water);
    }
}

// One block or group more, where there are none for one number more.
fn cover(least: &mut Vec<u64>, numbers: usize) -> Result<(), NoMemory>
    requires { numbers ≤ 32 * length least.old.items }
    ensures fewer { length least.old.items ≤ length least.new.items }
    ensures one_more { length least.new.items ≤ length least.old.items + 1 }
    ensures same { (b : ℕ) → b < length least.old.items
        → slice_index least.new.items b ≡ slice_index least.old.items b }
    ensures covered { OnOk result (numbers + 1 ≤ 32 * length least.new.items) }
{
    if numbers / BLOCK == least.len() {
        least.push(u64::MAX)?;
    }
    Ok(())
}

// Makes the least numbers of the blocks that a watermark reaches exact.
fn look_into_blocks(numbers: &[u64], blocks: &mut [u64], groups: &[u64], water: u64)
    requires blocks { AreBlocks numbers.now blocks.old }
    requires groups { AreGroups numbers.now blocks.old groups.now }
    ensures { AreBlocks numbers.now blocks.new }
{
    let mut at = 0;
    while at < numbers.len() {
        let block = at / BLOCK;
        if water < groups[block / BLOCK] {
            at = (block / BLOCK + 1) * BLOCK * BLOCK;
        } else {
            if blocks[block] <= water {
                blocks[block] = least_of(numbers, block);
            }
            at = (block + 1) * BLOCK;
        }
    }
}

// Makes those of the groups that it reaches exact.
fn look_into_groups(numbers: &[u64], blocks: &[u64], groups: &mut [u64], water: u64)
    requires blocks { AreBlocks numbers.now blocks.now }
    requires groups { AreGroups numbers.now blocks.now groups.old }
    ensures { AreGroups numbers.now blocks.now groups.new }
{
    let mut at = 0;
    while at < blocks.len() {
        let group = at / BLOCK;
        if groups[group] <= water {
            groups[group] = least_of(blocks, group);
        }
        at = (group + 1) * BLOCK;
    }
}

// The least of the numbers of a block.
fn least_of(numbers: &[u64], block: usize) -> u64
    requires { 32 * block < length numbers.now }
    ensures { (p : ℕ) → p / 32 ≡ block → p < length numbers.now
        → result ≤ slice_index numbers.now p }
{
    let first = block * BLOCK;
    let end = numbers.len().min(first + BLOCK);
    let mut least = u64::MAX;
    for at in first..end {
        least = least.min(numbers[at]);
    }
    least
}
