//! The tuples of a key for its events windows.
ghost use Rattle.std.specs.Prelude.{◌≡◌, ◌≤◌, ◌<◌, ◌+◌, ◌-◌, ◌*◌, ◌++◌, ℕ, List, [], length, min, slice_get, Some, OnOk, IfOk, vec_len};
ghost use Rattle.stream_base.specs.declared.kept.Kept.{Kept};
ghost use Rattle.stream_base.specs.Laws.{completions};
ghost use Rattle.stream_base.specs.Model.Changes.{emissions, retractions};
ghost use Rattle.stream_base.specs.Vectors.{Adds, room};
ghost use Rattle.count_shift.specs.Lane.{FollowsTuples, HasMoreRoom, HasRoom, IsPaidFor, LosesFirst, TakesIn};
ghost use Rattle.count_shift.specs.Counting.{IsCount, IsEvents, IsNextPosition, count_of, later, move_changes, next_filled, put_changes, upper};
ghost use Rattle.count_shift.specs.Followed.{AtFollowed, FollowsTuple, OfEachFollowed, OfEachNext, WhereTaken, WhereTakenNext};

use crate::events_window::EventsWindow;
use crate::ranks::{next_filled, reaches_half, upper, upper_after};
use crate::shifted::Shifted;
use agg_laws::Steps;
use std::alloc::Global;
use std::marker::Model;
use stream_base::{Change, Def, Kept, KeyText, Kind, NoMemory};

/// The accepted tuples of one key, in event order, for an events window of it, but for those of first
/// instances that have left. Contracts see how many have left, the others, and for how many more
/// there is room; a clause that speaks of all tuples of the key holds for all lists that the lane
/// follows.
#[derive(Debug, Drop)]
pub struct CountLane {
    gone: u64,
    items: Vec<Kept>,
}

impl Model for CountLane {
    ghost use Rattle.std.specs.Prelude.{◌+◌, ◌-◌, vec_len, vec_capacity};
    ghost use Rattle.count_shift.specs.Lane.{IsLane, Laned, room_for};

    ghost Value = { Laned };

    ghost view = { λ l. record {
      gone = l.gone;
      kept = l.items.items;
      spare = room_for (vec_capacity l.items - vec_len l.items) (l.gone + vec_len l.items);
    } };

    ghost invariant = { λ l. IsLane l.gone l.items.items };
}

impl CountLane {
    /// No tuple yet.
    pub fn new(alloc: Global) -> CountLane
        ensures empty { result.kept ≡ [] }
        ensures none_gone { result.gone ≡ 0 }
        ensures follows { (count time : ℕ) → FollowsTuples count time [] result }
        ensures first { (position : ℕ) → IsNextPosition result.kept position }
    {
        CountLane {
            gone: 0,
            items: Vec::new(alloc),
        }
    }

    /// Makes room for a tuple at a time under a watermark, and answers how many changes its `put`
    /// will append.
    pub fn reserve(&mut self, count: u64, time: u64, water: u64) -> Result<u64, NoMemory>
        requires { IsCount count }
        ensures same { HasMoreRoom self.old self.new }
        ensures room { OnOk result (HasRoom self.new) }
        ensures number { IfOk result (λ n. n ≡ put_changes count self.old.kept time water) }
        ensures changes { OfEachNext count (min time water) self.old water time
            (λ owner key old new. IfOk result (λ n. n ≡ length (emissions key old new owner))) }
    {
        self.items.reserve(1)?;
        if self.gone + self.items.len() as u64 == u64::MAX {
            return Err(NoMemory); // No more tuples can be counted.
        }
        if water < time {
            return Ok(0); // No instance that has the tuple stands.
        }
        let from = upper(&self.items, time) as u64 / count;
        let reached = upper(&self.items, water);
        let stand = upper_after(&self.items, reached, time, water) / count;
        Ok(stand.saturating_sub(from))
    }

    /// Takes in an accepted tuple, behind those of its time, and appends exactly the changes of the
    /// window: the standing instances from its rank on select other tuples and are told again, with
    /// what they were, and at most one instance comes to stand. Its position is above all before;
    /// `reserve` made the room, and said how many changes there will be.
    pub fn put<L>(
        &mut self,
        window: u32,
        def: &Def,
        key: &KeyText,
        x: Kept,
        water: u64,
        out: &mut Vec<Change>,
        steps: &mut Steps<L>,
    ) -> Shifted
        requires events { IsEvents (def.now).kind }
        requires room { HasRoom self.old }
        requires spare { put_changes (count_of (def.now).kind) self.old.kept x.time water
            ≤ room out.old }
        ensures rank { (kept : List Kept)
            → FollowsTuples (count_of (def.now).kind) (min x.time water) kept self.old
            → result.from_rank ≡ upper kept x.time }
        ensures stands { slice_get self.new.kept (result.from_rank - self.old.gone) ≡ Some x }
        ensures takes { TakesIn x self.old self.new }
        ensures follows { FollowsTuple (count_of (def.now).kind) x self.old self.new }
        ensures next { (next : ℕ) → IsNextPosition self.old.kept x.position → x.position < next
            → IsNextPosition self.new.kept next }
        ensures none_gone { WhereTaken (count_of (def.now).kind) (min x.time water)
            self.old water x (λ old new. retractions key.now old new (window, def.now) ≡ []) }
        ensures changes { WhereTakenNext (count_of (def.now).kind) (min x.time water)
            self.old water x (λ old new. out.new.items
            ≡ out.old.items ++ emissions key.now old new (window, def.now)) }
        ensures adds { Adds
            (put_changes (count_of (def.now).kind) self.old.kept x.time water) out.old out.new }
        ensures cost { steps.new
            ≤ steps.old + 2 * count_of (def.now).kind * (vec_len out.new - vec_len out.old) }
    {
        let window = EventsWindow {
            window,
            key,
            func: def.func,
            count: count_of(&def.kind) as usize,
            gone: self.gone,
        };
        let rank = upper(&self.items, x.time);
        let reached = upper(&self.items, water);
        let stood = reached / window.count;
        let stand = upper_after(&self.items, reached, x.time, water) as usize / window.count;
        self.items.insert(rank, x).unwrap();
        window.append_again(&self.items, rank, rank / window.count, stood, out, steps);
        window.append_new(&self.items, stood, stand, out, steps);
        Shifted {
            from_rank: self.gone + rank as u64,
        }
    }

    /// How many instances a move of the watermark completes.
    pub fn due(&self, count: u64, old: u64, new: u64) -> u64
        requires { IsCount count }
        ensures number { result ≡ move_changes count self.now.kept old new }
        ensures rows { OfEachFollowed count (min old new) self.now old
            (λ owner key m. result ≡ length (completions key m new owner)) }
    {
        let stood = upper(&self.items, old) as u64 / count;
        let stand = upper(&self.items, new) as u64 / count;
        stand.saturating_sub(stood)
    }

    /// The time of the tuple that fills the next instance behind those that stand at a watermark, and
    /// the final time where there are too few: a move of the watermark to before it completes none.
    pub fn next_filled(&self, count: u64, water: u64) -> u64
        requires { IsCount count }
        ensures { (kept : List Kept) → FollowsTuples count water kept self.now
            → result ≡ next_filled count kept water }
    {
        next_filled(&self.items, count, water)
    }

    /// Appends exactly the instances that a move of the watermark completes, as new. `due` says how
    /// many.
    pub fn rows<L>(
        &self,
        window: u32,
        def: &Def,
        key: &KeyText,
        old: u64,
        new: u64,
        out: &mut Vec<Change>,
        steps: &mut Steps<L>,
    )
        requires events { IsEvents (def.now).kind }
        requires spare { move_changes (count_of (def.now).kind) self.now.kept old new
            ≤ room out.old }
        ensures changes { AtFollowed (count_of (def.now).kind) (min old new) self.now old
            (λ m. out.new.items ≡ out.old.items ++ completions key.now m new (window, def.now)) }
        ensures adds { Adds
            (move_changes (count_of (def.now).kind) self.now.kept old new) out.old out.new }
        ensures cost { steps.new
            ≤ steps.old + count_of (def.now).kind * (vec_len out.new - vec_len out.old) }
    {
        let window = EventsWindow {
            window,
            key,
            func: def.func,
            count: count_of(&def.kind) as usize,
            gone: self.gone,
        };
        let stood = upper(&self.items, old) / window.count;
        let stand = upper(&self.items, new) / window.count;
        window.append_new(&self.items, stood, stand, out, steps);
    }

    /// Lets the tuples of first instances leave that lie at or before a time, if they are half of all
    /// at least: then what it takes to move the others up is paid for by those that leave. No tuple
    /// comes before that time any more, and nothing is asked of an earlier watermark.
    pub fn drop_settled(&mut self, count: u64, time: u64)
        requires { IsCount count }
        ensures follows { (kept : List Kept) → FollowsTuples count time kept self.old
            → FollowsTuples count time kept self.new }
        ensures loses { LosesFirst self.old self.new }
        ensures paid { IsPaidFor self.old self.new }
        ensures few { length self.new.kept < 2 * (later self.new.kept time + count) }
    {
        let many = self.items.len();
        // Half of fewer tuples than two instances have is no instance.
        if (many as u64) < 2 * count || !reaches_half(&self.items, time) {
            return;
        }
        let settled = upper(&self.items, time) as u64 / count * count;
        let left = many - settled as usize;
        if left as u64 <= settled {
            self.items.rotate_left(settled as usize);
            self.items.truncate(left);
            self.gone += settled;
        }
    }
}

// How many tuples an instance of the window selects.
fn count_of(kind: &Kind) -> u64
    requires { IsEvents kind.now }
    ensures value { result ≡ count_of kind.now }
    ensures some { 1 ≤ result }
{
    match *kind {
        Kind::Events { count } => count,
        _ => unreachable!(),
    }
}
