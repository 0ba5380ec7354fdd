//! The walk that finds the intervals which a move of the watermark completes.
ghost use Rattle.std.specs.Prelude.{◌≡◌, ◌≤◌, ◌<◌, ◌++◌, ◌+◌, ◌*◌, max, List, ℕ, [], ◌∷◌, map, filter, All};
ghost use Rattle.stream_base.specs.declared.def.Def.{Def};
ghost use Rattle.stream_base.specs.declared.kept.Kept.{Kept};
ghost use Rattle.stream_base.specs.Laws.{TimesDoNotFall, becomes_complete};
ghost use Rattle.stream_base.specs.Model.Slices.{runs_of};
ghost use Rattle.stream_base.specs.Model.Windows.{last_time, spans};
ghost use Rattle.window_laws.specs.Walk.{due_from, intervals_at, next_start, IsFirstFrom, WalksOn};

/// The intervals that become complete from one watermark to the next are those from the first one
/// that isn't complete at the old watermark, up to the new watermark.
#[tactic(auto, using(crate::proofs::WalkFacts::completed_from))]
pub fn walk_begins_at_the_next_start()
    ensures { (length slide : ℕ) (kept : List Kept) (old new : ℕ) → 1 ≤ slide → slide ≤ length
        → filter (becomes_complete old new) (spans length slide kept)
        ≡ intervals_at length kept (due_from length slide kept (next_start length slide old) new) }
{}

/// Where no tuple stands from a start on, no interval is due from it on.
#[tactic(auto, using(crate::proofs::WalkFacts::none_due))]
pub fn walk_ends_behind_the_last_tuple()
    ensures { (length slide : ℕ) (kept : List Kept) (from new : ℕ) → 1 ≤ slide → slide ≤ length
        → All (λ x. x.time < from) kept → due_from length slide kept from new ≡ [] }
{}

/// From a start on, the first interval that is due is the first one from there that holds the first
/// tuple from there; the walk then goes on at the start behind it.
pub fn walk_goes_on_at_the_first_tuple()
    ensures { (length slide : ℕ) (kept : List Kept) (k new : ℕ) (x : Kept)
        → 1 ≤ slide → slide ≤ length → IsFirstFrom kept (k * slide) x
        → WalksOn length slide kept (k * slide) (max (k * slide)
        (next_start length slide x.time)) new }
{}

/// The first tuple from a time is the first one of the first slice from there, where no slice has
/// tuples on both sides of that time: so the walk goes over slices.
pub fn first_tuple_is_that_of_the_first_slice()
    ensures { (windows : List Def) (marks : List ℕ) (kept : List Kept) (before : List (List Kept))
        (x : Kept) (xs : List Kept) (behind : List (List Kept)) (time : ℕ) → TimesDoNotFall kept
        → runs_of windows marks kept ≡ before ++ (x ∷ xs) ∷ behind
        → All (λ run. last_time run < time) before → time ≤ x.time → IsFirstFrom kept time x }
{}
