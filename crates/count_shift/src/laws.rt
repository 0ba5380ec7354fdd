//! Laws of events windows, each as the contract of a function that does nothing.
ghost use Rattle.std.specs.Prelude.{◌≡◌, ◌≤◌, ◌+◌, ◌/◌, ℕ, List, [], nat_lt};
ghost use Rattle.std.specs.List.{position_or_len};
ghost use Rattle.stream_base.specs.declared.kept.Kept.{Kept};
ghost use Rattle.stream_base.specs.declared.kind.Kind.TheVariants.{Events};
ghost use Rattle.stream_base.specs.Laws.{TimesDoNotFall, completions};
ghost use Rattle.stream_base.specs.Model.Changes.{emissions, retractions};
ghost use Rattle.stream_base.specs.Model.Windows.{standing_of};
ghost use Rattle.count_shift.specs.Counting.{IsNextPosition, upper, upper_after};
ghost use Rattle.count_shift.specs.Lane.{FollowsTuples, Laned};
ghost use Rattle.count_shift.specs.Told.{WhereTupleComes, WhereWaterMoves, filled_by, move_told, put_told};

/// A tuple is put behind all that have its time or an earlier one.
#[tactic(auto, using(crate::proofs::Upper::rank_is_upper))]
pub fn tuple_is_put_behind_equal_times()
    ensures { (kept : List Kept) (x : Kept) → TimesDoNotFall kept
        → position_or_len (λ y. nat_lt x.time y.time) kept ≡ upper kept x.time }
{}

/// What stands of an events window are its first instances, as many as the tuples at or before the
/// watermark fill.
#[tactic(auto, using(crate::proofs::Standing::standing_events))]
pub fn events_stand_as_far_as_the_watermark_fills_them()
    ensures { (count : ℕ) (kept : List Kept) (marks : List ℕ) (water : ℕ) → 1 ≤ count
        → TimesDoNotFall kept
        → standing_of (Events count) kept marks water ≡ filled_by count kept water }
{}

/// One tuple more takes no instance of an events window back. It changes those that stood from its
/// rank on, and brings at most one.
#[tactic(auto, using(crate::proofs::Shift::one_more))]
pub fn tuple_changes_instances_from_its_rank_on()
    ensures none_gone { WhereTupleComes
        (λ owner key old new x. retractions key old new owner ≡ []) }
    ensures told { WhereTupleComes (λ owner key old new x. IsNextPosition old.kept x.position
        → emissions key old new owner ≡ put_told owner key old x) }
    ensures one_new { (count : ℕ) (kept : List Kept) (time water : ℕ) → 1 ≤ count
        → upper_after kept time water / count ≤ upper kept water / count + 1 }
{}

/// A move of the watermark completes the next instances, up to those that it fills.
pub fn watermark_completes_the_next_instances()
    ensures { WhereWaterMoves
        (λ owner key m new. completions key m new owner ≡ move_told owner key m new) }
{}

/// A lane that none has left follows its own tuples; one that follows a key up to a time does so up
/// to each later one, and its ranks from there on are those among all, less those that left.
pub fn tuples_that_stay_are_enough()
    ensures own { (count time : ℕ) (lane : Laned) → lane.gone ≡ 0 → TimesDoNotFall lane.kept
        → FollowsTuples count time lane.kept lane }
    ensures later { (count early late : ℕ) (kept : List Kept) (lane : Laned) → early ≤ late
        → FollowsTuples count early kept lane → FollowsTuples count late kept lane }
    ensures ranks { (count from : ℕ) (kept : List Kept) (lane : Laned) (time : ℕ)
        → FollowsTuples count from kept lane → from ≤ time
        → upper kept time ≡ lane.gone + upper lane.kept time }
{}
