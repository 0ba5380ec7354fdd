//! Windows of event counts: what stands of them, and what a tuple shifts.
ghost use Rattle.std.specs.Prelude.{◌≡◌, ◌≤◌, ◌+◌, ◌/◌, List, ℕ, [], nat_le, if◌then◌else◌};
ghost use Rattle.stream_base.specs.declared.def.Def.{Def};
ghost use Rattle.stream_base.specs.declared.kept.Kept.{Kept};
ghost use Rattle.stream_base.specs.declared.kind.Kind.TheVariants.{Events};
ghost use Rattle.stream_base.specs.Laws.{TimesDoNotFall};
ghost use Rattle.stream_base.specs.Model.Changes.{Moment, emissions, retractions};
ghost use Rattle.stream_base.specs.Model.Journal.{put_in_order};
ghost use Rattle.stream_base.specs.Model.Windows.{standing_of};
ghost use Rattle.window_laws.specs.After.{with_tuple};
ghost use Rattle.window_laws.specs.Counts.{changes_of_shift, ranks_between, upper};
ghost use Rattle.window_laws.specs.Positions.{HaveDistinctPositions};

/// Of a window of event counts the first instances stand: as many as so many tuples fill that lie
/// at or before the watermark.
pub fn first_counts_stand()
    ensures { (count water : ℕ) (kept : List Kept) (marks : List ℕ) → 1 ≤ count
        → TimesDoNotFall kept
        → standing_of (Events count) kept marks water
        ≡ ranks_between count kept 0 (upper water kept / count) }
{}

/// A tuple adds one to how many lie at or before a time where it does, and else nothing.
pub fn tuple_counts_up_to_each_later_time()
    ensures { (time : ℕ) (kept : List Kept) (x : Kept) → upper time (put_in_order kept x)
        ≡ upper time kept + (if nat_le x.time time then 1 else 0) }
{}

/// A tuple retracts no instance of a window of event counts. It updates those that stood from the
/// one that it enters on, since each then selects its tuples one rank further, and at most one more
/// stands.
pub fn tuple_shifts_the_later_counts()
    ensures gone { (window : ℕ) (key : List ℕ) (count : ℕ) (def : Def) (m : Moment) (x : Kept)
        → def.kind ≡ Events count → 1 ≤ count → TimesDoNotFall m.kept
        → retractions key m (with_tuple m x) (window, def) ≡ [] }
    ensures come { (window : ℕ) (key : List ℕ) (count : ℕ) (def : Def) (m : Moment) (x : Kept)
        → def.kind ≡ Events count → 1 ≤ count → TimesDoNotFall m.kept
        → HaveDistinctPositions (put_in_order m.kept x)
        → emissions key m (with_tuple m x) (window, def)
        ≡ changes_of_shift window key def.func count m.water m.kept x }
{}
