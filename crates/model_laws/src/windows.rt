//! Laws of the instances of a window.
ghost use Rattle.std.specs.List.{Contains, find, flat_map};
ghost use Rattle.std.specs.List.Sorted.{IsStrictlyIncreasing};
ghost use Rattle.std.specs.Prelude.{◌≡◌, ◌≤◌, ◌<◌, ◌-◌, ◌↔◌, ◌⊎◌, ◌++◌, ℕ, List, [], ◌∷◌, length, Some, All};
ghost use Rattle.stream_base.specs.Laws.{RiseByStart, TimesDoNotFall, HoldsTime, HoldsKept, selections_of};
ghost use Rattle.stream_base.specs.Kinds.{IsKindWithin};
ghost use Rattle.stream_base.specs.Model.Changes.{is_same};
ghost use Rattle.stream_base.specs.Model.Journal.{put_in_order};
ghost use Rattle.stream_base.specs.Model.Windows.{Instance, within, starts_of, sessions, instances_of};
ghost use Rattle.stream_base.specs.declared.kept.Kept.{Kept};
ghost use Rattle.stream_base.specs.declared.kind.Kind.{Kind};

/// The starts of a window's intervals are the multiples of its slide whose intervals hold a kept
/// tuple, rising. A tumbling window slides by its length.
pub fn intervals_hold_a_kept_tuple()
    ensures members { (length slide : ℕ) (kept : List Kept) (low : ℕ) → 1 ≤ slide → slide ≤ length
        → Contains (starts_of length slide kept) low ↔ HoldsKept length slide kept low }
    ensures rising { (length slide : ℕ) (kept : List Kept)
        → IsStrictlyIncreasing (starts_of length slide kept) }
{}

/// One tuple more brings the intervals that hold it, and changes no selection of another interval.
pub fn tuple_changes_the_intervals_that_hold_it()
    ensures starts { (length slide : ℕ) (kept : List Kept) (x : Kept) (low : ℕ) → 1 ≤ slide
        → slide ≤ length
        → Contains (starts_of length slide (put_in_order kept x)) low
        ↔ (Contains (starts_of length slide kept) low ⊎ HoldsTime length slide x.time low) }
    ensures selections { (low high : ℕ) (kept : List Kept) (x : Kept)
        → (x.time < low) ⊎ (high ≤ x.time)
        → within low high (put_in_order kept x) ≡ within low high kept }
{}

/// The sessions of a key put together are what is kept of it; neighbours in one session differ by
/// less than the gap, and the last of a session and the first of the next by the gap or more.
pub fn sessions_part_at_the_gap()
    ensures together { (gap : ℕ) (kept : List Kept)
        → flat_map (λ i. i.chosen) (sessions gap kept) ≡ kept }
    ensures near { (gap : ℕ) (kept : List Kept) (before : List (List Kept)) (front : List Kept)
        (a b : Kept) (back : List Kept) (after : List (List Kept))
        → selections_of (sessions gap kept) ≡ before ++ (front ++ a ∷ b ∷ back) ∷ after
        → b.time - a.time < gap }
    ensures apart { (gap : ℕ) (kept : List Kept) (before : List (List Kept)) (front : List Kept)
        (a b : Kept) (back : List Kept) (after : List (List Kept))
        → selections_of (sessions gap kept) ≡ before ++ (front ++ a ∷ []) ∷ (b ∷ back) ∷ after
        → gap ≤ b.time - a.time }
{}

/// The instances of one window and key have rising starts, so that no two of them are the same, and
/// each is found by its start and end.
pub fn instances_are_distinct()
    ensures rise { (kind : Kind) (kept : List Kept) (marks : List ℕ) → IsKindWithin kind
        → TimesDoNotFall kept → RiseByStart (instances_of kind kept marks) }
    ensures one_of_a_start { (kind : Kind) (kept : List Kept) (marks : List ℕ) (i j : Instance)
        → IsKindWithin kind → TimesDoNotFall kept
        → Contains (instances_of kind kept marks) i → Contains (instances_of kind kept marks) j
        → i.low ≡ j.low → i ≡ j }
    ensures found { (kind : Kind) (kept : List Kept) (marks : List ℕ) (i : Instance)
        → IsKindWithin kind → TimesDoNotFall kept
        → Contains (instances_of kind kept marks) i
        → find (is_same i) (instances_of kind kept marks) ≡ Some i }
{}

/// Each instance of a window selects at least one tuple.
pub fn instances_select_tuples()
    ensures { (kind : Kind) (kept : List Kept) (marks : List ℕ) → IsKindWithin kind
        → All (λ i. 1 ≤ length i.chosen) (instances_of kind kept marks) }
{}
