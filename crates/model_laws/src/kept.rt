//! Laws of what is kept of a key: its tuples and its marks.
ghost use Rattle.std.specs.BTreeSet.{insert_key};
ghost use Rattle.std.specs.Cmp.Lexicographic.{slice_cmp};
ghost use Rattle.std.specs.Int.{w64};
ghost use Rattle.std.specs.List.{Contains};
ghost use Rattle.std.specs.List.Sorted.{IsPermutation, IsStrictlyIncreasing, IsStrictlySortedBy};
ghost use Rattle.std.specs.Option.{option_map_or};
ghost use Rattle.std.specs.Ordering.{nat_cmp};
ghost use Rattle.std.specs.Prelude.{◌≡◌, ◌≤◌, ◌<◌, ◌↔◌, ◌++◌, ℕ, List, [], ◌∷◌, length, All, FitsSigned};
ghost use Rattle.stream_base.specs.Laws.{accepted_tuple, accepted_mark, IsAcceptedTuple, IsAcceptedMark, on_time_entry, AreInEventOrder};
ghost use Rattle.stream_base.specs.Model.Journal.{on_time, tuples_in, put_in_order, rising, kept_of, marks_of, keys_of};
ghost use Rattle.stream_base.specs.Model.What.{key_in};
ghost use Rattle.stream_base.specs.Model.Windows.{standing_of};
ghost use Rattle.stream_base.specs.Model.Journals.{AreEntriesWithin};
ghost use Rattle.stream_base.specs.declared.entry.Entry.{Entry};
ghost use Rattle.stream_base.specs.declared.kept.Kept.{Kept};
ghost use Rattle.stream_base.specs.declared.kind.Kind.{Kind};
ghost use Rattle.stream_base.specs.declared.limits.TheConstants.{TIME_MAX};

/// `rising` gives the elements of a list in their order, each once; numbers and keys have the same
/// members as before.
pub fn rising_lists_each_element_once()
    ensures numbers_rise { (xs : List ℕ) → IsStrictlyIncreasing (rising nat_cmp xs) }
    ensures numbers_stay { (xs : List ℕ) (x : ℕ) → Contains (rising nat_cmp xs) x ↔ Contains xs x }
    ensures keys_rise { (keys : List (List ℕ))
        → IsStrictlySortedBy (slice_cmp nat_cmp) (rising (slice_cmp nat_cmp) keys) }
    ensures keys_stay { (keys : List (List ℕ)) (key : List ℕ)
        → Contains (rising (slice_cmp nat_cmp) keys) key ↔ Contains keys key }
{}

/// One entry more is on time unless it is late at its own place; what was on time before it stays
/// so.
#[tactic(auto, using(stream_base::proofs::Growing::on_time_push))]
pub fn on_time_after_one_entry()
    ensures { (lateness sources : ℕ) (journal : List Entry) (e : Entry)
        → on_time lateness sources (journal ++ e ∷ [])
        ≡ on_time lateness sources journal ++ on_time_entry lateness sources journal e }
{}

/// What is known of a key after one entry more: a tuple of the key that isn't late is put in order,
/// a mark of the key that isn't late is added to its marks, and nothing else changes.
#[tactic(auto, using(stream_base::proofs::Growing::kept_of_push, stream_base::proofs::Growing::marks_of_push, stream_base::proofs::Growing::keys_of_push))]
pub fn key_after_one_entry()
    ensures kept { (lateness sources : ℕ) (key : List ℕ) (journal : List Entry) (e : Entry)
        → kept_of lateness sources key (journal ++ e ∷ [])
        ≡ option_map_or (put_in_order (kept_of lateness sources key journal))
        (accepted_tuple lateness sources key journal e) (kept_of lateness sources key journal) }
    ensures marks { (lateness sources : ℕ) (key : List ℕ) (journal : List Entry) (e : Entry)
        → marks_of lateness sources key (journal ++ e ∷ [])
        ≡ option_map_or (insert_key nat_cmp (marks_of lateness sources key journal))
        (accepted_mark lateness sources key journal e) (marks_of lateness sources key journal) }
    ensures keys { (journal : List Entry) (e : Entry)
        → keys_of (journal ++ e ∷ [])
        ≡ option_map_or (insert_key (slice_cmp nat_cmp) (keys_of journal)) (key_in e.what)
        (keys_of journal) }
{}

/// What is kept of a key is sorted by time and then by position, and holds each accepted tuple of
/// the key exactly once.
#[tactic(auto, using(stream_base::proofs::EventOrder::kept_in_event_order, stream_base::proofs::EventOrder::kept_permutes))]
pub fn kept_tuples_are_in_event_order()
    ensures ordered { (lateness sources : ℕ) (key : List ℕ) (journal : List Entry)
        → AreInEventOrder (kept_of lateness sources key journal) }
    ensures each_once { (lateness sources : ℕ) (key : List ℕ) (journal : List Entry)
        → IsPermutation (tuples_in key (on_time lateness sources journal))
        (kept_of lateness sources key journal) }
{}

/// Of a key that no tuple or mark of a journal has, nothing is kept and nothing stands.
pub fn absent_key_has_nothing()
    ensures kept { (lateness sources : ℕ) (key : List ℕ) (journal : List Entry)
        → ¬ Contains (keys_of journal) key → kept_of lateness sources key journal ≡ [] }
    ensures stands { (kind : Kind) (marks : List ℕ) (water : ℕ)
        → standing_of kind [] marks water ≡ [] }
{}

/// A tuple is kept exactly where the journal has it at its position and it wasn't late at the
/// watermark of the entries before it. Positions lie in the journal, and no two kept tuples share
/// one.
pub fn kept_tuples_are_those_in_time()
    ensures exactly { (lateness sources : ℕ) (key : List ℕ) (journal : List Entry) (x : Kept)
        → Contains (kept_of lateness sources key journal) x
        ↔ IsAcceptedTuple lateness sources key journal x }
    ensures positions { (lateness sources : ℕ) (key : List ℕ) (journal : List Entry)
        → All (λ x. x.position < length journal) (kept_of lateness sources key journal) }
    ensures one_a_position { (lateness sources : ℕ) (key : List ℕ) (journal : List Entry)
        (x y : Kept)
        → Contains (kept_of lateness sources key journal) x
        → Contains (kept_of lateness sources key journal) y
        → x.position ≡ y.position → x ≡ y }
{}

/// A time is among the marks of a key exactly where the journal has a mark of the key there that
/// wasn't late at the watermark of the entries before it. The times rise.
pub fn marks_are_those_in_time()
    ensures exactly { (lateness sources : ℕ) (key : List ℕ) (journal : List Entry) (time : ℕ)
        → Contains (marks_of lateness sources key journal) time
        ↔ IsAcceptedMark lateness sources key journal time }
    ensures rising { (lateness sources : ℕ) (key : List ℕ) (journal : List Entry)
        → IsStrictlyIncreasing (marks_of lateness sources key journal) }
{}

/// Where the entries are within their limits, so is what is kept: each value is a signed number of
/// 64 bits, and each time is within its limit.
pub fn kept_tuples_are_within_the_limits()
    ensures values { (lateness sources : ℕ) (key : List ℕ) (journal : List Entry)
        → AreEntriesWithin journal
        → All (λ x. FitsSigned w64 x.value) (kept_of lateness sources key journal) }
    ensures times { (lateness sources : ℕ) (key : List ℕ) (journal : List Entry)
        → AreEntriesWithin journal
        → All (λ x. x.time ≤ TIME_MAX) (kept_of lateness sources key journal) }
    ensures marks { (lateness sources : ℕ) (key : List ℕ) (journal : List Entry)
        → AreEntriesWithin journal
        → All (λ time. time ≤ TIME_MAX) (marks_of lateness sources key journal) }
{}
