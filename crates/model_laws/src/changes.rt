//! Laws of the changes that an entry causes.
ghost use Rattle.std.specs.List.{Contains};
ghost use Rattle.std.specs.Prelude.{◌≡◌, ◌≤◌, ◌<◌, ◌↔◌, ◌++◌, ℕ, true, false, List, [], ◌∷◌, length, Some, All};
ghost use Rattle.stream_base.specs.Laws.{IsCausedBy, AreInOrder, completions_after};
ghost use Rattle.stream_base.specs.Kinds.{is_timed};
ghost use Rattle.stream_base.specs.Limits.{Definitions, AreWithinLimits};
ghost use Rattle.stream_base.specs.Model.Changes.{changes_of_key, changes_after, changes_at};
ghost use Rattle.stream_base.specs.Model.Watermark.{water_of};
ghost use Rattle.stream_base.specs.Model.What.{key_in, is_progress, is_late, tuple_in};
ghost use Rattle.stream_base.specs.declared.change.Change.{Change};
ghost use Rattle.stream_base.specs.declared.change.Change.TheVariants.{Dropped};
ghost use Rattle.stream_base.specs.declared.entry.Entry.{Entry};
ghost use Rattle.stream_base.specs.declared.kept.Kept.{Kept};

/// An entry is dropped exactly where it is a tuple or mark that is late, and is then the only
/// change.
pub fn late_entry_is_dropped()
    ensures exactly { (d : Definitions) (sources : ℕ) (before : List Entry) (e : Entry)
        → Contains (changes_after d sources before e) Dropped
        ↔ (is_late d.lateness (water_of sources before) e.what ≡ true) }
    ensures alone { (d : Definitions) (sources : ℕ) (before : List Entry) (e : Entry)
        → is_late d.lateness (water_of sources before) e.what ≡ true
        → changes_after d sources before e ≡ Dropped ∷ [] }
{}

/// An entry that isn't late causes these changes and no others: for each key a retraction of each
/// instance that stood and stands no longer, an emission of each that newly stands, and an update
/// of each that stood, stands, and selects other positions.
pub fn changes_are_those_of_the_instances()
    ensures { (d : Definitions) (sources : ℕ) (before : List Entry) (e : Entry) (change : Change)
        → AreWithinLimits d
        → is_late d.lateness (water_of sources before) e.what ≡ false
        → Contains (changes_after d sources before e) change
        ↔ IsCausedBy d sources before e change }
{}

/// The changes that an entry causes come each once, ordered by the bytes of their keys, then
/// retractions before emissions and updates, then by window, start and end.
pub fn changes_are_in_order()
    ensures { (d : Definitions) (sources : ℕ) (before : List Entry) (e : Entry) → AreWithinLimits d
        → AreInOrder (changes_after d sources before e) }
{}

/// A word on the progress of a source brings the emission of each instance whose bound lies after
/// the old watermark and at or before the new one, and no other change; none where the watermark
/// stays.
pub fn watermark_alone_completes()
    ensures completes { (d : Definitions) (sources : ℕ) (before : List Entry) (e : Entry)
        → AreWithinLimits d
        → is_progress e.what ≡ true
        → changes_after d sources before e ≡ completions_after d sources before e }
    ensures stays { (d : Definitions) (sources : ℕ) (before : List Entry) (e : Entry)
        → AreWithinLimits d
        → is_progress e.what ≡ true → water_of sources (before ++ e ∷ []) ≡ water_of sources before
        → changes_after d sources before e ≡ [] }
{}

/// A tuple or mark that isn't late leaves the watermark, and changes only what stands of its key.
pub fn tuple_or_mark_changes_its_key()
    ensures water { (sources : ℕ) (before : List Entry) (e : Entry) (key : List ℕ)
        → key_in e.what ≡ Some key
        → water_of sources (before ++ e ∷ []) ≡ water_of sources before }
    ensures changes { (d : Definitions) (sources : ℕ) (before : List Entry) (e : Entry)
        (key : List ℕ) → AreWithinLimits d
        → key_in e.what ≡ Some key → is_late d.lateness (water_of sources before) e.what ≡ false
        → changes_after d sources before e ≡ changes_of_key d sources before e key }
{}

/// Where every window is tumbling or sliding, a tuple at or after the watermark changes nothing: it
/// lies in no complete interval.
pub fn tuple_after_the_watermark_changes_nothing()
    ensures { (d : Definitions) (sources : ℕ) (before : List Entry) (e : Entry) (key : List ℕ)
        (x : Kept) → AreWithinLimits d → All (λ w. is_timed w.kind ≡ true) d.windows
        → tuple_in key (length before) e.what ≡ Some x
        → is_late d.lateness (water_of sources before) e.what ≡ false
        → water_of sources before ≤ x.time
        → changes_after d sources before e ≡ [] }
{}

/// The changes at a position are those that its entry causes behind the entries before it, and they
/// stay as the journal grows. Behind its end there are none.
#[tactic(auto, using(crate::proofs::Positions::changes_at_entry, crate::proofs::Positions::changes_at_stay, crate::proofs::Positions::changes_beyond))]
pub fn changes_at_a_position_stay()
    ensures entry { (d : Definitions) (sources : ℕ) (before : List Entry) (e : Entry)
        (more : List Entry)
        → changes_at d sources (before ++ e ∷ more) (length before)
        ≡ changes_after d sources before e }
    ensures stay { (d : Definitions) (sources : ℕ) (journal more : List Entry) (position : ℕ)
        → position < length journal
        → changes_at d sources (journal ++ more) position ≡ changes_at d sources journal position }
    ensures beyond { (d : Definitions) (sources : ℕ) (journal : List Entry) (position : ℕ)
        → length journal ≤ position → changes_at d sources journal position ≡ [] }
{}
