//! Laws of shards and sources: which journals are lawful, and what is never dropped in them.
ghost use Rattle.std.specs.Prelude.{◌≡◌, ◌≤◌, ◌<◌, ◌↔◌, ◌++◌, ℕ, false, List, [], ◌∷◌, length, slice_index_or, All};
ghost use Rattle.stream_base.specs.Laws.{journals_of_one};
ghost use Rattle.stream_base.specs.Model.Routes.{routed, entries_from, IsLawful};
ghost use Rattle.stream_base.specs.Model.Watermark.{source_water, water_of};
ghost use Rattle.stream_base.specs.Model.What.{is_idle_word, water_time, is_late};
ghost use Rattle.stream_base.specs.declared.entry.Entry.{Entry};
ghost use Rattle.stream_base.specs.declared.limits.TheConstants.{FINAL};

/// The journals of one source are lawful exactly where each holds its routed entries, shard by
/// shard.
#[tactic(auto, using(crate::proofs::Lawful::lawful_of_one))]
pub fn journals_of_one_source_hold_its_routed_entries()
    ensures { (shards : ℕ) (entries : List Entry) (journals : List (List Entry))
        → All (λ e. e.source ≡ 0) entries
        → IsLawful shards (entries ∷ []) journals ↔ (journals ≡ journals_of_one shards entries) }
{}

/// A source's own watermark is decided by its own entries. As long as it never said that it is
/// idle, nothing of it that isn't late at its own watermark is late at the journal's.
pub fn own_watermark_decides_what_is_late()
    ensures own { (source : ℕ) (journal : List Entry)
        → source_water source (entries_from source journal) ≡ source_water source journal }
    ensures in_time { (lateness sources : ℕ) (before : List Entry) (e : Entry) → e.source < sources
        → All (λ x. water_time x.what ≤ FINAL) before
        → All (λ x. is_idle_word x.what ≡ false) (entries_from e.source before)
        → is_late lateness (source_water e.source before) e.what ≡ false
        → is_late lateness (water_of sources before) e.what ≡ false }
{}

/// In lawful journals the entries of a source that stand before one of its own are those that it
/// told before it; so it is decided by what the source tells whether an entry of it can be dropped.
/// None is that isn't late at the watermark of these, where none of them says that the source is
/// idle.
pub fn nothing_in_time_for_its_source_is_dropped()
    ensures told { (shards : ℕ) (sources journals : List (List Entry)) (k : ℕ) (before : List Entry)
        (e : Entry) (after : List Entry)
        → IsLawful shards sources journals → k < shards
        → slice_index_or journals k [] ≡ before ++ e ∷ after
        → routed shards k (slice_index_or sources e.source [])
        ≡ entries_from e.source before ++ e ∷ entries_from e.source after }
    ensures in_time { (shards : ℕ) (sources journals : List (List Entry)) (k : ℕ)
        (before : List Entry) (e : Entry) (after : List Entry)
        → IsLawful shards sources journals → k < shards
        → slice_index_or journals k [] ≡ before ++ e ∷ after → (lateness : ℕ)
        → All (λ x. water_time x.what ≤ FINAL) before
        → All (λ x. is_idle_word x.what ≡ false) (entries_from e.source before)
        → is_late lateness (source_water e.source (entries_from e.source before)) e.what ≡ false
        → is_late lateness (water_of (length sources) before) e.what ≡ false }
{}
