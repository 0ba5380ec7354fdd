//! Laws of the watermark of a source, and of a journal.
ghost use Rattle.std.specs.Prelude.{◌≡◌, ◌≤◌, ◌<◌, ◌↔◌, ◌==◌, ◌||◌, ◌&&◌, if◌then◌else◌, ◌++◌, ℕ, true, false, max, min, List, [], ◌∷◌, slice_set, All, fold};
ghost use Rattle.stream_base.specs.Laws.{waters_of};
ghost use Rattle.stream_base.specs.Model.Routes.{entries_from};
ghost use Rattle.stream_base.specs.Model.Watermark.{has_ended, source_water, is_idle, least_water, water_of};
ghost use Rattle.stream_base.specs.Model.What.{is_progress, is_idle_word, is_end, water_time};
ghost use Rattle.stream_base.specs.declared.entry.Entry.{Entry};
ghost use Rattle.stream_base.specs.declared.limits.TheConstants.{FINAL};

/// The watermark never falls as a journal grows, and is never below the least watermark of the
/// sources that are awake.
#[tactic(auto, using(crate::proofs::WatermarkFacts::water_rises_over, crate::proofs::WatermarkFacts::least_at_most_water))]
pub fn watermark_never_falls()
    ensures rises { (sources : ℕ) (journal more : List Entry)
        → water_of sources journal ≤ water_of sources (journal ++ more) }
    ensures least { (sources : ℕ) (journal : List Entry)
        → least_water sources journal ≤ water_of sources journal }
{}

/// One entry more gives the greater of the watermark before it and the least watermark of the
/// sources that are then awake. A tuple or mark leaves it.
#[tactic(auto, using(crate::proofs::WatermarkFacts::water_of_nil, crate::proofs::WatermarkFacts::water_of_push, crate::proofs::WatermarkFacts::water_of_same))]
pub fn watermark_after_one_entry()
    ensures empty { (sources : ℕ) → water_of sources [] ≡ least_water sources [] }
    ensures more { (sources : ℕ) (journal : List Entry) (e : Entry)
        → water_of sources (journal ++ e ∷ [])
        ≡ max (water_of sources journal) (least_water sources (journal ++ e ∷ [])) }
    ensures stays { (sources : ℕ) (journal : List Entry) (e : Entry) → is_progress e.what ≡ false
        → water_of sources (journal ++ e ∷ []) ≡ water_of sources journal }
{}

/// One entry more changes what is known of its own source alone: its end makes its watermark final,
/// a watermark raises it to the entry's time where that is greater, and its last word on its
/// progress says whether it is idle.
#[tactic(auto, using(crate::proofs::WatermarkFacts::source_water_other, crate::proofs::WatermarkFacts::source_water_end, crate::proofs::WatermarkFacts::source_water_own, crate::proofs::WatermarkFacts::waters_of_push, crate::proofs::WatermarkFacts::is_idle_push, crate::proofs::WatermarkFacts::has_ended_push))]
pub fn sources_after_one_entry()
    ensures other { (source : ℕ) (journal : List Entry) (e : Entry) → (e.source == source) ≡ false
        → source_water source (journal ++ e ∷ []) ≡ source_water source journal }
    ensures end { (source : ℕ) (journal : List Entry) (e : Entry) → (e.source == source) ≡ true
        → is_end e.what ≡ true
        → source_water source (journal ++ e ∷ []) ≡ FINAL }
    ensures own { (source : ℕ) (journal : List Entry) (e : Entry) → (e.source == source) ≡ true
        → is_end e.what ≡ false
        → water_time e.what ≤ FINAL
        → source_water source (journal ++ e ∷ [])
        ≡ max (source_water source journal) (water_time e.what) }
    ensures ended { (source : ℕ) (journal : List Entry) (e : Entry)
        → has_ended source (journal ++ e ∷ [])
        ≡ (has_ended source journal || (e.source == source && is_end e.what)) }
    ensures idle { (source : ℕ) (journal : List Entry) (e : Entry)
        → is_idle source (journal ++ e ∷ [])
        ≡ (if e.source == source
        && is_progress e.what then is_idle_word e.what else is_idle source journal) }
    ensures all { (sources : ℕ) (journal : List Entry) (e : Entry)
        → waters_of sources (journal ++ e ∷ [])
        ≡ slice_set (waters_of sources journal) e.source
        (source_water e.source (journal ++ e ∷ [])) }
{}

/// Where no source was idle, the watermark is the least of the sources' own.
#[tactic(auto, using(crate::proofs::WatermarkBounds::water_without_idle))]
pub fn watermark_without_idle_is_the_least()
    ensures { (sources : ℕ) (journal : List Entry) → All (λ e. water_time e.what ≤ FINAL) journal
        → All (λ e. is_idle_word e.what ≡ false) journal
        → water_of sources journal ≡ fold min FINAL (waters_of sources journal) }
{}

/// No watermark is beyond the final time, and it is final exactly once all sources have ended.
pub fn watermark_is_final_once_all_have_ended()
    ensures at_most { (sources : ℕ) (journal : List Entry)
        → All (λ e. water_time e.what ≤ FINAL) journal
        → water_of sources journal ≤ FINAL }
    ensures final_once { (sources : ℕ) (journal : List Entry)
        → All (λ e. water_time e.what < FINAL) journal
        → (water_of sources journal ≡ FINAL)
        ↔ ((source : ℕ) → source < sources → has_ended source journal ≡ true) }
{}

/// A source that never said that it is idle holds the watermark back to its own.
pub fn source_never_idle_holds_the_watermark_back()
    ensures { (sources source : ℕ) (journal : List Entry) → source < sources
        → All (λ e. water_time e.what ≤ FINAL) journal
        → All (λ e. is_idle_word e.what ≡ false) (entries_from source journal)
        → water_of sources journal ≤ source_water source journal }
{}
