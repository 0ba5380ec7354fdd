//! What lanes alone take up, as the contract of a function that does nothing.
ghost use Rattle.std.specs.Prelude.{◌≡◌, ℕ, false};
ghost use Rattle.stream_base.specs.Kinds.{is_timed};
ghost use Rattle.stream_base.specs.Limits.{Definitions};
ghost use Rattle.agg_store.specs.Stored.{Stored};
ghost use Rattle.key_parts.specs.Calls.{window_kind};
ghost use Rattle.time_parts.specs.Lanes.{complete_up_to, slices_completed, slices_of_last};

/// A window that is neither tumbling nor sliding takes up no slices where the watermark moves.
pub fn lanes_alone_take_up_slices()
    ensures completed { (d : Definitions) (window : ℕ) (s : Stored) (old new : ℕ)
        → is_timed (window_kind d window) ≡ false → slices_completed d window s old new ≡ 0 }
    ensures last { (d : Definitions) (window : ℕ) (s : Stored) (water : ℕ)
        → is_timed (window_kind d window) ≡ false → slices_of_last d window s water ≡ 0 }
    ensures end { (d : Definitions) (window water : ℕ)
        → is_timed (window_kind d window) ≡ false → complete_up_to d window water ≡ 0 }
{}
