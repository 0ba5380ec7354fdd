//! Which slices of a key have unsettled tuples.
ghost use Rattle.std.specs.Prelude.{◌≡◌, ◌≤◌, ◌+◌, [], ℕ, filter};
ghost use Rattle.stream_base.specs.Limits.{Definitions};
ghost use Rattle.stream_base.specs.Model.Changes.{Moment};
ghost use Rattle.stream_base.specs.Model.Cuts.{has_cut};
ghost use Rattle.stream_base.specs.Model.Slices.{runs_of, unsettled};
ghost use Rattle.window_laws.specs.After.{at_water};
ghost use Rattle.window_laws.specs.Settled.{without_first};
ghost use Rattle.slice_lists.specs.Touched.{is_near, slices_from};
ghost use Rattle.agg_store.specs.Entered.{slices_near};
ghost use Rattle.agg_store.specs.Stored.{IsStore, Stored, tuples_of};
ghost use Rattle.key_parts.specs.Held.{IsHeld};
ghost use Rattle.key_parts.specs.Moves.{all_count_events};
ghost use Rattle.held_laws.specs.Settling.{IsSettledUpTo, NoneSettled};

/// The slices of a key's unsettled tuples at its watermark or a later one are those slices of the
/// store that begin at or behind the time up to which tuples are settled then. Where each window
/// counts events there are none.
pub fn unsettled_slices_are_the_last_of_the_store()
    ensures last { (d : Definitions) (m : Moment) (n water time : ℕ) (s : Stored)
        → IsHeld d m n s → IsStore s → m.water ≤ water
        → IsSettledUpTo d (at_water (without_first n m) water) time
        → runs_of d.windows m.marks (unsettled d (at_water m water))
        ≡ slices_from time s.slices }
    ensures none { (d : Definitions) (m : Moment) → all_count_events d
        → runs_of d.windows m.marks (unsettled d m) ≡ [] }
{}

/// Where no tuple in the store is settled, it holds exactly the unsettled ones, and its slices are
/// theirs.
pub fn store_without_settled_tuples_holds_the_unsettled()
    ensures tuples { (d : Definitions) (m : Moment) (n : ℕ) (s : Stored)
        → IsHeld d m n s → NoneSettled d m s → unsettled d m ≡ tuples_of s }
    ensures slices { (d : Definitions) (m : Moment) (n : ℕ) (s : Stored)
        → IsHeld d m n s → IsStore s → NoneSettled d m s
        → runs_of d.windows m.marks (unsettled d m) ≡ s.slices }
{}

/// A tuple that isn't late enters the same slices of the store under all marks of the key, though
/// the store lacks the marks before what was dropped.
pub fn tuple_enters_the_same_slices_under_all_marks()
    ensures { (d : Definitions) (m : Moment) (n time : ℕ) (s : Stored)
        → IsHeld d m n s → IsStore s → m.water ≤ time + d.lateness
        → slices_near d.windows time s
        ≡ filter (is_near (has_cut d.windows m.marks) time) s.slices }
{}
