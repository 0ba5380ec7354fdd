//! What a lane knows of its store's slices after a call on the store, each as the contract of a
//! function that does nothing.
ghost use Rattle.std.specs.Prelude.{◌≡◌, ◌≤◌, ℕ};
ghost use Rattle.std.specs.List.{flat_map};
ghost use Rattle.stream_base.specs.declared.kept.Kept.{Kept};
ghost use Rattle.slice_lists.specs.Runs.{parted_at};
ghost use Rattle.window_laws.specs.Walk.{next_start_of};
ghost use Rattle.agg_store.specs.Entered.{IsPut};
ghost use Rattle.time_lanes.specs.Lane.{IsSameUpTo, Knows, MissesNoSlice, KnowsOn};
ghost use Rattle.time_lanes.specs.Stays.{LastsAhead, LastsPurged, LastsWithRoom, WhereComes, WhereNothingCompletes, WherePurged};

use aggregates::Partial;

/// A tuple or a mark leaves the slices up to each end of an interval that lies at or before it.
pub fn what_comes_leaves_earlier_slices()
    ensures tuple { WhereComes Kept
        (λ windows kind old new x. IsPut windows old x new → IsSameUpTo kind x.time old new) }
    ensures mark { WhereComes ℕ (λ windows kind old new time. new.slices
        ≡ flat_map (parted_at time) old.slices → IsSameUpTo kind time old new) }
{}

/// Where slices change from the watermark on alone, a lane goes on to know them, and to miss none
/// of the complete intervals.
pub fn lane_knows_what_comes_at_the_watermark<M: Partial>()
    ensures knows { LastsAhead M (Knows M.of_values) }
    ensures knows_all { LastsAhead M MissesNoSlice }
{}

/// Where slices are dropped that lie before the next start, a lane goes on to know the others.
pub fn lane_knows_what_a_purge_leaves<M: Partial>()
    ensures knows { WherePurged M (λ kind water time old new lane. time ≤ next_start_of kind water
        → Knows M.of_values kind water old lane → Knows M.of_values kind water new lane) }
    ensures knows_all { LastsPurged M MissesNoSlice }
{}

/// Room makes no difference to what a lane knows.
pub fn lane_with_more_room_knows_the_same<M: Partial>()
    ensures knows { LastsWithRoom M (Knows M.of_values) }
    ensures knows_all { LastsWithRoom M MissesNoSlice }
{}

/// Where a move of the watermark completes no interval, a lane that isn't told of it knows the slices
/// at the new watermark too.
pub fn lane_knows_where_nothing_completes<M: Partial>()
    ensures { WhereNothingCompletes M
        (λ kind s old new lane. KnowsOn M.of_values kind s old new lane lane) }
{}
