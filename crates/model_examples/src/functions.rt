//! The nine functions, and the order in which they fold.
ghost use Rattle.std.specs.Prelude.{◌≡◌, [], ◌∷◌, Some, None, pos, negsuc};
ghost use Rattle.stream_base.specs.Examples.{with_lateness, window, tuple, water, end, a, alice, six_values, extremes, row, mean_row, mean_former, changes_in};
ghost use Rattle.stream_base.specs.Model.Functions.{counting, summing, averaging, least, greatest, earliest, latest, rising, tracing, joined_runs, shown_of};
ghost use Rattle.stream_base.specs.declared.change.Change.TheVariants.{New, Again};
ghost use Rattle.stream_base.specs.declared.func.Func.TheVariants.{Count, Sum, Min, Max, Mean, First, Last, Rises, Trace};
ghost use Rattle.stream_base.specs.declared.kind.Kind.TheVariants.{Tumbling, Session};
ghost use Rattle.stream_base.specs.declared.shown.Shown.TheVariants.{Whole, Ratio};

/// Tuples at one time are in the order in which they came: first and last tell them apart.
#[tactic(auto, unfolding(stream_base::specs::Model::Opened::all_opened))]
pub fn ties_are_in_order_of_arrival()
    ensures { changes_in
        (with_lateness 0 (window (Tumbling 10) First ∷ window (Tumbling 10) Last ∷ []))
        (tuple 5 (pos 1) a ∷ tuple 5 (pos 2) a ∷ end ∷ [])
        ≡ [] ∷ [] ∷ (New (row 0 0 10 2 (pos 1) a) ∷ New (row 1 0 10 2 (pos 2) a) ∷ []) ∷ [] }
{}

/// A function that isn't commutative is folded in event order, and not in order of arrival.
#[tactic(auto, unfolding(stream_base::specs::Model::Opened::all_opened))]
pub fn trace_folds_in_event_order()
    ensures { changes_in (with_lateness 0 (window (Tumbling 10) Trace ∷ []))
        (tuple 5 (pos 3) a ∷ tuple 2 (pos 1) a ∷ end ∷ [])
        ≡ [] ∷ [] ∷ (New (row 0 0 10 2 (pos 1099511628214) a) ∷ []) ∷ [] }
{}

/// Milliseconds since 1970: a mean over minutes, shown as its sum over its count, beside sessions
/// of half an hour.
#[tactic(auto, unfolding(stream_base::specs::Model::Opened::all_opened))]
pub fn means_and_sessions_in_milliseconds()
    ensures { changes_in
        (with_lateness 30000 (window (Tumbling 60000) Mean ∷ window (Session 1800000) Count ∷ []))
        (tuple 1700000000000 (pos 120) alice ∷ tuple 1700000030000 (pos 80) alice
        ∷ water 1700000040000 ∷ tuple 1700000015000 (pos 100) alice ∷ end ∷ [])
        ≡ [] ∷ [] ∷ (New (mean_row 0 1699999980000 1700000040000 2 (pos 200) alice) ∷ [])
        ∷ (Again (mean_row 0 1699999980000 1700000040000 3 (pos 300) alice)
        (mean_former 2 (pos 200)) ∷ [])
        ∷ (New (row 1 1700000000000 1700001830000 3 (pos 3) alice) ∷ []) ∷ [] }
{}

/// Negative values, and the extremes that a value can have, in a sum that is exact.
#[tactic(auto, unfolding(stream_base::specs::Model::Opened::all_opened))]
pub fn sums_are_exact()
    ensures { changes_in (with_lateness 0 (window (Tumbling 10) Sum ∷ []))
        (tuple 1 (pos 9223372036854775807) a ∷ tuple 2 (pos 9223372036854775807) a
        ∷ tuple 3 (negsuc 4) a ∷ end ∷ [])
        ≡ [] ∷ [] ∷ [] ∷ (New (row 0 0 10 3 (pos 18446744073709551609) a) ∷ []) ∷ [] }
{}

/// What each of the nine functions shows of six values, two of which repeat the one before.
#[tactic(auto, unfolding(stream_base::specs::Model::Opened::all_opened))]
pub fn nine_functions_of_six_values()
    ensures count { shown_of Count six_values ≡ Whole (pos 6) }
    ensures sum { shown_of Sum six_values ≡ Whole (pos 13) }
    ensures min { shown_of Min six_values ≡ Whole (negsuc 0) }
    ensures max { shown_of Max six_values ≡ Whole (pos 5) }
    ensures mean { shown_of Mean six_values ≡ Ratio (pos 13) 6 }
    ensures first { shown_of First six_values ≡ Whole (pos 2) }
    ensures last { shown_of Last six_values ≡ Whole (pos 5) }
    ensures rises { shown_of Rises six_values ≡ Whole (pos 2) }
    ensures trace { shown_of Trace six_values ≡ Whole (pos 5812361948563658689) }
{}

/// What each of them shows of the least value and the greatest, in this order.
#[tactic(auto, unfolding(stream_base::specs::Model::Opened::all_opened))]
pub fn nine_functions_of_the_extremes()
    ensures count { shown_of Count extremes ≡ Whole (pos 2) }
    ensures sum { shown_of Sum extremes ≡ Whole (negsuc 0) }
    ensures min { shown_of Min extremes ≡ Whole (negsuc 9223372036854775807) }
    ensures max { shown_of Max extremes ≡ Whole (pos 9223372036854775807) }
    ensures mean { shown_of Mean extremes ≡ Ratio (negsuc 0) 2 }
    ensures first { shown_of First extremes ≡ Whole (negsuc 9223372036854775807) }
    ensures last { shown_of Last extremes ≡ Whole (pos 9223372036854775807) }
    ensures rises { shown_of Rises extremes ≡ Whole (pos 1) }
    ensures trace { shown_of Trace extremes ≡ Whole (pos 18446744073709551615) }
{}

/// A sum is a signed number of 128 bits, and a count a number of 64 bits; both go round at their
/// ends.
pub fn sums_and_counts_go_round()
    ensures sum { summing.combine (pos 170141183460469231731687303715884105727) (pos 1)
        ≡ negsuc 170141183460469231731687303715884105727 }
    ensures mean { averaging.combine
        (pos 170141183460469231731687303715884105727, 18446744073709551615) (pos 1, 2)
        ≡ (negsuc 170141183460469231731687303715884105727, 1) }
    ensures great_count { counting.combine 9223372036854775807 1 ≡ 9223372036854775808 }
    ensures count { counting.combine 18446744073709551615 2 ≡ 1 }
{}

/// Two results in event order become one, for each function.
pub fn results_are_combined()
    ensures count { counting.combine 2 3 ≡ 5 }
    ensures sum { summing.combine (pos 2) (negsuc 4) ≡ negsuc 2 }
    ensures min { least.combine (Some (pos 2)) (Some (negsuc 4)) ≡ Some (negsuc 4) }
    ensures max { greatest.combine (Some (pos 2)) (Some (negsuc 4)) ≡ Some (pos 2) }
    ensures mean { averaging.combine (pos 2, 3) (negsuc 4, 5) ≡ (negsuc 2, 8) }
    ensures first { earliest.combine (Some (pos 2)) (Some (pos 3)) ≡ Some (pos 2) }
    ensures last { latest.combine (Some (pos 2)) (Some (pos 3)) ≡ Some (pos 3) }
    ensures rise { joined_runs (pos 1, pos 2, 3) (pos 4, pos 0, 1) ≡ (pos 1, pos 0, 5) }
    ensures no_rise { joined_runs (pos 1, pos 4, 3) (pos 4, pos 5, 1) ≡ (pos 1, pos 5, 4) }
    ensures trace { tracing.combine (3, 4) (5, 6) ≡ (15, 26) }
{}

/// A result beside that of no values stays as it is, on either side.
pub fn results_of_no_values()
    ensures min { least.combine None (Some (pos 2)) ≡ Some (pos 2) }
    ensures max { greatest.combine (Some (negsuc 1)) None ≡ Some (negsuc 1) }
    ensures first { earliest.combine None (Some (pos 3)) ≡ Some (pos 3) }
    ensures last { latest.combine (Some (pos 2)) None ≡ Some (pos 2) }
    ensures rises { rising.combine (Some (pos 1, pos 2, 3)) None ≡ Some (pos 1, pos 2, 3) }
    ensures trace { tracing.combine (1, 0) (5, 6) ≡ (5, 6) }
{}
