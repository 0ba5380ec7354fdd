//! Tuples and marks that come after the watermark.
ghost use Rattle.std.specs.Prelude.{◌≡◌, ◌≤◌, ◌<◌, List, ℕ, [], false, Some, length};
ghost use Rattle.std.specs.BTreeSet.{insert_key};
ghost use Rattle.std.specs.Ordering.{nat_cmp};
ghost use Rattle.stream_base.specs.declared.entry.Entry.{Entry};
ghost use Rattle.stream_base.specs.declared.kept.Kept.{Kept};
ghost use Rattle.stream_base.specs.declared.kind.Kind.{Kind};
ghost use Rattle.stream_base.specs.declared.limits.TheConstants.{FINAL};
ghost use Rattle.stream_base.specs.Laws.{TimesDoNotFall};
ghost use Rattle.stream_base.specs.Limits.{AreWithinLimits, Definitions};
ghost use Rattle.stream_base.specs.Kinds.{IsKindWithin, is_events};
ghost use Rattle.stream_base.specs.Model.Changes.{changes_after};
ghost use Rattle.stream_base.specs.Model.Journal.{put_in_order};
ghost use Rattle.stream_base.specs.Model.Watermark.{water_of};
ghost use Rattle.stream_base.specs.Model.What.{is_late, mark_in, tuple_in};
ghost use Rattle.stream_base.specs.Model.Windows.{standing_of};

/// What stands of a window of any kind stays where a tuple or a mark comes strictly after the
/// watermark, and where a tuple comes at it unless the window counts events.
pub fn what_comes_after_the_watermark_leaves_what_stands()
    ensures tuple { (kind : Kind) (kept : List Kept) (marks : List ℕ) (water : ℕ) (x : Kept)
        → IsKindWithin kind → TimesDoNotFall kept → x.time < FINAL → water < x.time
        → standing_of kind (put_in_order kept x) marks water ≡ standing_of kind kept marks water }
    ensures at { (kind : Kind) (kept : List Kept) (marks : List ℕ) (water : ℕ) (x : Kept)
        → IsKindWithin kind → is_events kind ≡ false
        → TimesDoNotFall kept → x.time < FINAL → water ≤ x.time
        → standing_of kind (put_in_order kept x) marks water ≡ standing_of kind kept marks water }
    ensures mark { (kind : Kind) (kept : List Kept) (marks : List ℕ) (water time : ℕ)
        → time < FINAL → water < time → standing_of kind kept (insert_key nat_cmp marks time) water
        ≡ standing_of kind kept marks water }
{}

/// A tuple or a mark strictly after the watermark causes no change, whatever the windows.
pub fn what_comes_after_the_watermark_changes_nothing()
    ensures tuple { (d : Definitions) (sources : ℕ) (before : List Entry) (e : Entry) (key : List ℕ)
        (x : Kept) → AreWithinLimits d → tuple_in key (length before) e.what ≡ Some x
        → x.time < FINAL → water_of sources before < x.time
        → is_late d.lateness (water_of sources before) e.what ≡ false
        → changes_after d sources before e ≡ [] }
    ensures mark { (d : Definitions) (sources : ℕ) (before : List Entry) (e : Entry) (key : List ℕ)
        (time : ℕ) → AreWithinLimits d → mark_in key e.what ≡ Some time
        → time < FINAL → water_of sources before < time
        → is_late d.lateness (water_of sources before) e.what ≡ false
        → changes_after d sources before e ≡ [] }
{}
