//! The intervals between marks: what becomes of them where a tuple or a mark comes.
ghost use Rattle.std.specs.Prelude.{◌≡◌, ◌<◌, List, ℕ};
ghost use Rattle.std.specs.BTreeSet.{insert_key};
ghost use Rattle.std.specs.Ordering.{nat_cmp};
ghost use Rattle.stream_base.specs.declared.def.Def.{Def};
ghost use Rattle.stream_base.specs.declared.kept.Kept.{Kept};
ghost use Rattle.stream_base.specs.declared.kind.Kind.TheVariants.{Marks};
ghost use Rattle.stream_base.specs.declared.limits.TheConstants.{FINAL};
ghost use Rattle.stream_base.specs.Laws.{TimesDoNotFall};
ghost use Rattle.stream_base.specs.Model.Changes.{Moment, emissions, retractions};
ghost use Rattle.stream_base.specs.Model.Journal.{put_in_order};
ghost use Rattle.stream_base.specs.Model.Windows.{stretches};
ghost use Rattle.window_laws.specs.After.{with_mark, with_tuple};
ghost use Rattle.window_laws.specs.Stretches.{AreChangesOfHolder, AreChangesOfParting, IsMarkedInStretches, IsPutInStretches};

/// A tuple changes only the interval between two marks that holds it.
pub fn tuple_enters_one_interval_between_marks()
    ensures { (marks : List ℕ) (kept : List Kept) (x : Kept) → x.time < FINAL
        → IsPutInStretches kept x (stretches marks kept) (stretches marks (put_in_order kept x)) }
{}

/// A mark parts the interval that holds it, and changes no other; at an edge that was known it
/// changes nothing.
pub fn mark_parts_one_interval_between_marks()
    ensures { (marks : List ℕ) (kept : List Kept) (time : ℕ) → time < FINAL
        → IsMarkedInStretches kept time (stretches marks kept)
        (stretches (insert_key nat_cmp marks time) kept) }
{}

/// A tuple retracts no interval between marks, and emits or updates the one that holds it, if that
/// is complete.
pub fn tuple_changes_the_interval_between_marks_that_holds_it()
    ensures { (window : ℕ) (key : List ℕ) (def : Def) (m : Moment) (x : Kept)
        → def.kind ≡ Marks → TimesDoNotFall m.kept → x.time < FINAL
        → AreChangesOfHolder window key def.func m x
        (retractions key m (with_tuple m x) (window, def))
        (emissions key m (with_tuple m x) (window, def)) }
{}

/// A mark inside an interval retracts it where it stood, and emits each of its parts that stands; a
/// mark at a known edge changes nothing. Neither updates.
pub fn mark_changes_the_interval_that_it_parts()
    ensures { (window : ℕ) (key : List ℕ) (def : Def) (m : Moment) (time : ℕ)
        → def.kind ≡ Marks → TimesDoNotFall m.kept → time < FINAL
        → AreChangesOfParting window key def.func m time
        (retractions key m (with_mark m time) (window, def))
        (emissions key m (with_mark m time) (window, def)) }
{}
