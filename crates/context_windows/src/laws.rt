//! Slices part where instances start and end, so that a store whose slices are those of the windows
//! can be handed to each call; and the marks that are left are enough. Each law is the contract of a
//! function that does nothing.
ghost use Rattle.std.specs.Prelude.{◌≡◌, ◌≤◌, ℕ, List};
ghost use Rattle.stream_base.specs.declared.def.Def.{Def};
ghost use Rattle.slice_lists.specs.Runs.{IsAligned};
ghost use Rattle.slice_lists.specs.Touched.{marks_left};
ghost use Rattle.agg_store.specs.Stored.{Stored};
ghost use Rattle.window_spans.specs.Parted.{holder_of};
ghost use Rattle.window_spans.specs.Spans.{asked_of, due_of, told_at};
ghost use Rattle.context_windows.specs.Aligned.{IsOfWindows};
ghost use Rattle.context_windows.specs.Marked.{AreEnoughFrom, IsEdge};
ghost use Rattle.context_windows.specs.SessionCalls.{PartAt, PartWithTupleAt};

/// What `before`, `put` and `water` of sessions ask of the slices: of a store that holds some of the
/// key's tuples, with the new one among them in `put`.
pub fn slices_part_at_sessions()
    ensures asked { PartAt asked_of }
    ensures told { PartWithTupleAt told_at }
    ensures due { PartAt (λ gap old new spans. due_of old new spans) }
{}

/// What the calls of marks windows ask of the slices: that each start and end is an edge by the marks
/// of the store.
pub fn slices_part_at_edges()
    ensures { (windows : List Def) (store : Stored) (e : ℕ) → IsOfWindows windows store
        → IsEdge store.marks e → IsAligned store.slices e }
{}

/// The marks behind a time and the greatest up to it are enough from that time on, and marks that are
/// enough from a time on are at the sides of each later time as all are.
pub fn marks_that_are_left_are_enough()
    ensures enough { (time : ℕ) (marks : List ℕ)
        → AreEnoughFrom time (marks_left time marks) marks }
    ensures sides { (from time : ℕ) (some all : List ℕ) → AreEnoughFrom from some all
        → from ≤ time → holder_of some time ≡ holder_of all time }
{}
