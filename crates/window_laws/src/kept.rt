//! What is kept of a key meets what the other laws ask of its tuples.
ghost use Rattle.std.specs.Prelude.{◌≡◌, ◌≢◌, ◌<◌, true, List, ℕ, All};
ghost use Rattle.stream_base.specs.declared.entry.Entry.{Entry};
ghost use Rattle.stream_base.specs.declared.kept.Kept.{Kept};
ghost use Rattle.stream_base.specs.declared.limits.TheConstants.{FINAL};
ghost use Rattle.stream_base.specs.Model.Journal.{kept_of, put_in_order};
ghost use Rattle.stream_base.specs.Model.What.{is_what_within};
ghost use Rattle.window_laws.specs.Positions.{AreKept};

/// What a journal of entries within their limits keeps of a key has times that don't fall and lie
/// before the final one, and distinct positions; and so has it with one tuple more of another
/// position.
pub fn kept_tuples_are_in_order_and_distinct()
    ensures of_a_journal { (lateness sources : ℕ) (key : List ℕ) (journal : List Entry)
        → All (λ e. is_what_within e.what ≡ true) journal
        → AreKept (kept_of lateness sources key journal) }
    ensures with_one_more { (kept : List Kept) (x : Kept) → AreKept kept → x.time < FINAL
        → All (λ y. x.position ≢ y.position) kept → AreKept (put_in_order kept x) }
{}
