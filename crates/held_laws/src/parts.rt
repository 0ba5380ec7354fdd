//! What the parts of a key for sessions and for intervals between marks ask of a store that holds
//! the key.
ghost use Rattle.std.specs.Prelude.{◌≡◌, ◌<◌, ◌^◌, ℕ, drop, length};
ghost use Rattle.std.specs.List.{Contains};
ghost use Rattle.stream_base.specs.declared.def.Def.{Def};
ghost use Rattle.stream_base.specs.declared.kind.Kind.TheVariants.{Session};
ghost use Rattle.stream_base.specs.Limits.{Definitions};
ghost use Rattle.stream_base.specs.Model.Changes.{Moment};
ghost use Rattle.slice_lists.specs.Runs.{IsAligned};
ghost use Rattle.agg_store.specs.Stored.{IsStore, Stored, tuples_of};
ghost use Rattle.context_windows.specs.Aligned.{IsOfSessions, IsOfWindows};
ghost use Rattle.context_windows.specs.Spanned.{HoldsSessions, IsSession};
ghost use Rattle.context_windows.specs.Marked.{HoldsStretches, IsEdge};
ghost use Rattle.key_parts.specs.Held.{IsHeld};
ghost use Rattle.key_parts.specs.Moves.{AreLists};

/// The store holds what each session and each interval between marks selects of what is left of the
/// key, and its tuples can be counted.
pub fn store_holds_what_instances_select()
    ensures sessions { (d : Definitions) (m : Moment) (n next : ℕ) (s : Stored) (w : Def)
        (gap time : ℕ) → IsHeld d m n s → AreLists m next
        → Contains d.windows w → w.kind ≡ Session gap
        → HoldsSessions gap time (drop n m.kept) s }
    ensures stretches { (d : Definitions) (m : Moment) (n next : ℕ) (s : Stored) (time : ℕ)
        → IsHeld d m n s → AreLists m next
        → HoldsStretches time m.marks (drop n m.kept) s }
    ensures few { (d : Definitions) (m : Moment) (n next : ℕ) (s : Stored)
        → IsHeld d m n s → AreLists m next → length (tuples_of s) < 2 ^ 64 }
{}

/// The slices are those of the windows and of what is left of the key.
pub fn slices_are_those_of_what_is_left()
    ensures windows { (d : Definitions) (m : Moment) (n : ℕ) (s : Stored) → IsHeld d m n s
        → IsOfWindows d.windows s }
    ensures sessions { (d : Definitions) (m : Moment) (n : ℕ) (s : Stored) (w : Def)
        → IsHeld d m n s → Contains d.windows w → IsSession w.kind
        → IsOfSessions d.windows w (drop n m.kept) s }
{}

/// No slice has tuples on both sides of an edge by the marks of the key, though the store lacks the
/// marks before what was dropped.
pub fn slices_part_at_edges_of_the_key()
    ensures { (d : Definitions) (m : Moment) (n : ℕ) (s : Stored) (e : ℕ)
        → IsHeld d m n s → IsStore s → IsEdge m.marks e → IsAligned s.slices e }
{}
