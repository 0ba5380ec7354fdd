//! Laws of cuts, and of the pieces between them.
ghost use Rattle.std.specs.BTreeSet.{insert_key};
ghost use Rattle.std.specs.List.{flat_map};
ghost use Rattle.std.specs.Ordering.{nat_cmp};
ghost use Rattle.std.specs.Prelude.{◌≡◌, ◌≤◌, ◌↔◌, ◌⊎◌, ◌||◌, ◌&&◌, ◌++◌, ℕ, Bool, true, false, List, [], ◌∷◌, All, nat_lt, nat_le};
ghost use Rattle.stream_base.specs.Laws.{ArePiecesBetween};
ghost use Rattle.stream_base.specs.Kinds.{CutsBetween, IsKindWithin, cuts_between, is_session};
ghost use Rattle.stream_base.specs.Model.Cuts.{HasCut, has_cut};
ghost use Rattle.stream_base.specs.Model.Windows.{pieces_of};
ghost use Rattle.stream_base.specs.declared.def.Def.{Def};
ghost use Rattle.stream_base.specs.declared.kept.Kept.{Kept};
ghost use Rattle.stream_base.specs.declared.kind.Kind.{Kind};

/// There is a cut between two times exactly where the computed test says so: some start or end of a
/// window, or a mark, lies after the first and at or before the second, or they are a gap apart.
/// Starts and ends are counted by a division, and none is enumerated.
#[tactic(auto, using(stream_base::proofs::CutFacts::cut_decides, stream_base::proofs::KindFacts::decides))]
pub fn cuts_lie_at_starts_ends_gaps_and_marks()
    ensures cuts { (windows : List Def) (marks : List ℕ) (low high : ℕ)
        → All (λ w. IsKindWithin w.kind) windows
        → (has_cut windows marks low high ≡ true) ↔ HasCut windows marks low high }
    ensures of_a_window { (kind : Kind) (low high : ℕ) → IsKindWithin kind
        → (cuts_between kind low high ≡ true) ↔ CutsBetween kind low high }
{}

/// The pieces of a list put together are the list; there is no cut between neighbours of one piece,
/// and a cut between the last of a piece and the first of the next.
pub fn pieces_part_at_cuts()
    ensures together { (cut : Kept → Kept → Bool) (xs : List Kept)
        → flat_map (λ piece. piece) (pieces_of cut xs) ≡ xs }
    ensures inside { (cut : Kept → Kept → Bool) (xs : List Kept) (before : List (List Kept))
        (front : List Kept) (a b : Kept) (back : List Kept) (after : List (List Kept))
        → pieces_of cut xs ≡ before ++ (front ++ a ∷ b ∷ back) ∷ after → cut a b ≡ false }
    ensures between { (cut : Kept → Kept → Bool) (xs : List Kept) (before : List (List Kept))
        (front : List Kept) (a b : Kept) (back : List Kept) (after : List (List Kept))
        → pieces_of cut xs ≡ before ++ (front ++ a ∷ []) ∷ (b ∷ back) ∷ after → cut a b ≡ true }
{}

/// A cut stays where the times move apart, and there is none between equal times. Without sessions
/// a cut across a time lies before it or behind it.
pub fn cuts_stay_as_times_move_apart()
    ensures apart { (windows : List Def) (marks : List ℕ) (low high below above : ℕ)
        → All (λ w. IsKindWithin w.kind) windows
        → below ≤ low → high ≤ above → has_cut windows marks low high ≡ true
        → has_cut windows marks below above ≡ true }
    ensures one_time { (windows : List Def) (marks : List ℕ) (time : ℕ)
        → All (λ w. IsKindWithin w.kind) windows
        → has_cut windows marks time time ≡ false }
    ensures between { (windows : List Def) (marks : List ℕ) (low time high : ℕ)
        → All (λ w. is_session w.kind ≡ false) windows
        → HasCut windows marks low high
        → HasCut windows marks low time ⊎ HasCut windows marks time high }
{}

/// A new mark adds exactly the cuts across it.
#[tactic(auto, using(crate::proofs::CutLaws::has_cut_with_mark))]
pub fn new_mark_adds_the_cuts_across_it()
    ensures { (windows : List Def) (marks : List ℕ) (mark low high : ℕ)
        → has_cut windows (insert_key nat_cmp marks mark) low high
        ≡ (has_cut windows marks low high || (nat_lt low mark && nat_le mark high)) }
{}

/// The pieces of a list lie between its cuts, and no other pieces that make it do.
pub fn pieces_are_those_between_cuts()
    ensures between { (cut : Kept → Kept → Bool) (xs : List Kept)
        → ArePiecesBetween cut (pieces_of cut xs) }
    ensures no_others { (cut : Kept → Kept → Bool) (pieces : List (List Kept))
        → ArePiecesBetween cut pieces
        → pieces_of cut (flat_map (λ piece. piece) pieces) ≡ pieces }
{}
