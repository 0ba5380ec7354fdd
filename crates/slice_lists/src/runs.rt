//! Slices: what becomes of them where a tuple or a mark comes.
ghost use Rattle.std.specs.Prelude.{◌≡◌, ◌<◌, ◌≤◌, ◌+◌, ◌++◌, ◌∷◌, ◌||◌, ◌&&◌, nat_le, nat_lt, [], true, false, List, ℕ, Bool};
ghost use Rattle.std.specs.BTreeSet.{insert_key};
ghost use Rattle.std.specs.List.{flat_map};
ghost use Rattle.std.specs.Ordering.{nat_cmp};
ghost use Rattle.stream_base.specs.declared.def.Def.{Def};
ghost use Rattle.stream_base.specs.declared.kept.Kept.{Kept};
ghost use Rattle.stream_base.specs.Laws.{TimesDoNotFall};
ghost use Rattle.stream_base.specs.Model.Cuts.{has_cut};
ghost use Rattle.stream_base.specs.Model.Journal.{put_in_order};
ghost use Rattle.stream_base.specs.Model.Slices.{runs_of};
ghost use Rattle.stream_base.specs.Model.Windows.{first_time, last_time};
ghost use Rattle.slice_lists.specs.Runs.{ArePartFrom, AreRuns, IsPartFrom, IsPutInRuns, parted_at};

/// One tuple more becomes a slice of its own, enters one slice, or joins two neighbours into one,
/// and leaves all other slices.
#[tactic(auto, using(crate::proofs::RunFacts::runs_after_put))]
pub fn tuple_enters_the_slices()
    ensures { (windows : List Def) (marks : List ℕ) (kept : List Kept) (x : Kept)
        → IsPutInRuns (runs_of windows marks kept) x (runs_of windows marks (put_in_order kept x)) }
{}

/// Slices without a cut inside and with a cut behind each are the slices of their tuples, and no
/// others are.
pub fn slices_are_told_by_their_neighbours()
    ensures alone { (windows : List Def) (marks : List ℕ) (slices : List (List Kept))
        → AreRuns (has_cut windows marks) slices
        → runs_of windows marks (flat_map (λ run. run) slices) ≡ slices }
    ensures are { (windows : List Def) (marks : List ℕ) (kept : List Kept)
        → AreRuns (has_cut windows marks) (runs_of windows marks kept) }
{}

/// What a tuple makes of slices, by the cuts at its sides.
pub fn cuts_at_the_sides_decide()
    ensures alone { (cut : ℕ → ℕ → Bool) (before behind : List (List Kept)) (x : Kept)
        → AreRuns cut (before ++ behind)
        → ArePartFrom (λ a b. cut a b ≡ true) before ((x ∷ []) ∷ [])
        → IsPartFrom (λ a b. cut a b ≡ true) (x ∷ []) behind
        → AreRuns cut (before ++ (x ∷ []) ∷ behind) }
    ensures fronted { (cut : ℕ → ℕ → Bool) (before : List (List Kept)) (q : List Kept)
        (behind : List (List Kept)) (x : Kept) → AreRuns cut (before ++ q ∷ behind)
        → ArePartFrom (λ a b. cut a b ≡ true) before ((x ∷ []) ∷ [])
        → cut x.time (first_time q) ≡ false → AreRuns cut (before ++ (x ∷ q) ∷ behind) }
    ensures extended { (cut : ℕ → ℕ → Bool) (before : List (List Kept)) (p : List Kept)
        (behind : List (List Kept)) (x : Kept) → AreRuns cut (before ++ p ∷ behind)
        → cut (last_time p) x.time ≡ false → IsPartFrom (λ a b. cut a b ≡ true) (x ∷ []) behind
        → AreRuns cut (before ++ (p ++ x ∷ []) ∷ behind) }
    ensures merged { (cut : ℕ → ℕ → Bool) (before : List (List Kept)) (p q : List Kept)
        (behind : List (List Kept)) (x : Kept) → AreRuns cut (before ++ p ∷ q ∷ behind)
        → cut (last_time p) x.time ≡ false → cut x.time (first_time q) ≡ false
        → AreRuns cut (before ++ (p ++ x ∷ q) ∷ behind) }
{}

/// A tuple whose time lies inside a slice enters it.
pub fn tuple_inside_a_slice_enters_it()
    ensures { (windows : List Def) (marks : List ℕ) (before : List (List Kept)) (p : List Kept)
        (behind : List (List Kept)) (x : Kept)
        → AreRuns (has_cut windows marks) (before ++ p ∷ behind)
        → first_time p ≤ x.time → x.time < last_time p
        → AreRuns (has_cut windows marks) (before ++ put_in_order p x ∷ behind) }
{}

/// A mark parts each slice that has tuples on both sides of it, and leaves all others.
pub fn mark_parts_the_slices()
    ensures { (windows : List Def) (marks : List ℕ) (kept : List Kept) (time : ℕ)
        → TimesDoNotFall kept
        → runs_of windows (insert_key nat_cmp marks time) kept
        ≡ flat_map (parted_at time) (runs_of windows marks kept) }
{}

/// A cut stays where its times move apart, and one mark more cuts exactly across itself.
pub fn cuts_stay_where_times_move_apart()
    ensures later { (windows : List Def) (marks : List ℕ) (a b c : ℕ) → a ≤ b → b ≤ c
        → has_cut windows marks a b ≡ true → has_cut windows marks a c ≡ true }
    ensures earlier { (windows : List Def) (marks : List ℕ) (a b c : ℕ) → a ≤ b → b ≤ c
        → has_cut windows marks b c ≡ true → has_cut windows marks a c ≡ true }
    ensures mark { (windows : List Def) (marks : List ℕ) (time a b : ℕ)
        → has_cut windows (insert_key nat_cmp marks time) a b
        ≡ (has_cut windows marks a b || (nat_lt a time && nat_le time b)) }
{}
