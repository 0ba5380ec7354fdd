//! Definitions files that are accepted.
ghost use Rattle.std.specs.Prelude.{◌≡◌, ◌++◌, [], ◌∷◌, Ok, codes};
ghost use Rattle.stream_base.specs.Examples.{window, with_lateness};
ghost use Rattle.stream_base.specs.Limits.{definitions_of};
ghost use Rattle.stream_base.specs.declared.func.Func.TheVariants.{Count, Sum, Min, Max, Mean, First, Last, Rises, Trace};
ghost use Rattle.stream_base.specs.declared.kind.Kind.TheVariants.{Tumbling, Sliding, Session, Marks, Events};
ghost use Rattle.window_defs.specs.Reading.{reading_of};
ghost use Rattle.source_examples.specs.Spelled.{in_one_window};

/// The numbers at the top are each of their own key, and 0 where it is missing.
#[tactic(auto, unfolding(crate::proofs::Opened::definitions_opened))]
pub fn numbers_at_the_top()
    ensures given { reading_of (codes "lateness = 1\nevery = 2\ndisorder = 3\n"
        ++ codes "[[window]]\nkind = \"tumbling\"\nlength = 60\nfunc = \"sum\"\n")
        ≡ Ok (definitions_of (window (Tumbling 60) Sum ∷ []) 1 2 3) }
    ensures missing { reading_of (codes "[[window]]\nkind = \"marks\"\nfunc = \"sum\"\n")
        ≡ Ok (definitions_of (window Marks Sum ∷ []) 0 0 0) }
    ensures greatest { reading_of
        (codes "lateness = 1000000000000000\nevery = 1000000\ndisorder = 1_000_000_000_000_000\n"
        ++ codes "window = [{kind = 'marks', func = 'sum'}]\n")
        ≡ Ok (definitions_of (window Marks Sum ∷ []) 1000000000000000 1000000 1000000000000000) }
{}

/// A window of each kind, with its own integers, in the order in which they stand.
#[tactic(auto, unfolding(crate::proofs::Opened::definitions_opened))]
pub fn window_of_each_kind()
    ensures { reading_of
        (codes "[[window]]\nkind = \"tumbling\"\nlength = 60\nfunc = \"sum\"\n"
        ++ codes "[[window]]\nkind = \"sliding\"\nlength = 4\nslide = 2\nfunc = \"count\"\n"
        ++ codes "[[window]]\nkind = \"session\"\ngap = 5\nfunc = \"mean\"\n"
        ++ codes "[[window]]\nkind = \"marks\"\nfunc = \"first\"\n"
        ++ codes "[[window]]\nkind = \"events\"\ncount = 3\nfunc = \"last\"\n")
        ≡ Ok (with_lateness 0 (window (Tumbling 60) Sum ∷ window (Sliding 4 2) Count
        ∷ window (Session 5) Mean ∷ window Marks First ∷ window (Events 3) Last ∷ [])) }
{}

/// The functions by their words.
#[tactic(auto, unfolding(crate::proofs::Opened::definitions_opened))]
pub fn functions_by_their_words()
    ensures count { reading_of (in_one_window (codes "kind = 'marks', func = 'count'"))
        ≡ Ok (with_lateness 0 (window Marks Count ∷ [])) }
    ensures sum { reading_of (in_one_window (codes "kind = 'marks', func = 'sum'"))
        ≡ Ok (with_lateness 0 (window Marks Sum ∷ [])) }
    ensures min { reading_of (in_one_window (codes "kind = 'marks', func = 'min'"))
        ≡ Ok (with_lateness 0 (window Marks Min ∷ [])) }
    ensures max { reading_of (in_one_window (codes "kind = 'marks', func = 'max'"))
        ≡ Ok (with_lateness 0 (window Marks Max ∷ [])) }
    ensures mean { reading_of (in_one_window (codes "kind = 'marks', func = 'mean'"))
        ≡ Ok (with_lateness 0 (window Marks Mean ∷ [])) }
    ensures first { reading_of (in_one_window (codes "kind = 'marks', func = 'first'"))
        ≡ Ok (with_lateness 0 (window Marks First ∷ [])) }
    ensures last { reading_of (in_one_window (codes "kind = 'marks', func = 'last'"))
        ≡ Ok (with_lateness 0 (window Marks Last ∷ [])) }
    ensures rises { reading_of (in_one_window (codes "kind = 'marks', func = 'rises'"))
        ≡ Ok (with_lateness 0 (window Marks Rises ∷ [])) }
    ensures trace { reading_of (in_one_window (codes "kind = 'marks', func = 'trace'"))
        ≡ Ok (with_lateness 0 (window Marks Trace ∷ [])) }
{}

/// A window's integers may be at their limits.
#[tactic(auto, unfolding(crate::proofs::Opened::definitions_opened))]
pub fn windows_at_their_limits()
    ensures tumbling { reading_of
        (in_one_window (codes "kind = 'tumbling', length = 1000000000000000, func = 'sum'"))
        ≡ Ok (with_lateness 0 (window (Tumbling 1000000000000000) Sum ∷ [])) }
    ensures sliding { reading_of
        (in_one_window (codes "kind = 'sliding', length = 1000, slide = 1, func = 'sum'"))
        ≡ Ok (with_lateness 0 (window (Sliding 1000 1) Sum ∷ [])) }
    ensures session { reading_of (in_one_window (codes "kind = 'session', gap = 1, func = 'sum'"))
        ≡ Ok (with_lateness 0 (window (Session 1) Sum ∷ [])) }
    ensures events { reading_of
        (in_one_window (codes "kind = 'events', count = 4194304, func = 'sum'"))
        ≡ Ok (with_lateness 0 (window (Events 4194304) Sum ∷ [])) }
{}
