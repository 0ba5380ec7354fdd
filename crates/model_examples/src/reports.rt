//! The text of reports, and the journals that are read back.
ghost use Rattle.std.specs.Prelude.{◌≡◌, ◌++◌, [], ◌∷◌, codes, pos, negsuc, replicate};
ghost use Rattle.stream_base.specs.Examples.{with_lateness, window, tuple, mark, water, idle, end, from, a, row, mean_row, two_shards};
ghost use Rattle.stream_base.specs.Model.Journals.{journals_of};
ghost use Rattle.stream_base.specs.Model.Text.{report_1, report_2, change_lines, report_of};
ghost use Rattle.stream_base.specs.declared.change.Change.TheVariants.{New};
ghost use Rattle.stream_base.specs.declared.func.Func.TheVariants.{Count, Sum, Mean};
ghost use Rattle.stream_base.specs.declared.kind.Kind.TheVariants.{Session, Marks};
ghost use Rattle.stream_base.specs.declared.what.What.TheVariants.{End};

/// The whole text of a report.
#[tactic(auto, unfolding(stream_base::specs::Model::Opened::all_opened))]
pub fn report_of_a_session_that_reopens()
    ensures { report_of report_1 (with_lateness 5 (window (Session 5) Sum ∷ [])) 1
        ((tuple 0 (pos 1) a ∷ water 5 ∷ tuple 3 (pos 2) a ∷ water 8 ∷ end ∷ []) ∷ [])
        ≡ codes "shard 0\nj 0 t 0 1 a\nj 0 w 5\n+ 0 0 5 1 1 a\nj 0 t 3 2 a\n- 0 0 5 a\nj 0 w 8\n"
        ++ codes "+ 0 0 8 2 3 a\nj 0 e\nend\n" }
{}

/// The journals are read back from that text.
#[tactic(auto, unfolding(stream_base::specs::Model::Opened::all_opened))]
pub fn journals_of_a_report()
    ensures { journals_of
        (codes "shard 0\nj 0 t 0 1 a\nj 0 w 5\n+ 0 0 5 1 1 a\nj 0 t 3 2 a\n- 0 0 5 a\nj 0 w 8\n"
        ++ codes "+ 0 0 8 2 3 a\nj 0 e\nend\n")
        ≡ (tuple 0 (pos 1) a ∷ water 5 ∷ tuple 3 (pos 2) a ∷ water 8 ∷ end ∷ []) ∷ [] }
{}

/// A value that is shown has its sign, and the final time alone is told as a word.
#[tactic(auto, unfolding(stream_base::specs::Model::Opened::all_opened))]
pub fn signs_and_late_ends()
    ensures sign { change_lines report_1 (New (row 0 0 10 1 (negsuc 4) a) ∷ [])
        ≡ codes "+ 0 0 10 1 -5 a\n" }
    ensures sign_of_a_mean { change_lines report_1 (New (mean_row 0 0 10 2 (negsuc 4) a) ∷ [])
        ≡ codes "+ 0 0 10 2 -5/2 a\n" }
    ensures late_end { change_lines report_1
        (New (row 0 1000000000000000 2000000000000000 1 (pos 1) a) ∷ [])
        ≡ codes "+ 0 1000000000000000 2000000000000000 1 1 a\n" }
    ensures final_time { change_lines report_1
        (New (row 0 1000000000000000 4611686018427387904 1 (pos 1) a) ∷ [])
        ≡ codes "+ 0 1000000000000000 end 1 1 a\n" }
{}

/// Lines that are no journal line by the letter are passed over, and a last line needs no line
/// feed.
#[tactic(auto, unfolding(stream_base::specs::Model::Opened::all_opened))]
pub fn journals_of_a_loose_text()
    ensures { journals_of
        (codes "j 0 e\nshard 00\nshard 7\nj 0 t 03 1 a\nj 0 m 3 a b\nj 65536 e\nj 0 t 3 -1 a\n"
        ++ codes "j 2 e")
        ≡ (mark 3 (codes "a b") ∷ tuple 3 (negsuc 0) a ∷ record { source = 2; what = End } ∷ [])
        ∷ [] }
{}

/// A report of two shards with means, a retraction, a drop and an interval that ends at the final
/// time, in both forms, and the journals that are read back.
#[tactic(auto, unfolding(stream_base::specs::Model::Opened::all_opened))]
pub fn report_of_two_shards()
    ensures one { report_of report_1
        (with_lateness 2 (window (Session 5) Mean ∷ window Marks Count ∷ [])) 1 two_shards
        ≡ codes "shard 0\nj 0 t 0 1 b\nj 0 w 5\n+ 0 0 5 1 1/1 b\nj 0 t 3 2 b\n- 0 0 5 b\n"
        ++ codes "j 0 t 2 4 b\nx\nj 0 e\n+ 0 0 8 2 3/2 b\n+ 1 0 end 2 2 b\n"
        ++ codes "shard 1\nj 0 m 6 a\nj 0 w 5\nj 0 i\nj 0 e\nend\n" }
    ensures two { report_of report_2
        (with_lateness 2 (window (Session 5) Mean ∷ window Marks Count ∷ [])) 1 two_shards
        ≡ codes "report 2\nshard 0\nj 0 t 0 1 b\nj 0 w 5\n+ 0 0 5 1 1/1 b\nj 0 t 3 2 b\n"
        ++ codes "- 0 0 5 1 1/1 b\n"
        ++ codes "j 0 t 2 4 b\nx\nj 0 e\n+ 0 0 8 2 3/2 b\n+ 1 0 end 2 2 b\n"
        ++ codes "shard 1\nj 0 m 6 a\nj 0 w 5\nj 0 i\nj 0 e\nend\n" }
    ensures read_back { journals_of
        (codes "report 2\nshard 0\nj 0 t 0 1 b\nj 0 w 5\n+ 0 0 5 1 1/1 b\nj 0 t 3 2 b\n"
        ++ codes "- 0 0 5 1 1/1 b\n"
        ++ codes "j 0 t 2 4 b\nx\nj 0 e\n+ 0 0 8 2 3/2 b\n+ 1 0 end 2 2 b\n"
        ++ codes "shard 1\nj 0 m 6 a\nj 0 w 5\nj 0 i\nj 0 e\nend\n") ≡ two_shards }
{}

/// Headers and sources are read back up to their limits. An entry in front of the first header
/// belongs to no journal.
#[tactic(auto, unfolding(stream_base::specs::Model::Opened::all_opened))]
pub fn headers_and_sources_at_their_limits()
    ensures headers { journals_of
        (codes "shard 18446744073709551616\nj 0 e\nshard 18446744073709551615\nj 0 e\nshard 0\n")
        ≡ (end ∷ []) ∷ [] ∷ [] }
    ensures sources { journals_of (codes "shard 0\nj 65535 e\nj 65536 e\nj 00 e\n")
        ≡ (from 65535 End ∷ []) ∷ [] }
{}

/// Times and values are read back up to their limits, and a number only by the letter.
#[tactic(auto, unfolding(stream_base::specs::Model::Opened::all_opened))]
pub fn numbers_at_their_limits()
    ensures times { journals_of
        (codes "shard 0\nj 0 w 1000000000000000\nj 0 w 1000000000000001\nj 0 w 07\nj 0 w 7 \n"
        ++ codes "j 0 w 7")
        ≡ (water 1000000000000000 ∷ water 7 ∷ []) ∷ [] }
    ensures values { journals_of
        (codes "shard 0\nj 0 t 1 9223372036854775807 a\nj 0 t 1 9223372036854775808 a\n"
        ++ codes "j 0 t 1 -9223372036854775808 a\nj 0 t 1 -9223372036854775809 a\n")
        ≡ (tuple 1 (pos 9223372036854775807) a ∷ tuple 1 (negsuc 9223372036854775807) a ∷ []) ∷ [] }
    ensures signs { journals_of
        (codes "shard 0\nj 0 t 1 -0 a\nj 0 t 1 +1 a\nj 0 t 1 1  a\nj 0 t 1 -1 a\n")
        ≡ (tuple 1 (pos 1) (codes " a") ∷ tuple 1 (negsuc 0) a ∷ []) ∷ [] }
{}

/// A key of 64 bytes is read back, and one of 65 or none isn't; nor is one with a control
/// character.
#[tactic(auto, unfolding(stream_base::specs::Model::Opened::all_opened))]
pub fn keys_at_their_limits()
    ensures long { journals_of
        (codes "shard 0\nj 0 m 1 " ++ replicate 64 120 ++ codes "\nj 0 m 2 x" ++ replicate 64 120)
        ≡ (mark 1 (replicate 64 120) ∷ []) ∷ [] }
    ensures none { journals_of (codes "shard 0\nj 0 m 1 \nj 0 m 2\nj 0 m 3 \tx\nj 0 m 4 x\n")
        ≡ (mark 4 (codes "x") ∷ []) ∷ [] }
{}

/// A tuple is read back with a key of 1 to 64 bytes, of which none is a control character or 0x7F,
/// and with a time up to the limit; and so is a mark.
#[tactic(auto, unfolding(stream_base::specs::Model::Opened::all_opened))]
pub fn tuples_at_their_limits()
    ensures long { journals_of
        (codes "shard 0\nj 0 t 1 1 " ++ replicate 64 120 ++ codes "\nj 0 t 2 1 x"
        ++ replicate 64 120)
        ≡ (tuple 1 (pos 1) (replicate 64 120) ∷ []) ∷ [] }
    ensures none { journals_of
        (codes "shard 0\nj 0 t 1 1 \nj 0 t 2 1\nj 0 t 3 1 \tx\nj 0 t 4 1 x\n")
        ≡ (tuple 4 (pos 1) (codes "x") ∷ []) ∷ [] }
    ensures delete { journals_of (codes "shard 0\nj 0 t 1 1 x" ++ 127 ∷ codes "\nj 0 m 2 x"
        ++ 127 ∷ codes "\nj 0 t 3 1 x" ++ 128 ∷ [])
        ≡ (tuple 3 (pos 1) (codes "x" ++ 128 ∷ []) ∷ []) ∷ [] }
    ensures time { journals_of
        (codes "shard 0\nj 0 t 1000000000000000 1 a\nj 0 t 1000000000000001 1 a\n"
        ++ codes "j 0 m 1000000000000000 a\nj 0 m 1000000000000001 a\n")
        ≡ (tuple 1000000000000000 (pos 1) a ∷ mark 1000000000000000 a ∷ []) ∷ [] }
{}

/// The words of an entry's line are read by the letter, and so is the header's.
#[tactic(auto, unfolding(stream_base::specs::Model::Opened::all_opened))]
pub fn words_by_the_letter()
    ensures { journals_of
        (codes "shard 0\nj 0 i\nj 0 i \nj 0 e \nJ 0 e\nj  0 e\n j 0 e\nj 0 x\nshard 1 \nshard\n"
        ++ codes "j 0 e")
        ≡ (idle ∷ end ∷ []) ∷ [] }
{}
