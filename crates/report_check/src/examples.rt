//! Worked examples of what is found of a report.
ghost use Rattle.std.specs.Prelude.{◌≡◌, ◌++◌, ◌∷◌, [], codes, length, pos};
ghost use Rattle.stream_base.specs.Examples.{two_shards, window, with_lateness};
ghost use Rattle.stream_base.specs.Model.Journals.{journals_of};
ghost use Rattle.stream_base.specs.declared.func.Func.TheVariants.{Count, Mean, Sum};
ghost use Rattle.stream_base.specs.declared.kind.Kind.TheVariants.{Marks, Session};
ghost use Rattle.report_check.specs.Examples.{apart, back, front, reopened, sessions};
ghost use Rattle.report_check.specs.Findings.{report_in};

/// A text that is the report of its journals, in either form.
#[tactic(auto, unfolding(stream_base::specs::Model::Opened::all_opened, crate::specs::Findings::report_in))]
pub fn texts_that_are_reports()
    ensures brief { report_in sessions 1 (front ++ reopened ++ back) ≡ front ++ reopened ++ back }
    ensures in_full { report_in sessions 1 (codes "report 2\n" ++ front
        ++ codes "j 0 t 3 2 a\n- 0 0 5 1 1 a\n" ++ back)
        ≡ codes "report 2\n" ++ front ++ codes "j 0 t 3 2 a\n- 0 0 5 1 1 a\n" ++ back }
    ensures of_no_shard { report_in sessions 1 (codes "end\n") ≡ codes "end\n" }
{}

/// Texts that aren't: a wrong value, an entry told twice, an empty text, no last line, no last line
/// feed, a line more, and a journal line that isn't spelled by the letter.
#[tactic(auto, unfolding(stream_base::specs::Model::Opened::all_opened, crate::specs::Findings::report_in))]
pub fn texts_that_are_not()
    ensures value { apart (codes "shard 0\nj 0 t 0 1 a\nj 0 w 5\n+ 0 0 5 1 2 a\n"
        ++ reopened ++ back) ≡ 4 }
    ensures twice { apart (codes "shard 0\nj 0 t 0 1 a\nj 0 t 0 1 a\nj 0 w 5\n+ 0 0 5 1 1 a\n"
        ++ reopened ++ back) ≡ 5 }
    ensures empty { apart [] ≡ 1 }
    ensures no_last_line { apart (front ++ reopened
        ++ codes "j 0 w 8\n+ 0 0 8 2 3 a\nj 0 e\n") ≡ 10 }
    ensures no_line_feed { apart (front ++ reopened
        ++ codes "j 0 w 8\n+ 0 0 8 2 3 a\nj 0 e\nend") ≡ 10 }
    ensures one_more { apart (front ++ reopened ++ back ++ codes "end\n") ≡ 11 }
    ensures by_the_letter { apart (codes "shard 0\nj 0 t 00 1 a\nend\n") ≡ 2 }
    ensures form { apart (codes "report 2\n" ++ front ++ reopened ++ back) ≡ 7 }
{}

/// How many journals a report holds is told by its headers.
#[tactic(auto, unfolding(stream_base::specs::Model::Opened::all_opened))]
pub fn numbers_of_shards()
    ensures one { length (journals_of (front ++ reopened ++ back)) ≡ 1 }
    ensures none { length (journals_of (codes "end\n")) ≡ 0 }
{}
