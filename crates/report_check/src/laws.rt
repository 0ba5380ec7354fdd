//! Laws of findings, each as the contract of a function that does nothing.
ghost use Rattle.std.specs.Prelude.{◌≡◌, ℕ, List, length};
ghost use Rattle.stream_base.specs.Limits.{Definitions};
ghost use Rattle.stream_base.specs.Model.Journals.{journals_of};
ghost use Rattle.stream_base.specs.Model.Routes.{IsLawful};
ghost use Rattle.stream_base.specs.Model.Text.{report_1, report_2, report_of};
ghost use Rattle.stream_base.specs.declared.entry.Entry.{Entry};
ghost use Rattle.report_check.specs.Findings.{IsFinding};
ghost use Rattle.report_check.specs.declared.finding.Finding.{Finding};
ghost use Rattle.report_check.specs.declared.finding.Finding.TheVariants.{Lawful};

/// A text has at most one finding, by definitions, a number of shards and the entries of the
/// sources.
#[tactic(auto, using(crate::proofs::Unique::one_finding))]
pub fn text_has_one_finding()
    ensures { (d : Definitions) (shards : ℕ) (sources : List (List Entry)) (text : List ℕ)
        (found other : Finding) → IsFinding d shards sources text found
        → IsFinding d shards sources text other → found ≡ other }
{}

/// The text of a run is found lawful: in either form, where it is the report of the journals that
/// stand in it, and these hold each source's entries.
pub fn report_of_a_run_is_found_lawful()
    ensures brief { (d : Definitions) (shards : ℕ) (sources : List (List Entry)) (text : List ℕ)
        → text ≡ report_of report_1 d (length sources) (journals_of text)
        → IsLawful shards sources (journals_of text) → IsFinding d shards sources text Lawful }
    ensures in_full { (d : Definitions) (shards : ℕ) (sources : List (List Entry)) (text : List ℕ)
        → text ≡ report_of report_2 d (length sources) (journals_of text)
        → IsLawful shards sources (journals_of text) → IsFinding d shards sources text Lawful }
{}
