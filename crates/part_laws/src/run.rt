//! Runs over the parts of sources, from their bytes to the joined report.
ghost use Rattle.std.specs.Prelude.{◌≡◌, ℕ, List, length};
ghost use Rattle.stream_base.specs.Limits.{Definitions};
ghost use Rattle.stream_base.specs.Model.Routes.{IsLawful};
ghost use Rattle.stream_base.specs.Model.Text.{Form, report_of};
ghost use Rattle.stream_base.specs.declared.entry.Entry.{Entry};
ghost use Rattle.part_laws.specs.Joined.{joined};
ghost use Rattle.part_laws.specs.Runs.{AreAcceptedFrom, AreRunsOverParts, entries_of_all, reports_over_parts};

/// Sources of these bytes, none of which is refused, are parted for each shard, and the parts are read
/// and run as sources of their own. The journals of these runs are then lawful for the sources as they
/// came, and the joined reports are the report of them, in either form.
pub fn runs_over_parts_are_a_run_of_the_whole()
    ensures lawful { (d : Definitions) (shards : ℕ) (files : List (List ℕ))
        (journals : List (List Entry)) → AreAcceptedFrom d 0 files
        → AreRunsOverParts d shards files journals
        → IsLawful shards (entries_of_all d files) journals }
    ensures report { (form : Form) (d : Definitions) (files : List (List ℕ))
        (journals : List (List Entry))
        → joined form (reports_over_parts form d (length files) journals)
        ≡ report_of form d (length files) journals }
{}
