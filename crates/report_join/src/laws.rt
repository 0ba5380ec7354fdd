//! What is accepted.
ghost use Rattle.std.specs.Prelude.{◌<◌, ◌∷◌, [], ℕ, Bool, List, length, slice_index_or};
ghost use Rattle.stream_base.specs.Limits.{Definitions};
ghost use Rattle.stream_base.specs.Model.Journals.{AreEntriesWithin};
ghost use Rattle.stream_base.specs.Model.Routes.{IsLawful};
ghost use Rattle.stream_base.specs.Model.Text.{report_of};
ghost use Rattle.stream_base.specs.declared.entry.Entry.{Entry};
ghost use Rattle.report_join.specs.ShardReports.{IsShardReport, form_told};

/// Of journals that are lawful for sources and so many shards, the report of each alone, under any
/// definitions and in either form, is accepted as that of its shard.
pub fn reports_of_lawful_journals_are_accepted()
    ensures { (second : Bool) (d : Definitions) (shards k : ℕ)
        (sources journals : List (List Entry))
        → IsLawful shards sources journals → k < shards
        → AreEntriesWithin (slice_index_or journals k [])
        → IsShardReport (form_told second) shards k
        (report_of (form_told second) d (length sources) (slice_index_or journals k [] ∷ [])) }
{}
