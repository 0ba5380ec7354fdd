//! Runs over parts are a run of the whole.
ghost use Rattle.std.specs.Prelude.{◌≡◌, ◌↔◌, ℕ, List, [], ◌∷◌, map};
ghost use Rattle.stream_base.specs.Limits.{Definitions};
ghost use Rattle.stream_base.specs.Model.Routes.{IsLawful};
ghost use Rattle.stream_base.specs.Model.Text.{Form, report_of};
ghost use Rattle.stream_base.specs.declared.entry.Entry.{Entry};
ghost use Rattle.part_laws.specs.Joined.{AreOfParts, joined, part_definitions};

/// Journals are lawful for sources exactly where each is that of a run of one shard over the parts
/// of the sources for its number.
pub fn journals_of_parts_are_lawful()
    ensures { (shards : ℕ) (sources journals : List (List Entry))
        → AreOfParts shards sources journals ↔ IsLawful shards sources journals }
{}

/// The reports of runs of one shard each, under the definitions of parts, joined in their order, are
/// the report of all their journals.
pub fn joined_reports_are_the_report()
    ensures { (form : Form) (d : Definitions) (sources : ℕ) (journals : List (List Entry))
        → joined form
        (map (λ journal. report_of form (part_definitions d) sources (journal ∷ [])) journals)
        ≡ report_of form d sources journals }
{}
