//! How journals are told.
ghost use Rattle.std.specs.Prelude.{◌≡◌, ◌++◌, [], OnOk};
ghost use Rattle.stream_base.specs.Model.Text.{changes_under, journal_lines};
ghost use Rattle.report_check.specs.Readable.{IsReadable};
ghost use Rattle.report_lines.specs.Forms.{form_of};

use agg_laws::Steps;
use report_lines::ReportForm;
use std::alloc::Global;
use stream_base::{Defs, Entry, NoMemory};

/// What tells journals, in whatever way it finds the changes under their entries.
pub trait Teller {
    /// Puts the lines of a journal of so many sources behind a text, in a form: each entry's own, and
    /// those of its changes.
    fn put_journal<L>(
        &self,
        alloc: Global,
        form: ReportForm,
        defs: &Defs,
        sources: u16,
        journal: &[Entry],
        out: &mut Vec<u8>,
        steps: &mut Steps<L>,
    ) -> Result<(), NoMemory>
        requires { IsReadable journal.now }
        ensures { OnOk result (out.new.items ≡ out.old.items
            ++ journal_lines (changes_under (form_of form) defs.now sources) [] journal.now) };
}
