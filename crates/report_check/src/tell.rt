//! The report of journals, told anew.
ghost use Rattle.std.specs.Prelude.{◌≡◌, ◌++◌, ◌∷◌, [], OnOk, codes, decimal};
ghost use Rattle.stream_base.specs.Model.Text.{changes_under, journal_lines, line_of, report_of, shard_lines};
ghost use Rattle.report_lines.specs.Forms.{form_of};

use crate::journal::Journal;
use crate::teller::Teller;
use agg_laws::Steps;
use report_lines::{Line, ReportForm, put_pieces};
use std::alloc::Global;
use stream_base::{Defs, NoMemory};

/// Puts the report of journals of so many sources behind a text, in a form. Each journal is told by
/// the teller.
#[tactic(auto, unfolding(stream_base::specs::Model::Text::report_of))]
pub fn put_report<T: Teller, L>(
    teller: &T,
    alloc: Global,
    form: ReportForm,
    defs: &Defs,
    sources: u16,
    journals: &[Journal],
    out: &mut Vec<u8>,
    steps: &mut Steps<L>,
) -> Result<(), NoMemory>
    ensures { OnOk result (out.new.items ≡ out.old.items
        ++ report_of (form_of form) defs.now sources journals.now) }
{
    put_front(form, out)?;
    put_shards(teller, alloc, form, defs, sources, journals, out, steps)?;
    put_pieces(&[b"end\n"], out)
}

// Puts the line in front of all shards, where the form has one.
fn put_front(form: ReportForm, out: &mut Vec<u8>) -> Result<(), NoMemory>
    ensures { OnOk result (out.new.items ≡ out.old.items ++ (form_of form).front) }
{
    put_pieces(&[form.front()], out)
}

// Puts the lines of shards: the header of each, and its journal.
fn put_shards<T: Teller, L>(
    teller: &T,
    alloc: Global,
    form: ReportForm,
    defs: &Defs,
    sources: u16,
    journals: &[Journal],
    out: &mut Vec<u8>,
    steps: &mut Steps<L>,
) -> Result<(), NoMemory>
    ensures { OnOk result (out.new.items ≡ out.old.items
        ++ shard_lines (changes_under (form_of form) defs.now sources) 0 journals.now) }
{
    for shard in 0..journals.len() {
        put_header(shard as u64, out)?;
        teller.put_journal(
            alloc,
            form,
            defs,
            sources,
            journals[shard].entries(),
            out,
            steps,
        )?;
    }
    Ok(())
}

// Puts the header of a shard.
fn put_header(shard: u64, out: &mut Vec<u8>) -> Result<(), NoMemory>
    ensures { OnOk result (out.new.items
        ≡ out.old.items ++ line_of (codes "shard" ∷ decimal shard ∷ [])) }
{
    let mut line = Line::new();
    line.tell_header(shard);
    put_pieces(&[line.text()], out)
}
