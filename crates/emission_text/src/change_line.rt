//! The lines of changes.
ghost use Rattle.stream_base.specs.Model.Text.{change_lines};
ghost use Rattle.report_lines.specs.Forms.{form_of};
ghost use Rattle.emission_text.specs.Sending.{Puts};

use crate::pending::Pending;
use crate::sink_fault::SinkFault;
use compact_log::ChangeRange;
use outside::Sink;
use report_lines::{Line, ReportForm};
use stream_base::Change;

/// Puts the lines of changes, in their order and in a form.
pub fn put_changes<K: Sink>(
    form: ReportForm,
    changes: &ChangeRange<'_>,
    out: &mut Pending,
    sink: &mut K,
) -> Result<(), SinkFault>
    ensures { Puts K.taken K.faults (change_lines (form_of form) changes.now)
        out.old out.new sink.old sink.new result }
{
    for at in 0..changes.len() {
        put_change(form, &changes.get(at), out, sink)?;
    }
    Ok(())
}

/// Puts the line of a change, in a form.
pub fn put_change<K: Sink>(
    form: ReportForm,
    change: &Change,
    out: &mut Pending,
    sink: &mut K,
) -> Result<(), SinkFault>
    ensures { Puts K.taken K.faults ((form_of form).line change.now)
        out.old out.new sink.old sink.new result }
{
    let mut line = Line::new();
    line.tell_change(form, change);
    out.add(line.text(), sink)
}
