//! What is printed of a row.
use crate::trouble::Trouble;
use emission_text::{Pending, SinkFault, put_change, put_pieces, write_report};
use outside::Sink;
use report_lines::ReportForm;
use shard_core::Shard;
use stream_base::{Change, Row};

/// Prints the report of shards.
pub fn tell_shards<K: Sink>(shards: &[Shard], sink: &mut K) -> Result<(), Trouble> {
    Ok(write_report(shards, sink)?)
}

/// Prints rows that stand.
pub fn tell_rows<K: Sink>(rows: &[Row], sink: &mut K) -> Result<(), Trouble> {
    let mut out = Pending::new();
    put_rows(rows, &mut out, sink)?;
    Ok(out.flush(sink)?)
}

fn put_rows<K: Sink>(rows: &[Row], out: &mut Pending, sink: &mut K) -> Result<(), SinkFault> {
    put_pieces(&[b"standing\n"], out, sink)?;
    for row in rows {
        put_change(ReportForm::One, &Change::New(*row), out, sink)?;
    }
    Ok(())
}
