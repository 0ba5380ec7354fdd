//! Reports of one shard each, joined to a report of all.
ghost use Rattle.std.specs.Prelude.{◌≡◌, ◌≤◌, ◌<◌, ◌⊎◌, ◌++◌, [], None, map, length, string_bytes, slice_index_or, IfErr, OnOk, codes};
ghost use Rattle.report_lines.specs.Lines.{header_line};
ghost use Rattle.part_laws.specs.Joined.{body_of, joined, shards_from};
ghost use Rattle.report_check.specs.Findings.{lists_of};
ghost use Rattle.report_join.specs.ShardReports.{IsJudged, form_told};
ghost use Rattle.emission_text.specs.Sending.{Appends, Fails, Puts, Writes};
ghost use Rattle.run_inputs.specs.Outside.{OpensInOrder, opens_of};
ghost use Rattle.part_run.specs.Answer.{IsAnswer, IsJoinAnswer};
ghost use Rattle.part_run.specs.Joining.{AreShardReports, IsFormOf, IsJoinOf, IsWrongAt, StopsAtTexts, WrongAt, report_fault};

use crate::part_fault::PartFault;
use crate::printing::print_fault;
use crate::reports::read_reports;
use emission_text::{Fault, Pending, SinkFault, put_header, put_pieces};
use outside::{Files, Sink};
use report_join::{JoinWhy, body_of, is_second_form, judge_shard_report};
use run_inputs::Status;
use std::alloc::Global;

/// Writes the report of all shards, of which the files of these names hold one each, in the order of
/// the shards. All are read and judged before anything is written.
pub fn join<F: Files, K: Sink>(
    alloc: Global,
    names: &[String],
    files: &mut F,
    sink: &mut K,
) -> Status
    requires some { 1 ≤ length names.now }
    requires few { length names.now ≤ 65535 }
    ensures answer { IsJoinAnswer K.taken K.faults (map string_bytes names.now)
        (opens_of F.asked F.came files.old files.new) sink.old sink.new result }
    ensures files { OpensInOrder F.asked F.came F.told (map string_bytes names.now)
        files.old files.new }
{
    match read_reports(alloc, files, names) {
        Err(fault) => print_fault(&PartFault::Run(fault), sink),
        Ok(texts) => join_texts(alloc, &texts, sink),
    }
}

// The report of all of these.
fn join_texts<K: Sink>(alloc: Global, texts: &[Vec<u8>], sink: &mut K) -> Status
    requires some { 1 ≤ length texts.now }
    requires few { length texts.now ≤ 65535 }
    ensures { IsAnswer K.taken K.faults (IsJoinOf (lists_of texts.now))
        (StopsAtTexts (lists_of texts.now)) sink.old sink.new result }
{
    let second = tells_second_form(texts);
    match judge_all(alloc, second, texts) {
        Err(fault) => print_fault(&fault, sink),
        Ok(()) => print_joined(second, texts, sink),
    }
}

// Whether the form of all these is the second: that of the first of them.
fn tells_second_form(texts: &[Vec<u8>]) -> bool
    requires { 1 ≤ length texts.now }
    ensures { IsFormOf result (lists_of texts.now) }
{
    is_second_form(&texts[0])
}

// Whether each text is the report of the shard of its place: the first fault, where one isn't.
fn judge_all(alloc: Global, second: bool, texts: &[Vec<u8>]) -> Result<(), PartFault>
    requires { length texts.now ≤ 65535 }
    ensures ok { let all = lists_of texts.now in
        OnOk result (AreShardReports second (length all) all (length all)) }
    ensures wrong { IfErr result (WrongAt second (lists_of texts.now)) }
{
    for i in 0..texts.len() {
        judge_at(alloc, second, texts, i)?;
    }
    Ok(())
}

// Whether the text at a place is the report of the shard of that place.
fn judge_at(alloc: Global, second: bool, texts: &[Vec<u8>], i: usize) -> Result<(), PartFault>
    requires few { length texts.now ≤ 65535 }
    requires inside { i < length texts.now }
    ensures ok { let all = lists_of texts.now in
        OnOk result (IsJudged (form_told second) (length all) i (slice_index_or all i []) None) }
    ensures wrong { IfErr result (IsWrongAt second (lists_of texts.now) i) }
{
    match judge_shard_report(alloc, second, &texts[i], texts.len() as u16, i as u16) {
        Ok(None) => Ok(()),
        Ok(Some(why)) => Err(fault_of_report(i as u16, why)),
        Err(_) => Err(PartFault::Run(Fault::NoMemory)),
    }
}

fn fault_of_report(report: u16, why: JoinWhy) -> PartFault
    ensures { result ≡ report_fault report why }
{
    match why {
        JoinWhy::Shape => PartFault::NotReport { report },
        JoinWhy::Entry { number } => PartFault::Misplaced { report, number },
    }
}

// The report of all.
fn print_joined<K: Sink>(second: bool, texts: &[Vec<u8>], sink: &mut K) -> Status
    ensures either { (result ≡ Status.Done) ⊎ (result ≡ Status.WriteFault) }
    ensures done { result ≡ Status.Done → Appends K.taken K.faults
        (joined (form_told second) (lists_of texts.now)) sink.old sink.new }
    ensures failed { result ≡ Status.WriteFault → Fails K.taken K.faults
        (joined (form_told second) (lists_of texts.now)) sink.old sink.new }
{
    match write_joined(second, texts, sink) {
        Ok(()) => Status::Done,
        Err(_) => Status::WriteFault,
    }
}

fn write_joined<K: Sink>(second: bool, texts: &[Vec<u8>], sink: &mut K) -> Result<(), SinkFault>
    ensures { Writes K.taken K.faults (joined (form_told second) (lists_of texts.now))
        sink.old sink.new result }
{
    let mut out = Pending::new();
    put_joined(second, texts, &mut out, sink)?;
    out.flush(sink)
}

fn put_joined<K: Sink>(
    second: bool,
    texts: &[Vec<u8>],
    out: &mut Pending,
    sink: &mut K,
) -> Result<(), SinkFault>
    ensures { Puts K.taken K.faults (joined (form_told second) (lists_of texts.now))
        out.old out.new sink.old sink.new result }
{
    put_front(second, out, sink)?;
    put_rest(second, texts, out, sink)
}

// Puts the line that tells the form, where it has one.
fn put_front<K: Sink>(second: bool, out: &mut Pending, sink: &mut K) -> Result<(), SinkFault>
    ensures { Puts K.taken K.faults (form_told second).front
        out.old out.new sink.old sink.new result }
{
    if second {
        put_pieces(&[b"report 2\n"], out, sink)
    } else {
        Ok(())
    }
}

fn put_rest<K: Sink>(
    second: bool,
    texts: &[Vec<u8>],
    out: &mut Pending,
    sink: &mut K,
) -> Result<(), SinkFault>
    ensures { Puts K.taken K.faults
        (shards_from (form_told second) 0 (lists_of texts.now) ++ codes "end\n")
        out.old out.new sink.old sink.new result }
{
    put_shards(second, texts, out, sink)?;
    put_pieces(&[b"end\n"], out, sink)
}

fn put_shards<K: Sink>(
    second: bool,
    texts: &[Vec<u8>],
    out: &mut Pending,
    sink: &mut K,
) -> Result<(), SinkFault>
    ensures { Puts K.taken K.faults (shards_from (form_told second) 0 (lists_of texts.now))
        out.old out.new sink.old sink.new result }
{
    for k in 0..texts.len() {
        put_shard(k, body_of(second, &texts[k]), out, sink)?;
    }
    Ok(())
}

// Puts the header of the shard of this number, and its lines.
fn put_shard<K: Sink>(
    k: usize,
    lines: &[u8],
    out: &mut Pending,
    sink: &mut K,
) -> Result<(), SinkFault>
    ensures { Puts K.taken K.faults (header_line k ++ lines.now)
        out.old out.new sink.old sink.new result }
{
    put_header(k as u64, out, sink)?;
    out.add(lines, sink)
}
