//! A report, read piece by piece.
ghost use Rattle.std.specs.Prelude.{◌≡◌, ◌++◌, ◌∷◌, [], length, IfOk, IfErr};
ghost use Rattle.outside.specs.Whole.{all_read};
ghost use Rattle.row_laws.specs.Told.{read_text, tells};
ghost use Rattle.rows_run.specs.Answer.{IsRefusedAtEnd, IsToldBy, StopsAt, StopsReading, fault_of};

use crate::fault::RowsFault;
use outside::{Files, Source};
use report_rows::{ShardRows, TextFault, TextReader};
use std::alloc::Global;

// How many bytes one read of the report may give.
const PIECE: usize = 32_768;

/// What the report of this name tells of its shards. The file is given back.
pub fn read_report<F: Files>(
    alloc: Global,
    files: &mut F,
    name: &str,
) -> Result<Vec<ShardRows>, RowsFault>
    ensures asked { F.asked files.new ≡ F.asked files.old ++ name.now ∷ [] }
    ensures told { IfOk result (λ shards. IsToldBy (length (F.asked files.old))
        (F.came files.new (length (F.asked files.old))) shards.items) }
    ensures stopped { IfErr result (StopsAt (F.came files.new (length (F.asked files.old)))) }
{
    match files.open_file(name) {
        Err(_) => Err(RowsFault::Open),
        Ok(mut source) => {
            let told = read_rows(alloc, &mut source);
            files.give_back(source);
            told
        }
    }
}

// What a source that wasn't read yet tells.
#[tactic(auto, using(crate::proofs::Stops::by_line, crate::proofs::Stops::by_end, crate::proofs::Stops::some_failed))]
fn read_rows<S: Source>(alloc: Global, source: &mut S) -> Result<Vec<ShardRows>, RowsFault>
    requires fresh { (S.reads source.old).given ≡ [] }
    requires quiet { (S.reads source.old).faults ≡ 0 }
    ensures place { (S.reads source.new).place ≡ (S.reads source.old).place }
    ensures told { IfOk result (λ shards.
        read_text (S.reads source.new).given ≡ tells shards.items) }
    ensures whole { IfOk result (λ shards. S.reads source.new
        ≡ all_read (S.reads source.old).place (S.reads source.new).given) }
    ensures stopped { IfErr result (StopsReading (S.reads source.new)) }
{
    let mut reader = TextReader::new(alloc);
    let mut piece = [0; PIECE];
    'pieces: for _ in 0..u64::MAX {
        match source.read(&mut piece) {
            Err(_) => return Err(RowsFault::Read),
            Ok(0) => return finish(reader),
            Ok(given) => match reader.take(&piece[..given]) {
                Ok(()) => {}
                Err(fault) => return Err(fault_of(fault)),
            },
        }
    }
    Err(RowsFault::NoMemory)
}

#[tactic(auto, using(crate::proofs::Stops::at_end_of))]
fn finish(reader: TextReader) -> Result<Vec<ShardRows>, RowsFault>
    ensures told { IfOk result (λ shards. read_text reader ≡ tells shards.items) }
    ensures refused { IfErr result (IsRefusedAtEnd reader) }
{
    match reader.finish() {
        Ok(shards) => Ok(shards),
        Err(fault) => Err(fault_of(fault)),
    }
}

fn fault_of(fault: TextFault) -> RowsFault
    ensures { result ≡ fault_of fault }
{
    match fault {
        TextFault::Line(number) => RowsFault::Line(number),
        TextFault::NoMemory => RowsFault::NoMemory,
    }
}
