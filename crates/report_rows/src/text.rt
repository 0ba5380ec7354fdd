//! A text that is read, byte by byte.
ghost use Rattle.std.specs.Prelude.{◌≡◌, ◌++◌, ◌∷◌, [], IfOk, IfErr, OnOk, OnErr};
ghost use Rattle.row_laws.specs.Told.{read_text, tells};
ghost use Rattle.report_rows.specs.Faults.{IsRefused, IsRefusedSo};

use crate::shard::ShardRows;
use crate::text_fault::TextFault;
use crate::told::ToldText;
use outside::ByteLog;
use std::alloc::Global;
use std::marker::Model;

/// A reader of a report, of which contracts see the bytes that it was given. It keeps what they tell,
/// and the line that isn't whole yet.
#[derive(Drop)]
pub struct TextReader {
    alloc: Global,
    given: ByteLog,
    told: ToldText,
    pending: Vec<u8>,
    number: u64,
}

impl Model for TextReader {
    ghost use Rattle.std.specs.Prelude.{ℕ, List};
    ghost use Rattle.report_rows.specs.Reader.{IsReader};

    ghost Value = { List ℕ };

    ghost view = { λ r. (r.given).bytes };

    ghost invariant = { λ r. IsReader (r.given).bytes r.number r.told (r.pending).items };
}

impl TextReader {
    /// A reader that was given nothing.
    #[tactic(auto, using(crate::proofs::TextFacts::starts))]
    pub fn new(alloc: Global) -> TextReader
        ensures { result ≡ [] }
    {
        TextReader {
            alloc,
            given: ByteLog::new(),
            told: ToldText::new(alloc),
            pending: Vec::new(alloc),
            number: 1,
        }
    }

    /// Takes one byte more. Where it ends a line that may not stand there, the text is refused by that
    /// line, whatever stands behind it.
    #[tactic(auto, using(crate::proofs::TextFacts::one_byte))]
    pub fn push(&mut self, byte: u8) -> Result<(), TextFault>
        ensures taken { OnOk result (self.new ≡ self.old ++ byte ∷ []) }
        ensures refused { IfErr result (IsRefusedSo (self.old ++ byte ∷ [])) }
    {
        if byte == 10 {
            self.end_line()
        } else {
            if self.pending.reserve(1).is_err() {
                return Err(TextFault::NoMemory);
            }
            self.pending.push_reserved(byte);
            self.given.add(&[byte]);
            Ok(())
        }
    }

    /// Takes more bytes.
    #[tactic(auto, using(crate::proofs::TextFacts::refused_in))]
    pub fn take(&mut self, bytes: &[u8]) -> Result<(), TextFault>
        ensures taken { OnOk result (self.new ≡ self.old ++ bytes.now) }
        ensures refused { IfErr result (IsRefusedSo (self.old ++ bytes.now)) }
    {
        for byte in bytes {
            match self.push(*byte) {
                Ok(()) => {}
                Err(fault) => return Err(fault),
            }
        }
        Ok(())
    }

    /// What the text tells of its shards, or the line by which it is refused.
    #[tactic(auto, using(crate::proofs::TextFacts::told_whole, crate::proofs::TextFacts::cut_off, crate::proofs::TextFacts::lacking))]
    pub fn finish(self) -> Result<Vec<ShardRows>, TextFault>
        ensures told { IfOk result (λ shards. read_text self ≡ tells shards.items) }
        ensures refused { IfErr result (IsRefused self) }
    {
        let TextReader {
            alloc: _,
            given: _,
            told,
            pending,
            number,
        } = self;
        if pending.len() != 0 {
            return Err(TextFault::Line(number));
        }
        if !told.is_behind() {
            return Err(TextFault::Line(number));
        }
        Ok(told.into_shards())
    }

    // Takes the line that a line feed ends.
    #[tactic(auto, using(crate::proofs::TextFacts::one_line, crate::proofs::TextFacts::line_refused))]
    fn end_line(&mut self) -> Result<(), TextFault>
        ensures taken { OnOk result (self.new ≡ self.old ++ 10 ∷ []) }
        ensures refused { IfErr result (IsRefusedSo (self.old ++ 10 ∷ [])) }
    {
        if self.number == u64::MAX {
            return Err(TextFault::NoMemory);
        }
        match self.told.line(self.alloc, &self.pending) {
            Ok(true) => {
                self.pending.clear();
                self.number += 1;
                self.given.add(b"\n");
                Ok(())
            }
            Ok(false) => Err(TextFault::Line(self.number)),
            Err(_) => Err(TextFault::NoMemory),
        }
    }
}

/// What a whole text tells of its shards, or the line by which it is refused.
pub fn rows_of(alloc: Global, text: &[u8]) -> Result<Vec<ShardRows>, TextFault>
    ensures told { IfOk result (λ shards. read_text text.now ≡ tells shards.items) }
{
    let mut reader = TextReader::new(alloc);
    match reader.take(text) {
        Ok(()) => reader.finish(),
        Err(fault) => Err(fault),
    }
}
