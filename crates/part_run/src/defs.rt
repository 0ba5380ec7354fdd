//! The definitions of parts.
ghost use Rattle.std.specs.Prelude.{◌∷◌, [], IfOk, IfErr};
ghost use Rattle.run_inputs.specs.Outside.{OpensInOrder, opens_of};
ghost use Rattle.part_run.specs.Answer.{IsDefsAnswer};
ghost use Rattle.part_run.specs.Parting.{AreDefsOfFile, SpellsParts, StopsDefs, StopsSpelling};

use crate::part_fault::PartFault;
use crate::printing::{print_fault, print_text};
use emission_text::Fault;
use outside::{Files, Sink};
use part_text::{DefsTextFault, part_defs_bytes};
use run_inputs::{Status, read_definitions};
use std::alloc::Global;
use stream_base::Defs;

/// Writes the definitions for the parts of sources that are read under those in the file of this name.
pub fn defs<F: Files, K: Sink>(alloc: Global, name: &str, files: &mut F, sink: &mut K) -> Status
    ensures answer { IsDefsAnswer K.taken K.faults name.now
        (opens_of F.asked F.came files.old files.new) sink.old sink.new result }
    ensures files { OpensInOrder F.asked F.came F.told (name.now ∷ []) files.old files.new }
{
    match defs_text(alloc, name, files) {
        Ok(text) => print_text(&text, sink),
        Err(fault) => print_fault(&fault, sink),
    }
}

fn defs_text<F: Files>(alloc: Global, name: &str, files: &mut F) -> Result<Vec<u8>, PartFault>
    ensures files { OpensInOrder F.asked F.came F.told (name.now ∷ []) files.old files.new }
    ensures spelled { IfOk result (λ text. AreDefsOfFile
        (opens_of F.asked F.came files.old files.new) text.items) }
    ensures stopped { IfErr result (StopsDefs name.now
        (opens_of F.asked F.came files.old files.new)) }
{
    match read_definitions(alloc, files, name) {
        Err(fault) => Err(PartFault::Run(fault)),
        Ok(defs) => spell(alloc, &defs),
    }
}

fn spell(alloc: Global, defs: &Defs) -> Result<Vec<u8>, PartFault>
    ensures spelled { IfOk result (λ text. SpellsParts defs.now text.items) }
    ensures stopped { IfErr result (StopsSpelling defs.now) }
{
    match part_defs_bytes(alloc, defs) {
        Ok(text) => Ok(text),
        Err(DefsTextFault::Unread) => Err(PartFault::UnreadDefs),
        Err(DefsTextFault::NoMemory) => Err(PartFault::Run(Fault::NoMemory)),
    }
}
