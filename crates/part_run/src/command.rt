//! The top call.
ghost use Rattle.std.specs.Prelude.{◌≡◌, ◌↔◌, ◌∷◌, [], ℕ, List, map, string_bytes};
ghost use Rattle.emission_text.specs.declared.fault.Fault.TheVariants.{Usage as UsageFault};
ghost use Rattle.run_inputs.specs.Outside.{OpensInOrder, opens_of};
ghost use Rattle.part_run.specs.Answer.{IsDefsAnswer, IsJoinAnswer, IsPartAnswer};
ghost use Rattle.part_run.specs.Faults.{SaysPart};
ghost use Rattle.part_run.specs.Words.{IsCommand, IsDefsOf, IsJoinOf, IsPartOf, Part};

use crate::defs::defs;
use crate::join::join;
use crate::part::part;
use crate::part_fault::PartFault;
use crate::printing::print_fault;
use crate::words::{defs_of, join_of, part_of};
use emission_text::Fault;
use outside::{Files, Sink};
use run_inputs::Status;
use std::alloc::Global;

/// Runs the command that the words say, over any files and any sink: writes the part of a source for
/// a shard, the definitions for such parts, or the report of all shards, of which each report that is
/// named holds one. In place of that stands the line of the first fault; nothing of the text is
/// written then, unless a write of it failed. Other words are answered with a fault of their own.
///
/// The files are opened in the order of the words, each once, and none behind one that is in trouble.
/// Each opened file is given back.
pub fn scotty_part<F: Files, K: Sink>(
    alloc: Global,
    words: &[String],
    files: &mut F,
    sink: &mut K,
) -> Status
    ensures part { (p : Part) → IsPartOf (map string_bytes words.now) p
        → IsPartAnswer K.taken K.faults p (opens_of F.asked F.came files.old files.new)
        sink.old sink.new result }
    ensures part_opens { (p : Part) → IsPartOf (map string_bytes words.now) p
        → OpensInOrder F.asked F.came F.told (p.defs ∷ p.sources) files.old files.new }
    ensures defs { (name : List ℕ) → IsDefsOf (map string_bytes words.now) name
        → IsDefsAnswer K.taken K.faults name (opens_of F.asked F.came files.old files.new)
        sink.old sink.new result }
    ensures defs_opens { (name : List ℕ) → IsDefsOf (map string_bytes words.now) name
        → OpensInOrder F.asked F.came F.told (name ∷ []) files.old files.new }
    ensures join { (names : List (List ℕ)) → IsJoinOf (map string_bytes words.now) names
        → IsJoinAnswer K.taken K.faults names (opens_of F.asked F.came files.old files.new)
        sink.old sink.new result }
    ensures join_opens { (names : List (List ℕ)) → IsJoinOf (map string_bytes words.now) names
        → OpensInOrder F.asked F.came F.told names files.old files.new }
    ensures usage { (result ≡ Status.Usage) ↔ ¬ (IsCommand (map string_bytes words.now)) }
    ensures usage_said { result ≡ Status.Usage
        → SaysPart K.taken K.faults (PartFault.Run UsageFault) sink.old sink.new }
    ensures unopened { ¬ (IsCommand (map string_bytes words.now)) → files.new ≡ files.old }
{
    match part_of(words) {
        Some(command) => part(alloc, &command, files, sink),
        None => match defs_of(words) {
            Some(name) => defs(alloc, name, files, sink),
            None => match join_of(words) {
                Some(names) => join(alloc, names, files, sink),
                None => print_fault(&PartFault::Run(Fault::Usage), sink),
            },
        },
    }
}
