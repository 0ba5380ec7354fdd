//! A run of tails over files: sources are gathered into shards, and their journals are followed.
ghost use Rattle.std.specs.Prelude.{◌≡◌, ◌<◌, All, IfErr, IfOk, length, map};
ghost use Rattle.emission_text.specs.Sending.{Writes};
ghost use Rattle.tail_text.specs.Texts.{AreAsLong, in_vectors, tail_changes_in};
ghost use Rattle.command_words.specs.LastWords.{last_definitions};
ghost use Rattle.run_inputs.specs.Outside.{Ends};
ghost use Rattle.scotty_run.specs.Tailing.{AreOfSources, AreShardsOfLast, AreTailsOf, HasTails, IsTailedOf, StopsAtLast, tailed_text};

use crate::gathering::gather_sources;
use crate::tailed::Tailed;
use agg_laws::Steps;
use command_words::{LastWords, Way};
use emission_text::{Fault, SinkFault};
use outside::{Files, Gate, Sink};
use shard_core::Shard;
use std::alloc::Global;
use std::sync::Wait;
use std::thread::Threads;
use stream_base::{Def, Defs, Kind, NoMemory};
use tail_text::{tails_of, write_tails};
use tail_windows::TailChange;

// Keeps the counters of this run apart.
struct Work;

/// What the sources come to that the words name: the shards with all their entries, and the changes
/// of the tails. There is no file of definitions.
pub fn tail_files<F: Files, G: Gate, R: Threads + Wait + Sync>(
    alloc: Global,
    rt: &R,
    command: &LastWords,
    files: &mut F,
    gate: &G,
) -> Result<Tailed, Fault>
    ensures { Ends F.asked F.came F.told command.now.sources files.old files.new result
        (IsTailedOf command.now) (StopsAtLast command.now) }
{
    match last_shards(alloc, rt, command, files, gate) {
        Err(fault) => Err(fault),
        Ok(shards) => tail_shards(alloc, rt, command, shards),
    }
}

/// Their text is written.
pub fn write_tailed<K: Sink>(tailed: &Tailed, sink: &mut K) -> Result<(), SinkFault>
    requires { AreAsLong (map (λ s. s.journal) tailed.now.shards.items)
        (in_vectors tailed.now.tails.items) }
    ensures { Writes K.taken K.faults (tailed_text tailed.now) sink.old sink.new result }
{
    write_tails(&tailed.shards, &tailed.tails, sink)
}

// The shards with all entries of the sources.
fn last_shards<F: Files, G: Gate, R: Threads + Wait + Sync>(
    alloc: Global,
    rt: &R,
    command: &LastWords,
    files: &mut F,
    gate: &G,
) -> Result<Vec<Shard>, Fault>
    ensures { Ends F.asked F.came F.told command.now.sources files.old files.new result
        (λ opens shards. AreShardsOfLast command.now opens shards.items)
        (StopsAtLast command.now) }
{
    match last_definitions(alloc, command) {
        Err(NoMemory) => Err(Fault::NoMemory),
        Ok(defs) => {
            let (shards, sources) = (command.shards, command.sources);
            gather_sources(alloc, rt, Way::Turns, shards, sources, files, defs, gate)
        }
    }
}

// The definitions by which the sources are read, and shards take their entries.
fn last_definitions(alloc: Global, command: &LastWords) -> Result<Defs, NoMemory>
    ensures { IfOk result (λ defs. defs ≡ last_definitions command.now) }
{
    let tumbling = Def {
        kind: Kind::Tumbling {
            length: command.tail.period,
        },
        func: command.tail.func,
    };
    let windows = vec![in alloc; tumbling]?;
    Ok(Defs::new(windows, command.lateness, 0, 0).unwrap())
}

// The journals of all shards are followed.
fn tail_shards<R: Threads>(
    alloc: Global,
    rt: &R,
    command: &LastWords,
    shards: Vec<Shard>,
) -> Result<Tailed, Fault>
    requires { AreOfSources (length command.now.sources) shards.items }
    ensures tails { IfOk result (HasTails command.now shards.items) }
    ensures memory { IfErr result (λ fault. fault ≡ Fault.NoMemory) }
{
    let mut steps: Steps<Work> = Steps::start(rt);
    match tails_of_all(alloc, command, &shards, &mut steps) {
        Ok(tails) => Ok(Tailed { shards, tails }),
        Err(NoMemory) => Err(Fault::NoMemory),
    }
}

fn tails_of_all<L>(
    alloc: Global,
    command: &LastWords,
    shards: &[Shard],
    steps: &mut Steps<L>,
) -> Result<Vec<Vec<Vec<TailChange>>>, NoMemory>
    requires { AreOfSources (length command.now.sources) shards.now }
    ensures { IfOk result (λ tails. AreTailsOf command.now shards.now (in_vectors tails.items)) }
{
    let mut tails = Vec::new(alloc);
    for shard in shards {
        let own = tails_of_one(alloc, command, shard, steps)?;
        tails.push(own)?;
    }
    Ok(tails)
}

fn tails_of_one<L>(
    alloc: Global,
    command: &LastWords,
    shard: &Shard,
    steps: &mut Steps<L>,
) -> Result<Vec<Vec<TailChange>>, NoMemory>
    requires { All (λ e. e.source < length command.now.sources) shard.now.journal }
    ensures { IfOk result (λ tails. map (λ changes. changes.items) tails.items ≡ tail_changes_in
        command.now.tail command.now.lateness (length command.now.sources) shard.now.journal) }
{
    let sources = command.sources.len() as u16;
    tails_of(alloc, command.tail, sources, command.lateness, shard, steps)
}
