//! What a run is answered with, by what became of its sources.
ghost use Rattle.std.specs.Prelude.{◌≡◌, ◌≤◌, All, length, map, IfSome, IfNone};
ghost use Rattle.fan_in.specs.declared.outcome.Outcome.TheVariants.{Done};
ghost use Rattle.scotty_run.specs.Settling.{AreNoFaults, IsFirstFault, IsLeastFull, IsTrouble, least_with};

use emission_text::Fault;
use fan_in::{FeedEnd, Outcome};
use run_inputs::fault_of;

/// The fault of the first source that has one; where none has, that of the least full shard, if an
/// outcome names one.
pub fn trouble_of<F>(ends: &[FeedEnd<F>]) -> Option<Fault>
    requires few { length ends.now ≤ 16 }
    ensures some { IfSome result (IsTrouble (map (λ e. e.outcome) ends.now)) }
    ensures none { IfNone result (All (λ o. o ≡ Done) (map (λ e. e.outcome) ends.now)) }
{
    match first_fault(ends) {
        Some(fault) => Some(fault),
        None => match least_full(ends) {
            Some(shard) => Some(Fault::FullShard { shard }),
            None => None,
        },
    }
}

fn first_fault<F>(ends: &[FeedEnd<F>]) -> Option<Fault>
    requires few { length ends.now ≤ 16 }
    ensures some { IfSome result (IsFirstFault (map (λ e. e.outcome) ends.now)) }
    ensures none { IfNone result (AreNoFaults (map (λ e. e.outcome) ends.now)) }
{
    for i in 0..ends.len() {
        if let Outcome::Fault(fault) = ends[i].outcome {
            return Some(fault_of(i as u16, fault));
        }
    }
    None
}

fn least_full<F>(ends: &[FeedEnd<F>]) -> Option<u16>
    ensures { IsLeastFull (map (λ e. e.outcome) ends.now) result }
{
    let mut least = None;
    for i in 0..ends.len() {
        least = least_with(least, ends[i].outcome);
    }
    least
}

// The least full shard with one outcome more.
fn least_with(least: Option<u16>, outcome: Outcome) -> Option<u16>
    ensures { result ≡ least_with least outcome }
{
    match outcome {
        Outcome::Full { shard } => match least {
            Some(least) => Some(least.min(shard)),
            None => Some(shard),
        },
        Outcome::Done => least,
        Outcome::Fault(_) => least,
    }
}
