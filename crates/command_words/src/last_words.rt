//! The words of a run of tails.
ghost use Rattle.std.specs.Prelude.{IfSome, IfNone, map, string_bytes};
ghost use Rattle.command_words.specs.LastWords.{IsLast, IsLastOf, IsTail, IsTailOf, LastRun};

use crate::words::{are_sources, number_within, says};
use std::marker::Model;
use stream_base::TIME_MAX;
use tail_windows::TailDef;
use window_defs::func_named;

/// A run of tails: how many tuples are selected at each multiple of which period, what is shown of
/// them, the allowed lateness, how many shards there are, and the names of the sources. Their numbers
/// are within their limits, and there are 1 to 16 shards and sources.
#[derive(Drop)]
pub struct LastWords<'a> {
    pub tail: TailDef,
    pub lateness: u64,
    pub shards: u16,
    pub sources: &'a [String],
}

impl<'a> Model for LastWords<'a> {
    ghost use Rattle.std.specs.Prelude.{map, string_bytes};
    ghost use Rattle.command_words.specs.LastWords.{IsLastWithin, LastRun, last_of};

    ghost Value = { LastRun };

    ghost view = { λ w. last_of w.tail w.lateness w.shards (map string_bytes w.sources.now) };

    ghost invariant = { λ w. IsLastWithin
        (last_of w.tail w.lateness w.shards (map string_bytes w.sources.now)) };
}

/// The run of tails of these words, if they are those of one: `last N PERIOD FUNC LATENESS SHARDS
/// SOURCE..`, with 1 to 4,194,304 tuples, a period of 1 to 10^15, a lateness of 0 to 10^15, and 1 to
/// 16 shards and sources.
pub fn last_of(words: &[String]) -> Option<LastWords<'_>>
    ensures found { IfSome result (IsLastOf (map string_bytes words.now)) }
    ensures none { IfNone result (¬ (IsLast (map string_bytes words.now))) }
{
    match words {
        [last, count, period, func, lateness, shards, sources @ ..] => {
            let tail = tail_of(count.as_str(), period.as_str(), func.as_str())?;
            let lateness = number_within(lateness.as_str(), 0, TIME_MAX)?;
            let shards = number_within(shards.as_str(), 1, 16)?;
            if says(last.as_str(), "last") && are_sources(sources) {
                Some(LastWords {
                    tail,
                    lateness,
                    shards: shards as u16,
                    sources,
                })
            } else {
                None
            }
        }
        _ => None,
    }
}

// The window of the last tuples that three words tell.
fn tail_of(count: &str, period: &str, func: &str) -> Option<TailDef>
    ensures found { IfSome result (IsTailOf count.now period.now func.now) }
    ensures none { IfNone result (¬ (IsTail count.now period.now func.now)) }
{
    let count = number_within(count, 1, 4_194_304)?;
    let period = number_within(period, 1, TIME_MAX)?;
    let func = func_named(func)?;
    Some(TailDef {
        count,
        period,
        func,
    })
}
