//! The words of the command line, those after the program's name: which command they are.
ghost use Rattle.std.specs.Prelude.{◌≡◌, ◌≤◌, ◌↔◌, ◌⊎◌, ℕ, List, map, decimal, length, string_bytes, All, IsTrue, IfSome, IfNone};
ghost use Rattle.part_run.specs.Words.{IsDefs, IsDefsOf, IsJoin, IsJoinOf, IsPart, IsPartOf, Part};

use command_words::{are_names, is_name, number_within, says};
use std::marker::Model;

/// A part: the name of the definitions, how many shards there are, the number of one, and the name of
/// the source, alone in its list. There are 1 to 65,535 shards.
#[derive(Drop)]
pub struct PartWords<'a> {
    pub defs: &'a str,
    pub shards: u16,
    pub shard: u16,
    pub sources: &'a [String],
}

impl<'a> Model for PartWords<'a> {
    ghost use Rattle.std.specs.Prelude.{map, string_bytes};
    ghost use Rattle.part_run.specs.Words.{IsOneOf, Part, part_of};

    ghost Value = { Part };

    ghost view = { λ w. part_of w.defs.now w.shards w.shard (map string_bytes w.sources.now) };

    ghost invariant = { λ w.
        IsOneOf (part_of w.defs.now w.shards w.shard (map string_bytes w.sources.now)) };
}

/// The part of these words, if they are those of one: `part DEFS SHARDS SHARD SOURCE`, with 1 to
/// 65,535 shards, of which SHARD is one, from 0.
pub fn part_of(words: &[String]) -> Option<PartWords<'_>>
    ensures found { IfSome result (IsPartOf (map string_bytes words.now)) }
    ensures none { IfNone result (¬ (IsPart (map string_bytes words.now))) }
{
    match words {
        [part, defs, shards, shard, sources @ ..] => {
            let shards = number_within(shards.as_str(), 1, 65_535)?;
            let shard = number_within(shard.as_str(), 0, shards - 1)?;
            let named = is_name(defs.as_str()) && sources.len() == 1 && are_names(sources);
            if says(part.as_str(), "part") && named {
                Some(PartWords {
                    defs: defs.as_str(),
                    shards: shards as u16,
                    shard: shard as u16,
                    sources,
                })
            } else {
                None
            }
        }
        _ => None,
    }
}

/// The name of the definitions file, if these words ask for the definitions of parts: `defs DEFS`.
pub fn defs_of(words: &[String]) -> Option<&str>
    ensures found { IfSome result (λ name. IsDefsOf (map string_bytes words.now) name.now) }
    ensures none { IfNone result (¬ (IsDefs (map string_bytes words.now))) }
{
    match words {
        [word, name] => {
            if says(word.as_str(), "defs") && is_name(name.as_str()) {
                Some(name.as_str())
            } else {
                None
            }
        }
        _ => None,
    }
}

/// The names of the reports, if these words join some: `join SHARDS REPORT..`, with 1 to 65,535
/// reports, as many as SHARDS says.
pub fn join_of(words: &[String]) -> Option<&[String]>
    ensures found { IfSome result (λ reports.
        IsJoinOf (map string_bytes words.now) (map string_bytes reports.now)) }
    ensures none { IfNone result (¬ (IsJoin (map string_bytes words.now))) }
{
    match words {
        [join, shards, reports @ ..] => {
            let shards = number_within(shards.as_str(), 1, 65_535)?;
            let whole = reports.len() as u64 == shards && are_names(reports);
            if says(join.as_str(), "join") && whole {
                Some(reports)
            } else {
                None
            }
        }
        _ => None,
    }
}
