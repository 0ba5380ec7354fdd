//! The words of the command line, those after the program's name: which command they are.
ghost use Rattle.std.specs.Prelude.{◌≡◌, ◌≤◌, ◌↔◌, ◌⊎◌, ℕ, List, map, decimal, string_bytes, All, IsTrue, IfSome, IfNone};
ghost use Rattle.command_words.specs.LastWords.{IsLast, IsLastOf, LastRun};
ghost use Rattle.command_words.specs.Words.{AreSources, Check, IsCheck, IsCheckOf, IsMade, IsMadeOf, IsName, IsNumberWithin, IsRun, IsRunOf, IsRunWord, IsWatch, IsWatchOf, IsWay, Made, Run, Watch, run_word, way_word};

use crate::way::Way;
use itoa::Buffer;
use report_lines::ReportForm;
use std::marker::Model;

/// A run: the form of its report, the name of its definitions, how many shards there are, how feeds
/// hand on, and the names of its sources. There are 1 to 16 shards and sources.
#[derive(Drop)]
pub struct RunWords<'a> {
    pub form: ReportForm,
    pub defs: &'a str,
    pub shards: u16,
    pub way: Way,
    pub sources: &'a [String],
}

impl<'a> Model for RunWords<'a> {
    ghost use Rattle.std.specs.Prelude.{length, map, string_bytes};
    ghost use Rattle.command_words.specs.Words.{AreFew, Run, run_of};

    ghost Value = { Run };

    ghost view = { λ w. run_of w.form w.defs.now w.shards w.way (map string_bytes w.sources.now) };

    ghost invariant = { λ w. AreFew (length w.sources.now) w.shards };
}

/// A made run: its seed, how many tuples, sources and shards there are, and how feeds hand on. There
/// are 1 to 1,000,000 tuples, and 1 to 16 sources and shards.
#[derive(Debug, Drop)]
pub struct MadeWords {
    pub seed: u64,
    pub rows: u64,
    pub sources: u16,
    pub shards: u16,
    pub way: Way,
}

impl Model for MadeWords {
    ghost use Rattle.command_words.specs.Words.{IsWithinLimits, Made, made_of};

    ghost Value = { Made };

    ghost view = { λ w. made_of w.seed w.rows w.sources w.shards w.way };

    ghost invariant = { λ w. IsWithinLimits (made_of w.seed w.rows w.sources w.shards w.way) };
}

/// A check of a report: the name of the definitions, how many shards there are, the name of the
/// report, and the names of the sources. There are 1 to 16 shards and sources.
#[derive(Drop)]
pub struct CheckWords<'a> {
    pub defs: &'a str,
    pub shards: u16,
    pub report: &'a str,
    pub sources: &'a [String],
}

impl<'a> Model for CheckWords<'a> {
    ghost use Rattle.std.specs.Prelude.{length, map, string_bytes};
    ghost use Rattle.command_words.specs.Words.{AreFew, Check, check_of};

    ghost Value = { Check };

    ghost view = { λ w. check_of w.defs.now w.shards w.report.now (map string_bytes w.sources.now) };

    ghost invariant = { λ w. AreFew (length w.sources.now) w.shards };
}

/// A live board: the name of the definitions, how many readers there are, how often each reads before
/// its last read, and the names of the sources. There are 1 to 8 readers, 0 to 1,000 reads and 1 to 16
/// sources.
#[derive(Drop)]
pub struct WatchWords<'a> {
    pub defs: &'a str,
    pub readers: u16,
    pub reads: u32,
    pub sources: &'a [String],
}

impl<'a> Model for WatchWords<'a> {
    ghost use Rattle.std.specs.Prelude.{length, map, string_bytes};
    ghost use Rattle.command_words.specs.Words.{AreWatched, Watch, watch_of};

    ghost Value = { Watch };

    ghost view = { λ w. watch_of w.defs.now w.readers w.reads (map string_bytes w.sources.now) };

    ghost invariant = { λ w. AreWatched (length w.sources.now) w.readers w.reads };
}

/// The run of these words, if they are those of one: `run DEFS SHARDS FEED SOURCE..`, or the same
/// with `run2`, with 1 to 16 shards and sources.
pub fn run_of(words: &[String]) -> Option<RunWords<'_>>
    ensures found { IfSome result (IsRunOf (map string_bytes words.now)) }
    ensures none { IfNone result (¬ (IsRun (map string_bytes words.now))) }
{
    match words {
        [run, defs, shards, way, sources @ ..] => {
            let form = run_form(run.as_str())?;
            let shards = number_within(shards.as_str(), 1, 16)?;
            let way = way_of(way.as_str())?;
            if is_name(defs.as_str()) && are_sources(sources) {
                Some(RunWords {
                    form,
                    defs: defs.as_str(),
                    shards: shards as u16,
                    way,
                    sources,
                })
            } else {
                None
            }
        }
        _ => None,
    }
}

/// The made run of these words, if they are those of one: `made SEED ROWS SOURCES SHARDS FEED`, with
/// 1 to 1,000,000 tuples and 1 to 16 sources and shards.
pub fn made_of(words: &[String]) -> Option<MadeWords>
    ensures found { IfSome result (IsMadeOf (map string_bytes words.now)) }
    ensures none { IfNone result (¬ (IsMade (map string_bytes words.now))) }
{
    match words {
        [made, seed, rows, sources, shards, way] => {
            let seed = number_within(seed.as_str(), 0, u64::MAX)?;
            let rows = number_within(rows.as_str(), 1, 1_000_000)?;
            let sources = number_within(sources.as_str(), 1, 16)?;
            let shards = number_within(shards.as_str(), 1, 16)?;
            let way = way_of(way.as_str())?;
            if says(made.as_str(), "made") {
                Some(MadeWords {
                    seed,
                    rows,
                    sources: sources as u16,
                    shards: shards as u16,
                    way,
                })
            } else {
                None
            }
        }
        _ => None,
    }
}

/// The check of these words, if they are those of one: `check DEFS SHARDS REPORT SOURCE..`, with 1 to
/// 16 shards and sources.
pub fn check_of(words: &[String]) -> Option<CheckWords<'_>>
    ensures found { IfSome result (IsCheckOf (map string_bytes words.now)) }
    ensures none { IfNone result (¬ (IsCheck (map string_bytes words.now))) }
{
    match words {
        [check, defs, shards, report, sources @ ..] => {
            let shards = number_within(shards.as_str(), 1, 16)?;
            let named = is_name(defs.as_str()) && is_name(report.as_str());
            if says(check.as_str(), "check") && named && are_sources(sources) {
                Some(CheckWords {
                    defs: defs.as_str(),
                    shards: shards as u16,
                    report: report.as_str(),
                    sources,
                })
            } else {
                None
            }
        }
        _ => None,
    }
}

/// The live board of these words, if they are those of one: `watch DEFS READERS READS SOURCE..`, with 1
/// to 8 readers, 0 to 1,000 reads and 1 to 16 sources.
pub fn watch_of(words: &[String]) -> Option<WatchWords<'_>>
    ensures found { IfSome result (IsWatchOf (map string_bytes words.now)) }
    ensures none { IfNone result (¬ (IsWatch (map string_bytes words.now))) }
{
    match words {
        [watch, defs, readers, reads, sources @ ..] => {
            let readers = number_within(readers.as_str(), 1, 8)?;
            let reads = number_within(reads.as_str(), 0, 1_000)?;
            let named = is_name(defs.as_str()) && are_sources(sources);
            if says(watch.as_str(), "watch") && named {
                Some(WatchWords {
                    defs: defs.as_str(),
                    readers: readers as u16,
                    reads: reads as u32,
                    sources,
                })
            } else {
                None
            }
        }
        _ => None,
    }
}

/// Words are those of one command at most.
pub fn commands_are_told_apart_by_their_words()
    ensures one_run { (words : List (List ℕ)) (run other : Run) → IsRunOf words run
        → IsRunOf words other → run ≡ other }
    ensures one_made { (words : List (List ℕ)) (m other : Made) → IsMadeOf words m
        → IsMadeOf words other → m ≡ other }
    ensures one_check { (words : List (List ℕ)) (c other : Check) → IsCheckOf words c
        → IsCheckOf words other → c ≡ other }
    ensures one_watch { (words : List (List ℕ)) (w other : Watch) → IsWatchOf words w
        → IsWatchOf words other → w ≡ other }
    ensures apart { (words : List (List ℕ)) → IsRun words → ¬ (IsMade words) }
    ensures apart_from_checks { (words : List (List ℕ)) → IsCheck words
        → ¬ (IsRun words ⊎ IsMade words) }
    ensures apart_from_watches { (words : List (List ℕ)) → IsWatch words
        → ¬ (IsRun words ⊎ IsMade words ⊎ IsCheck words) }
    ensures one_last { (words : List (List ℕ)) (l other : LastRun) → IsLastOf words l
        → IsLastOf words other → l ≡ other }
    ensures apart_from_tails { (words : List (List ℕ)) → IsLast words
        → ¬ (IsRun words ⊎ IsMade words ⊎ IsCheck words ⊎ IsWatch words) }
{}

// The form that the first word of a run tells.
fn run_form(word: &str) -> Option<ReportForm>
    ensures some { IfSome result (λ form. word.now ≡ run_word form) }
    ensures none { IfNone result (¬ (IsRunWord word.now)) }
{
    if says(word, "run") {
        return Some(ReportForm::One);
    }
    if says(word, "run2") {
        return Some(ReportForm::Two);
    }
    None
}

/// 1 to 16 names.
pub fn are_sources(words: &[String]) -> bool
    ensures { IsTrue result ↔ AreSources (map string_bytes words.now) }
{
    !words.is_empty() && words.len() <= 16 && are_names(words)
}

/// Whether all words are names.
pub fn are_names(words: &[String]) -> bool
    ensures { IsTrue result ↔ All IsName (map string_bytes words.now) }
{
    words.iter().all(|word| is_name(word.as_str()))
}

/// Whether the word is this text.
pub fn says(word: &str, text: &str) -> bool
    ensures { IsTrue result ↔ (word.now ≡ text.now) }
{
    word == text
}

/// Any nonempty word, also one that begins with `-`, is a name.
pub fn is_name(word: &str) -> bool
    ensures { IsTrue result ↔ IsName word.now }
{
    !word.is_empty()
}

// How feeds hand on, as the word tells.
fn way_of(word: &str) -> Option<Way>
    ensures some { IfSome result (λ way. word.now ≡ way_word way) }
    ensures none { IfNone result (¬ (IsWay word.now)) }
{
    if says(word, "turns") {
        return Some(Way::Turns);
    }
    if says(word, "mail") {
        return Some(Way::Mail);
    }
    None
}

/// The number within these bounds that the word spells: decimal, with no sign and no leading zero.
pub fn number_within(word: &str, least: u64, most: u64) -> Option<u64>
    ensures spelled { IfSome result (λ n. word.now ≡ decimal n) }
    ensures within { IfSome result (λ n. (least ≤ n) × (n ≤ most)) }
    ensures none { IfNone result (¬ (IsNumberWithin least most word.now)) }
{
    match word.parse::<u64>() {
        Ok(number) => {
            if is_spelled(word, number) && least <= number && number <= most {
                Some(number)
            } else {
                None
            }
        }
        Err(_) => None,
    }
}

// Whether the word is what a display writes of the number.
fn is_spelled(word: &str, number: u64) -> bool
    ensures { IsTrue result ↔ (word.now ≡ decimal number) }
{
    word == Buffer::new().format(number)
}
