//! Watermarks, each anew from a journal.
ghost use Rattle.std.specs.Prelude.{◌++◌, ◌∷◌, [], ℕ, List, max, ◌≡◌, ◌==◌, ◌&&◌};
ghost use Rattle.stream_base.specs.Model.Watermark.{all_ended, awake_waters, has_ended, is_awake, is_idle, last_progress, latest_water, least_or_zero, least_water, source_water, water_of};
ghost use Rattle.stream_base.specs.Model.What.{is_end, is_idle_word, is_progress, water_time};
ghost use Rattle.report_check.specs.Waters.{lesser};
ghost use Rattle.stream_base.specs.declared.entry.Entry.{Entry};

use stream_base::{Entry, FINAL, What};

// Whether a journal has the end of a source.
fn has_ended(source: u16, journal: &[Entry]) -> bool
    ensures { result ≡ has_ended source journal.now }
{
    journal
        .iter()
        .any(|entry| entry.source == source && entry.what == What::End)
}

// The greatest time of a source's watermarks.
fn latest_water(source: u16, journal: &[Entry]) -> u64
    ensures { result ≡ latest_water source journal.now }
{
    let mut latest = 0;
    for entry in journal {
        if entry.source == source {
            latest = latest.max(water_time(&entry.what));
        }
    }
    latest
}

fn water_time(what: &What) -> u64
    ensures { result ≡ water_time what.now }
{
    match what {
        What::Water { time } => *time,
        What::Tuple { .. } | What::Mark { .. } | What::Idle | What::End => 0,
    }
}

// The watermark of a source.
#[tactic(auto, unfolding(stream_base::specs::Model::Watermark::source_water))]
fn source_water(source: u16, journal: &[Entry]) -> u64
    ensures { result ≡ source_water source journal.now }
{
    if has_ended(source, journal) {
        FINAL
    } else {
        latest_water(source, journal)
    }
}

fn is_progress(what: &What) -> bool
    ensures { result ≡ is_progress what.now }
{
    match what {
        What::Tuple { .. } | What::Mark { .. } => false,
        What::Water { .. } | What::Idle | What::End => true,
    }
}

fn is_idle_word(what: &What) -> bool
    ensures { result ≡ is_idle_word what.now }
{
    match what {
        What::Idle => true,
        What::Tuple { .. } | What::Mark { .. } | What::Water { .. } | What::End => false,
    }
}

// The last word of a source on its progress.
fn last_progress(source: u16, journal: &[Entry]) -> Option<What>
    ensures { result ≡ last_progress source journal.now }
{
    let mut last = None;
    for entry in journal {
        if entry.source == source && is_progress(&entry.what) {
            last = Some(entry.what);
        }
    }
    last
}

// Whether a source is idle.
#[tactic(auto, unfolding(stream_base::specs::Model::Watermark::is_idle))]
fn is_idle(source: u16, journal: &[Entry]) -> bool
    ensures { result ≡ is_idle source journal.now }
{
    match last_progress(source, journal) {
        Some(what) => is_idle_word(&what),
        None => false,
    }
}

// Whether a source holds the watermark back.
fn is_awake(source: u16, journal: &[Entry]) -> bool
    ensures { result ≡ is_awake journal.now source }
{
    !has_ended(source, journal) && !is_idle(source, journal)
}

// Whether all sources have ended.
fn all_ended(sources: u16, journal: &[Entry]) -> bool
    ensures { result ≡ all_ended sources journal.now }
{
    for source in 0..sources {
        if !has_ended(source, journal) {
            return false;
        }
    }
    true
}

// The least watermark of the sources that are awake, or 0.
fn least_awake(sources: u16, journal: &[Entry]) -> u64
    ensures { result ≡ least_or_zero (awake_waters sources journal.now) }
{
    let mut least = None;
    for source in 0..sources {
        if is_awake(source, journal) {
            least = Some(lesser(least, source_water(source, journal)));
        }
    }
    least.unwrap_or(0)
}

fn lesser(least: Option<u64>, water: u64) -> u64
    ensures { result ≡ lesser least water }
{
    match least {
        Some(other) => other.min(water),
        None => water,
    }
}

// The same, and the final time where all have ended.
#[tactic(auto, unfolding(stream_base::specs::Model::Watermark::least_water))]
pub fn least_water(sources: u16, journal: &[Entry]) -> u64
    ensures { result ≡ least_water sources journal.now }
{
    if all_ended(sources, journal) {
        FINAL
    } else {
        least_awake(sources, journal)
    }
}

/// The watermark of a journal, by that of the entries before its last.
#[tactic(auto, using(model_laws::proofs::WatermarkFacts::water_of_push))]
pub fn water_behind(water: u64, sources: u16, journal: &[Entry]) -> u64
    ensures { (before : List Entry) (e : Entry) → journal.now ≡ before ++ e ∷ []
        → water ≡ water_of sources before → result ≡ water_of sources journal.now }
{
    water.max(least_water(sources, journal))
}
