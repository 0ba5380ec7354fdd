ghost use Rattle.std.specs.Prelude.{◌≡◌, ◌≤◌, ◌<◌, ◌+◌, ◌↔◌, ◌⊎◌, ◌++◌, ◌∷◌, [], List, ℕ, true, IfOk, All, max, length, slice_set};
ghost use Rattle.stream_base.specs.declared.entry.Entry.{Entry};
ghost use Rattle.stream_base.specs.declared.limits.TheConstants.{FINAL, TIME_MAX};
ghost use Rattle.stream_base.specs.Model.Journals.{is_entry_within};
ghost use Rattle.stream_base.specs.Model.Watermark.{has_ended, water_of};
ghost use Rattle.stream_base.specs.Model.What.{key_in};
ghost use Rattle.watermark_table.specs.Standings.{raised};
ghost use Rattle.watermark_table.specs.Tallies.{least_of, no_source, tallied};
ghost use Rattle.watermark_table.specs.Watched.{CanTake, HasTaken, IsWaterBehind, StandsFor, Watched, end_entry, idle_entry, sources_of, water_entry};
ghost use Rattle.watermark_table.specs.declared.verdict.Verdict.TheVariants.{Late};

use crate::standing::Standing;
use crate::tally::Tally;
use crate::verdict::Verdict;
use std::alloc::Global;
use std::marker::Model;
use stream_base::{FINAL, NoMemory};

/// Where each source of a shard stands, the greatest watermark so far, and the allowed lateness.
/// Contracts say for which journals it stands.
///
/// The watermark is the greatest so far of the least over the sources that have neither ended nor
/// are idle: 0 where nobody is awake, and final only where all have ended.
#[derive(Drop)]
pub struct Waters {
    lateness: u64,
    standings: Vec<Standing>,
    water: u64,
}

impl Model for Waters {
    ghost use Rattle.watermark_table.specs.Watched.{Watched};

    ghost Value = { Watched };

    ghost use Rattle.watermark_table.specs.Inside.{watched, IsWatched};

    ghost view = { watched };

    ghost invariant = { IsWatched };
}

impl Waters {
    /// No entry yet, for so many sources.
    pub fn new(alloc: Global, sources: u16, lateness: u64) -> Result<Waters, NoMemory>
        requires some { 1 ≤ sources }
        requires lateness { lateness ≤ TIME_MAX }
        ensures lateness { IfOk result (λ waters. waters.lateness ≡ lateness) }
        ensures sources { IfOk result (λ waters. sources_of waters ≡ sources) }
        ensures stands { IfOk result (λ waters. StandsFor waters []) }
    {
        Ok(Waters {
            lateness,
            standings: vec![in alloc; Standing::Awake { water: 0 }; sources as usize]?,
            water: 0,
        })
    }

    /// The watermark.
    pub fn water(&self) -> u64
        ensures value { result ≡ (self.now).water }
        ensures journal { (journal : List Entry) → StandsFor self.now journal
            → result ≡ water_of (sources_of self.now) journal }
    {
        self.water
    }

    /// What `raise` would answer, and with `FINAL` what `end` would.
    pub fn after(&self, source: u16, time: u64) -> u64
        requires source { source < sources_of self.now }
        requires time { (time ≤ TIME_MAX) ⊎ (time ≡ FINAL) }
        ensures raised { (journal : List Entry) → StandsFor self.now journal → time ≤ TIME_MAX
            → result ≡ water_of (sources_of self.now) (journal ++ water_entry source time ∷ []) }
        ensures ended { (journal : List Entry) → StandsFor self.now journal → time ≡ FINAL
            → result ≡ water_of (sources_of self.now) (journal ++ end_entry source ∷ []) }
    {
        let standing = self.standings[source as usize];
        self.after_standing(source as usize, standing_after(standing, time))
    }

    /// What `idle` would answer.
    pub fn after_idle(&self, source: u16) -> u64
        requires { CanTake self.now (idle_entry source) }
        ensures { IsWaterBehind self.now (idle_entry source) result }
    {
        let standing = self.standings[source as usize];
        self.after_standing(source as usize, standing.rested())
    }

    /// Takes in a watermark of a source, and answers the new watermark. It wakes the source.
    pub fn raise(&mut self, source: u16, time: u64) -> u64
        requires { CanTake self.old (water_entry source time) }
        ensures { HasTaken self.old (water_entry source time) self.new result }
    {
        let standing = self.standings[source as usize];
        self.put_standing(source as usize, standing.raised(time))
    }

    /// Takes in the word of a source that it is idle, and answers the new watermark.
    pub fn idle(&mut self, source: u16) -> u64
        requires { CanTake self.old (idle_entry source) }
        ensures { HasTaken self.old (idle_entry source) self.new result }
    {
        let standing = self.standings[source as usize];
        self.put_standing(source as usize, standing.rested())
    }

    /// Takes in the end of a source, and answers the new watermark.
    pub fn end(&mut self, source: u16) -> u64
        requires { CanTake self.old (end_entry source) }
        ensures { HasTaken self.old (end_entry source) self.new result }
    {
        self.put_standing(source as usize, Standing::Ended)
    }

    /// `Late` exactly where the time plus the lateness is below the watermark.
    pub fn verdict(&self, time: u64) -> Verdict
        ensures { (journal : List Entry) → StandsFor self.now journal
            → (result ≡ Late) ↔ (time + (self.now).lateness < water_of
            (sources_of self.now) journal) }
    {
        if time < self.water.saturating_sub(self.lateness) {
            Verdict::Late
        } else {
            Verdict::Accepted
        }
    }

    /// Whether a source has ended.
    pub fn has_ended(&self, source: u16) -> bool
        requires { source < sources_of self.now }
        ensures { (journal : List Entry) → StandsFor self.now journal
            → result ≡ has_ended source journal }
    {
        self.standings[source as usize].is_ended()
    }

    // The watermark, were a source to stand so.
    fn after_standing(&self, source: usize, standing: Standing) -> u64
        requires { source < sources_of self.now }
        ensures { result ≡ max (self.now).water (least_of (tallied no_source (slice_set
            (self.now).standings source standing))) }
    {
        let before = Tally::new().with_all(&self.standings[..source]);
        let all = before
            .with(standing)
            .with_all(&self.standings[source + 1..]);
        self.water.max(all.water())
    }

    // Lets a source stand so, and answers the watermark.
    fn put_standing(&mut self, source: usize, standing: Standing) -> u64
        requires { source < sources_of self.old }
        ensures lateness { (self.new).lateness ≡ (self.old).lateness }
        ensures standings { (self.new).standings ≡ slice_set (self.old).standings source standing }
        ensures water { (self.new).water
            ≡ max (self.old).water (least_of (tallied no_source (self.new).standings)) }
        ensures answer { result ≡ (self.new).water }
    {
        self.standings[source] = standing;
        self.water = self
            .water
            .max(Tally::new().with_all(&self.standings).water());
        self.water
    }
}

// A source after a watermark, or after its end where that is final.
fn standing_after(standing: Standing, time: u64) -> Standing
    ensures raised { time ≤ TIME_MAX → result ≡ raised time standing }
    ensures ended { time ≡ FINAL → result ≡ Standing.Ended }
{
    if time == FINAL {
        Standing::Ended
    } else {
        standing.raised(time)
    }
}

/// A law: a tuple or mark leaves the table.
pub fn tuple_or_mark_leaves_the_table()
    ensures { (table : Watched) (journal : List Entry) (e : Entry) (key : List ℕ)
        → key_in e.what ≡ Some key
        → StandsFor table journal → StandsFor table (journal ++ e ∷ []) }
{}

/// A law: where all entries are within their limits, the watermark is at most the final one.
#[tactic(auto, using(crate::proofs::Bounds::water_at_most_final))]
pub fn watermark_is_at_most_final()
    ensures { (sources : ℕ) (journal : List Entry) → All (λ e. is_entry_within e ≡ true) journal
        → water_of sources journal ≤ FINAL }
{}
