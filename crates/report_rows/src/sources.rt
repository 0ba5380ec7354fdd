//! Which sources have an entry in a journal, and which have their end there.
ghost use Rattle.std.specs.List.{list_any};
ghost use Rattle.std.specs.Prelude.{◌≡◌, ◌==◌, ◌++◌, ◌∷◌, ◌<◌, ◌||◌, [], ℕ, not, OnOk, OnErr, vec_capacity, vec_len};
ghost use Rattle.row_laws.specs.Told.{has_entry};
ghost use Rattle.stream_base.specs.Model.What.{is_end};
ghost use Rattle.report_rows.specs.Closed.{is_closed, with_test};

use crate::entry_log::{EntryLog, with_entry};
use std::alloc::Global;
use std::marker::Model;
use stream_base::{Entry, NoMemory, What};

/// The sources of a journal, of which contracts see the journal. Memory follows the sources alone.
#[derive(Drop)]
pub struct Sources {
    said: EntryLog,
    spoken: Vec<u16>,
    ended: Vec<u16>,
}

impl Model for Sources {
    ghost use Rattle.std.specs.Prelude.{List};
    ghost use Rattle.stream_base.specs.declared.entry.Entry.{Entry};
    ghost use Rattle.report_rows.specs.Closed.{AreSourcesOf};

    ghost Value = { List Entry };

    ghost use Rattle.report_rows.specs.EntryLogs.{entries_in};

    ghost view = { λ s. entries_in s.said };

    ghost invariant = { λ s. AreSourcesOf (entries_in s.said) (s.spoken).items (s.ended).items };
}

impl Sources {
    /// Those of a journal with no entry.
    #[tactic(auto, using(crate::proofs::SourceFacts::no_sources))]
    pub fn new(alloc: Global) -> Sources
        ensures { result ≡ [] }
    {
        Sources {
            said: EntryLog::Start,
            spoken: Vec::new(alloc),
            ended: Vec::new(alloc),
        }
    }

    /// One entry more.
    #[tactic(auto, using(crate::proofs::SourceFacts::one_more))]
    pub fn add(&mut self, source: u16, what: What) -> Result<(), NoMemory>
        ensures added { OnOk result
            (self.new ≡ self.old ++ record { source = source; what = what } ∷ []) }
        ensures refused { OnErr result (self.new ≡ self.old) }
    {
        self.spoken.reserve(1)?;
        self.ended.reserve(1)?;
        note(source, true, &mut self.spoken);
        note(source, is_end(&what), &mut self.ended);
        self.said = with_entry(&self.said, &Entry { source, what });
        Ok(())
    }

    /// Whether the journal has an entry.
    #[tactic(auto, using(crate::proofs::SourceFacts::entry_there))]
    pub fn has_entry(&self) -> bool
        ensures { result ≡ has_entry self.now }
    {
        self.spoken.len() != 0
    }

    /// Whether each source that has an entry in the journal has its end there.
    #[tactic(auto, using(crate::proofs::SourceFacts::closed_by))]
    pub fn are_closed(&self) -> bool
        ensures { result ≡ is_closed self.now }
    {
        !lacks_any(&self.ended, &self.spoken)
    }
}

fn is_end(what: &What) -> bool
    ensures { result ≡ is_end what.now }
{
    match what {
        What::End => true,
        What::Tuple { .. } | What::Mark { .. } | What::Water { .. } | What::Idle => false,
    }
}

// Puts a source into a list, where it is to be there and isn't.
#[tactic(auto, using(crate::proofs::SourceFacts::noted, crate::proofs::SourceFacts::left_as_it_is))]
fn note(source: u16, wanted: bool, list: &mut Vec<u16>)
    requires { vec_len list.old < vec_capacity list.old }
    ensures { (s : ℕ) → list_any (λ x. x == s) list.new.items
        ≡ (list_any (λ x. x == s) list.old.items || with_test wanted source s) }
{
    if wanted && !has(list, source) {
        list.push_reserved(source);
    }
}

fn has(list: &[u16], source: u16) -> bool
    ensures { result ≡ list_any (λ x. x == source) list.now }
{
    list.iter().any(|other| *other == source)
}

// Whether a list lacks any of these sources.
fn lacks_any(list: &[u16], sources: &[u16]) -> bool
    ensures { result
        ≡ list_any (λ source. not (list_any (λ x. x == source) list.now)) sources.now }
{
    for source in sources {
        if !has(list, *source) {
            return true;
        }
    }
    false
}
