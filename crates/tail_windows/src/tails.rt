//! A follower of a shard's journal.
ghost use Rattle.std.specs.Prelude.{◌≡◌, ◌≤◌, ◌<◌, ◌+◌, ◌-◌, ◌*◌, ◌++◌, ◌∷◌, [], ℕ, List, false, IfOk, OnErr, OnOk, length, nat_lt};
ghost use Rattle.stream_base.specs.Model.Watermark.{water_of};
ghost use Rattle.stream_base.specs.declared.entry.Entry.{Entry};
ghost use Rattle.stream_base.specs.declared.limits.TheConstants.{TIME_MAX};
ghost use Rattle.stream_base.specs.declared.what.What.TheVariants.{Tuple, Mark};
ghost use Rattle.watermark_table.specs.Watched.{end_entry, idle_entry, water_entry};
ghost use Rattle.tail_windows.specs.Following.{FollowsEntry, ForEachMove, IsOfSame, StandsFor, changes_behind, lateness_of, number_of_sources, time_in};
ghost use Rattle.tail_windows.specs.Walks.{HasAppended, IsTailDef};
ghost use Rattle.tail_windows.specs.declared.change.TailChange.TheVariants.{Dropped};

use crate::agenda::Agenda;
use crate::change::TailChange;
use crate::def::TailDef;
use crate::sample::Sample;
use crate::select::end_of;
use crate::timelines::Timelines;
use agg_laws::Steps;
use std::alloc::Global;
use std::marker::Model;
use stream_base::{Entry, FINAL, KeyText, NoMemory, What};
use watermark_table::{Verdict, Waters};

/// Follows a journal, and tells what each entry changes of the last tuples before the ends of
/// periods. Contracts say for which journals it stands; it doesn't keep them.
#[derive(Drop)]
pub struct Tails {
    def: TailDef,
    waters: Waters,
    keys: Timelines,
    agenda: Agenda,
}

impl Model for Tails {
    ghost use Rattle.tail_windows.specs.Following.{Followed};
    ghost use Rattle.tail_windows.specs.Noted.{IsReady};
    ghost use Rattle.tail_windows.specs.Walks.{IsTailDef};

    ghost Value = { Followed };

    ghost view = { λ s. record { def = s.def; waters = s.waters; lists = s.keys } };

    ghost invariant = { λ s. IsTailDef s.def
        × IsReady (s.def).period s.waters s.keys s.agenda };
}

impl Tails {
    /// No entry yet, for so many sources.
    pub fn new(alloc: Global, def: TailDef, sources: u16, lateness: u64) -> Result<Tails, NoMemory>
        requires def { IsTailDef def }
        requires some { 1 ≤ sources }
        requires lateness { lateness ≤ TIME_MAX }
        ensures def { IfOk result (λ tails. tails.def ≡ def) }
        ensures lateness { IfOk result (λ tails. lateness_of tails ≡ lateness) }
        ensures sources { IfOk result (λ tails. number_of_sources tails ≡ sources) }
        ensures stands { IfOk result (λ tails. StandsFor tails []) }
    {
        Ok(Tails {
            def,
            waters: Waters::new(alloc, sources, lateness)?,
            keys: Timelines::new(alloc),
            agenda: Agenda::new(alloc),
        })
    }

    /// Takes in an entry of the journal and appends the changes that it causes, with at most as
    /// many steps for each as the definition selects tuples. After want of memory the follower
    /// stands for the journals of before, and the list is as it was.
    pub fn apply<L>(
        &mut self,
        entry: &Entry,
        out: &mut Vec<TailChange>,
        steps: &mut Steps<L>,
    ) -> Result<(), NoMemory>
        requires source { (entry.now).source < number_of_sources self.old }
        requires time { time_in (entry.now).what ≤ TIME_MAX }
        ensures same { IsOfSame self.old self.new }
        ensures stands { (journal : List Entry) → StandsFor self.old journal
            → OnOk result (StandsFor self.new (journal ++ entry.now ∷ [])) }
        ensures changes { (journal : List Entry) → StandsFor self.old journal
            → OnOk result (out.new.items ≡ out.old.items
            ++ changes_behind self.old journal entry.now) }
        ensures refused { (journal : List Entry) → StandsFor self.old journal
            → OnErr result (StandsFor self.new journal) }
        ensures unchanged { OnErr result (out.new.items ≡ out.old.items) }
        ensures work { OnOk result (HasAppended (self.old.def).count out.old.items out.new.items
            steps.old steps.new) }
    {
        let before = out.len();
        let done = self.follow(entry, out, steps);
        if done.is_err() {
            out.truncate(before);
        }
        done
    }

    // The same, but for changes that stay appended after want of memory.
    fn follow<L>(
        &mut self,
        entry: &Entry,
        out: &mut Vec<TailChange>,
        steps: &mut Steps<L>,
    ) -> Result<(), NoMemory>
        requires source { (entry.now).source < number_of_sources self.old }
        requires time { time_in (entry.now).what ≤ TIME_MAX }
        ensures { FollowsEntry self.old entry.now result self.new out.old.items out.new.items
            steps.old steps.new }
    {
        match entry.what {
            What::Tuple { key, time, value } => self.take_tuple(&key, time, value, out, steps),
            What::Mark { time, .. } => self.take_mark(time, out),
            What::Water { time } => self.take_water(entry.source, time, out, steps),
            What::Idle => self.take_idle(entry.source, out, steps),
            What::End => self.take_end(entry.source, out, steps),
        }
    }

    fn take_tuple<L>(
        &mut self,
        key: &KeyText,
        time: u64,
        value: i64,
        out: &mut Vec<TailChange>,
        steps: &mut Steps<L>,
    ) -> Result<(), NoMemory>
        requires { time ≤ TIME_MAX }
        ensures { (e : Entry) → e.what ≡ Tuple key.now time value
            → FollowsEntry self.old e result self.new out.old.items out.new.items
            steps.old steps.new }
    {
        if self.is_late(time) {
            append_dropped(out)
        } else {
            self.put_tuple(key, time, value, out, steps)
        }
    }

    // Takes in a tuple that isn't late.
    fn put_tuple<L>(
        &mut self,
        key: &KeyText,
        time: u64,
        value: i64,
        out: &mut Vec<TailChange>,
        steps: &mut Steps<L>,
    ) -> Result<(), NoMemory>
        requires time { time ≤ TIME_MAX }
        requires accepted { (journal : List Entry) → StandsFor self.old journal
            → nat_lt (time + lateness_of self.old)
            (water_of (number_of_sources self.old) journal) ≡ false }
        ensures { (e : Entry) → e.what ≡ Tuple key.now time value
            → FollowsEntry self.old e result self.new out.old.items out.new.items
            steps.old steps.new }
    {
        let water = self.waters.water();
        let sample = Sample { time, value };
        self.agenda.note(end_of(&self.def, time), key, water)?;
        self.keys.put(&self.def, key, sample, water, out, steps)
    }

    // A mark that isn't late changes nothing.
    fn take_mark(&mut self, time: u64, out: &mut Vec<TailChange>) -> Result<(), NoMemory>
        ensures { (e : Entry) (key : List ℕ) (steps : ℕ) → e.what ≡ Mark key time
            → FollowsEntry self.old e result self.new out.old.items out.new.items steps steps }
    {
        if self.is_late(time) {
            append_dropped(out)
        } else {
            Ok(())
        }
    }

    fn take_water<L>(
        &mut self,
        source: u16,
        time: u64,
        out: &mut Vec<TailChange>,
        steps: &mut Steps<L>,
    ) -> Result<(), NoMemory>
        requires source { source < number_of_sources self.old }
        requires time { time ≤ TIME_MAX }
        ensures { FollowsEntry self.old (water_entry source time) result self.new
            out.old.items out.new.items steps.old steps.new }
    {
        let water = self.waters.after(source, time);
        self.append_move(water, out, steps)?;
        self.waters.raise(source, time);
        self.agenda.pass(water);
        Ok(())
    }

    fn take_idle<L>(
        &mut self,
        source: u16,
        out: &mut Vec<TailChange>,
        steps: &mut Steps<L>,
    ) -> Result<(), NoMemory>
        requires { source < number_of_sources self.old }
        ensures { FollowsEntry self.old (idle_entry source) result self.new
            out.old.items out.new.items steps.old steps.new }
    {
        let water = self.waters.after_idle(source);
        self.append_move(water, out, steps)?;
        self.waters.idle(source);
        self.agenda.pass(water);
        Ok(())
    }

    fn take_end<L>(
        &mut self,
        source: u16,
        out: &mut Vec<TailChange>,
        steps: &mut Steps<L>,
    ) -> Result<(), NoMemory>
        requires { source < number_of_sources self.old }
        ensures { FollowsEntry self.old (end_entry source) result self.new
            out.old.items out.new.items steps.old steps.new }
    {
        let water = self.waters.after(source, FINAL);
        self.append_move(water, out, steps)?;
        self.waters.end(source);
        self.agenda.pass(water);
        Ok(())
    }

    // Appends what a word on progress brings that leads on to a watermark.
    fn append_move<L>(
        &self,
        water: u64,
        out: &mut Vec<TailChange>,
        steps: &mut Steps<L>,
    ) -> Result<(), NoMemory>
        ensures changes { ForEachMove self.now water (λ journal e.
            OnOk result (out.new.items ≡ out.old.items
            ++ changes_behind self.now journal e)) }
        ensures appended { HasAppended (self.now.def).count out.old.items out.new.items
            steps.old steps.new }
    {
        let old = self.waters.water();
        let due = self.agenda.due(water)?;
        self.keys
            .append_move(&self.def, &due, old, water, out, steps)
    }

    fn is_late(&self, time: u64) -> bool
        ensures { (journal : List Entry) → StandsFor self.now journal
            → result ≡ nat_lt (time + lateness_of self.now)
            (water_of (number_of_sources self.now) journal) }
    {
        matches!(self.waters.verdict(time), Verdict::Late)
    }
}

// Appends that an entry was dropped, with no step.
fn append_dropped(out: &mut Vec<TailChange>) -> Result<(), NoMemory>
    ensures dropped { OnOk result (out.new.items ≡ out.old.items ++ Dropped ∷ []) }
    ensures appended { (count steps : ℕ) → HasAppended count out.old.items out.new.items
        steps steps }
{
    out.push(TailChange::Dropped)?;
    Ok(())
}
