ghost use Rattle.std.specs.Prelude.{◌≡◌, IfOk, OnOk, true};
ghost use Rattle.std.specs.Str.{bytes_eq};
ghost use Rattle.stream_base.specs.declared.what.What.TheVariants.{Tuple};
ghost use Rattle.stream_base.specs.Model.What.{is_progress};
ghost use Rattle.plain_windows.specs.Extents.{AreKeyLists};
ghost use Rattle.report_check.specs.Ledgers.{IsFollowed, StandsBefore, StandsBehind, held_with_mark, held_with_tuple, moment_in, nothing_of};

use crate::inserting::{with_mark, with_tuple};
use crate::moves::{append_completed, append_moved};
use crate::step::Step;
use agg_laws::Steps;
use plain_windows::View;
use std::alloc::Global;
use std::marker::Model;
use stream_base::{Change, Kept, KeyText, NoMemory, What};

/// A key, what is kept of it in event order, and its marks, rising: as plain lists.
#[derive(Drop)]
pub struct KeyLists {
    key: KeyText,
    kept: Vec<Kept>,
    marks: Vec<u64>,
}

impl Model for KeyLists {
    ghost use Rattle.report_check.specs.Held.{Held};

    ghost Value = { Held };

    ghost view = { λ a. record { key = a.key; kept = a.kept.items; marks = a.marks.items } };
}

impl KeyLists {
    /// A key of which nothing is known.
    pub fn new(alloc: Global, key: KeyText) -> KeyLists
        ensures { result ≡ nothing_of key }
    {
        KeyLists {
            key,
            kept: Vec::new(alloc),
            marks: Vec::new(alloc),
        }
    }

    /// The key.
    pub fn key(&self) -> &KeyText
        ensures { result.now ≡ (self.now).key }
    {
        &self.key
    }

    // The key at a watermark.
    fn view(&self, water: u64) -> View
        requires { AreKeyLists self.now.kept self.now.marks }
        ensures { result ≡ moment_in self.now water }
    {
        View::new(&self.kept, &self.marks, water)
    }

    /// Goes on by an entry that isn't late, and appends what that changes of the key.
    pub fn follow<L>(
        &mut self,
        alloc: Global,
        step: &Step,
        out: &mut Vec<Change>,
        steps: &mut Steps<L>,
    ) -> Result<(), NoMemory>
        requires before { StandsBefore step.now self.old }
        ensures { OnOk result
            (IsFollowed step.now self.old self.new out.old.items out.new.items) }
    {
        match step.entry.what {
            What::Tuple { key, time, value } => {
                if is_same_key(&key, &self.key) {
                    self.put(alloc, step, time, value, out, steps)
                } else {
                    Ok(())
                }
            }
            What::Mark { key, time } => {
                if is_same_key(&key, &self.key) {
                    let next = self.next_by_mark(alloc, time)?;
                    self.move_to(next, step, out, steps)
                } else {
                    Ok(())
                }
            }
            What::Water { .. } | What::Idle | What::End => self.complete(step, out, steps),
        }
    }

    // Goes on by a tuple of the key.
    fn put<L>(
        &mut self,
        alloc: Global,
        step: &Step,
        time: u64,
        value: i64,
        out: &mut Vec<Change>,
        steps: &mut Steps<L>,
    ) -> Result<(), NoMemory>
        requires before { StandsBefore step.now self.old }
        requires says { step.now.entry.what ≡ Tuple self.old.key time value }
        ensures { OnOk result
            (IsFollowed step.now self.old self.new out.old.items out.new.items) }
    {
        let x = kept_at(step.past.len() as u64, time, value);
        let next = self.next_by_tuple(alloc, x)?;
        let water = step.old;
        if water < time {
            // What comes after the watermark changes nothing that stands.
            *self = next;
            return Ok(());
        }
        self.move_to(next, step, out, steps)
    }

    // The lists with one tuple more.
    fn next_by_tuple(&self, alloc: Global, x: Kept) -> Result<KeyLists, NoMemory>
        ensures { IfOk result (λ next. next ≡ held_with_tuple self.now x) }
    {
        Ok(KeyLists {
            key: self.key,
            kept: with_tuple(alloc, &self.kept, x)?,
            marks: Vec::from_slice(alloc, &self.marks)?,
        })
    }

    // The lists with one mark more.
    fn next_by_mark(&self, alloc: Global, time: u64) -> Result<KeyLists, NoMemory>
        ensures { IfOk result (λ next. next ≡ held_with_mark self.now time) }
    {
        Ok(KeyLists {
            key: self.key,
            kept: Vec::from_slice(alloc, &self.kept)?,
            marks: with_mark(alloc, &self.marks, time)?,
        })
    }

    // Takes on the lists behind an entry, and appends what that changes.
    fn move_to<L>(
        &mut self,
        next: KeyLists,
        step: &Step,
        out: &mut Vec<Change>,
        steps: &mut Steps<L>,
    ) -> Result<(), NoMemory>
        requires before { StandsBefore step.now self.old }
        requires behind { StandsBehind step.now next }
        requires key { next.key ≡ self.old.key }
        ensures { OnOk result
            (IsFollowed step.now self.old self.new out.old.items out.new.items) }
    {
        let old = self.view(step.old);
        let new = next.view(step.new);
        append_moved(step, &self.key, &old, &new, out, steps)?;
        *self = next;
        Ok(())
    }

    // Appends what a word on the progress of a source completes.
    fn complete<L>(
        &self,
        step: &Step,
        out: &mut Vec<Change>,
        steps: &mut Steps<L>,
    ) -> Result<(), NoMemory>
        requires progress { is_progress step.now.entry.what ≡ true }
        requires before { StandsBefore step.now self.now }
        ensures { OnOk result
            (IsFollowed step.now self.now self.now out.old.items out.new.items) }
    {
        let view = self.view(step.old);
        append_completed(step, &self.key, &view, out, steps)?;
        Ok(())
    }
}

fn is_same_key(key: &KeyText, other: &KeyText) -> bool
    ensures { result ≡ bytes_eq key.now other.now }
{
    key.bytes() == other.bytes()
}

fn kept_at(position: u64, time: u64, value: i64) -> Kept
    ensures { result ≡ record { position = position; time = time; value = value } }
{
    Kept {
        position,
        time,
        value,
    }
}
