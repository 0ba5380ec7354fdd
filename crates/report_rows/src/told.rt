//! What the lines of a text tell so far.
ghost use Rattle.std.specs.Prelude.{◌≡◌, ◌<◌, ◌-◌, [], length, true, false, codes};
ghost use Rattle.std.specs.Str.{bytes_eq};
ghost use Rattle.row_laws.specs.Told.{after_inside, after_line, header, in_last, is_behind, unread};
ghost use Rattle.report_rows.specs.Steps.{Steps};

use crate::place::Place;
use crate::shard::ShardRows;
use report_lines::Line;
use std::alloc::Global;
use std::marker::Model;
use stream_base::NoMemory;

/// The place of the next line, and the shards that the lines before it tell.
#[derive(Drop)]
pub struct ToldText {
    place: Place,
    shards: Vec<ShardRows>,
}

impl Model for ToldText {
    ghost use Rattle.row_laws.specs.Told.{Told};
    ghost use Rattle.report_rows.specs.Places.{where_of};

    ghost Value = { Told };

    ghost view = { λ t. record { place = where_of t.place; shards = (t.shards).items } };
}

impl ToldText {
    /// No line was read.
    pub fn new(alloc: Global) -> ToldText
        ensures { result ≡ unread }
    {
        ToldText {
            place: Place::First,
            shards: Vec::new(alloc),
        }
    }

    /// Whether the last line was read.
    pub fn is_behind(&self) -> bool
        ensures { result ≡ is_behind (self.now).place }
    {
        match self.place {
            Place::First => false,
            Place::Inside(_) => false,
            Place::Behind => true,
        }
    }

    /// The shards that are told.
    pub fn into_shards(self) -> Vec<ShardRows>
        ensures { result.items ≡ self.shards }
    {
        let ToldText { place: _, shards } = self;
        shards
    }

    /// Takes one line more, if it may follow.
    pub fn line(&mut self, alloc: Global, line: &[u8]) -> Result<bool, NoMemory>
        ensures { Steps (after_line self.old line.now) self.old self.new result }
    {
        match self.place {
            Place::First => {
                if line == b"report 2".as_slice() {
                    self.place = Place::Inside(true);
                    Ok(true)
                } else {
                    self.inside(alloc, false, line)
                }
            }
            Place::Inside(full) => self.inside(alloc, full, line),
            Place::Behind => Ok(false),
        }
    }

    // Takes a line within a report.
    fn inside(&mut self, alloc: Global, full: bool, line: &[u8]) -> Result<bool, NoMemory>
        ensures { Steps (after_inside full (self.old).shards line.now) self.old self.new result }
    {
        if is_header(line, self.shards.len()) {
            self.shards.reserve(1)?;
            self.shards.push_reserved(ShardRows::new(alloc));
            self.place = Place::Inside(full);
            Ok(true)
        } else if line == b"end".as_slice() {
            self.place = Place::Behind;
            Ok(true)
        } else {
            let taken = last_line(full, line, &mut self.shards)?;
            if taken {
                self.place = Place::Inside(full);
            }
            Ok(taken)
        }
    }
}

// Takes a line of the last shard, where there is one.
fn last_line(full: bool, line: &[u8], shards: &mut Vec<ShardRows>) -> Result<bool, NoMemory>
    ensures { Steps (in_last full line.now shards.old.items)
        shards.old.items shards.new.items result }
{
    if shards.is_empty() {
        return Ok(false);
    }
    let last = shards.len() - 1;
    shards[last].line(full, line)
}

// Whether a line is the header of the shard with this number.
#[tactic(auto, using(crate::proofs::TextFacts::spells_header))]
fn is_header(line: &[u8], number: usize) -> bool
    ensures { result ≡ bytes_eq line.now (header number) }
{
    let mut told = Line::new();
    told.tell_header(number as u64);
    told.spells(line)
}
