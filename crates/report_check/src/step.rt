use std::marker::Model;
use stream_base::{Defs, Entry};

/// A journal of so many sources and the entry behind it, which isn't late, with the watermarks
/// before the entry and behind it.
#[derive(Drop)]
pub struct Step<'a> {
    pub defs: &'a Defs,
    pub sources: u16,
    pub past: &'a [Entry],
    pub entry: &'a Entry,
    pub old: u64,
    pub new: u64,
}

impl<'a> Model for Step<'a> {
    ghost use Rattle.report_check.specs.Steps.{IsStep, Passage, passage};

    ghost Value = { Passage };

    ghost view = { λ s. passage s.defs.now s.sources s.past.now s.entry.now s.old s.new };

    ghost invariant = { λ s. IsStep
        (passage s.defs.now s.sources s.past.now s.entry.now s.old s.new) };
}
