//! Some of the changes of a log.
ghost use Rattle.std.specs.Prelude.{◌≡◌, ◌<◌, Some, length, slice_get};

use crate::changes::Changes;
use std::marker::Model;
use stream_base::Change;

/// Changes of a log from one place up to another, told one by one. Contracts see the list.
#[derive(Drop)]
pub struct ChangeRange<'a> {
    pub(crate) log: &'a Changes,
    pub(crate) from: usize,
    pub(crate) to: usize,
}

impl<'a> Model for ChangeRange<'a> {
    ghost use Rattle.std.specs.Prelude.{List, slice_range};
    ghost use Rattle.stream_base.specs.declared.change.Change.{Change};
    ghost use Rattle.compact_log.specs.Logs.{IsWithin};

    ghost Value = { List Change };

    ghost view = { λ r. slice_range r.log.now.items r.from r.to };

    ghost invariant = { λ r. IsWithin r.from r.to r.log.now.items };
}

impl<'a> ChangeRange<'a> {
    /// How many changes there are.
    pub fn len(&self) -> usize
        ensures { result ≡ length self.now }
    {
        self.to - self.from
    }

    /// The change at a place.
    pub fn get(&self, at: usize) -> Change
        requires { at < length self.now }
        ensures { slice_get self.now at ≡ Some result }
    {
        self.log.get(self.from + at)
    }
}
