ghost use Rattle.std.specs.Prelude.{◌≡◌, ◌≤◌, drop, length};
ghost use Rattle.plain_windows.specs.Extents.{AreKeyLists};

use std::marker::Model;
use stream_base::Kept;

/// A key at one moment: what is kept of it in event order, its marks, rising, all within the limits,
/// and the watermark. Contracts see it as a `Moment` of the definitions.
#[derive(Debug, Drop)]
pub struct View<'a> {
    pub(crate) kept: &'a [Kept],
    pub(crate) marks: &'a [u64],
    pub(crate) water: u64,
}

impl<'a> Model for View<'a> {
    ghost use Rattle.stream_base.specs.Model.Changes.{Moment};
    ghost use Rattle.plain_windows.specs.Extents.{AreKeyLists};

    ghost Value = { Moment };

    ghost view = { λ v. record { kept = v.kept.now; marks = v.marks.now; water = v.water } };

    ghost invariant = { λ v. AreKeyLists v.kept.now v.marks.now };
}

impl<'a> View<'a> {
    /// A key with these tuples and marks under a watermark.
    pub fn new(kept: &'a [Kept], marks: &'a [u64], water: u64) -> View<'a>
        requires { AreKeyLists kept.now marks.now }
        ensures { result ≡ record { kept = kept.now; marks = marks.now; water = water } }
    {
        View { kept, marks, water }
    }

    // How many tuples are kept.
    pub(crate) fn len(&self) -> usize
        ensures { result ≡ length self.now.kept }
    {
        self.kept.len()
    }

    // The tuples from a place on.
    pub(crate) fn kept_from(&self, place: usize) -> &[Kept]
        requires { place ≤ length self.now.kept }
        ensures { result.now ≡ drop place self.now.kept }
    {
        &self.kept[place..]
    }

    // Changes nothing, and tells a proof what every view keeps.
    pub(crate) fn vouch(&self)
        ensures { AreKeyLists self.now.kept self.now.marks }
    {
        let _water = self.water;
    }
}
