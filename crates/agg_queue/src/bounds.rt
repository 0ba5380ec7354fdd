ghost use Rattle.std.specs.Prelude.{◌≡◌, ◌≤◌, ◌+◌, ◌-◌};

/// Where the ranges of the cells begin, as places counted from the front. In order, none is behind
/// the next one.
#[derive(Clone, Copy)]
pub(crate) struct Bounds {
    pub(crate) left: usize,
    pub(crate) right: usize,
    pub(crate) accumulator: usize,
    pub(crate) back: usize,
}

impl Bounds {
    /// All boundaries at one place.
    pub(crate) fn all_at(place: usize) -> Bounds
        ensures { result
            ≡ record { left = place; right = place; accumulator = place; back = place } }
    {
        Bounds {
            left: place,
            right: place,
            accumulator: place,
            back: place,
        }
    }

    /// The boundaries of the same cells where the first cell is gone.
    pub(crate) fn without_first(self) -> Bounds
        requires left { 1 ≤ self.left }
        requires right { 1 ≤ self.right }
        requires accumulator { 1 ≤ self.accumulator }
        requires back { 1 ≤ self.back }
        ensures { result ≡ record {
          left = self.left - 1;
          right = self.right - 1;
          accumulator = self.accumulator - 1;
          back = self.back - 1;
        } }
    {
        Bounds {
            left: self.left - 1,
            right: self.right - 1,
            accumulator: self.accumulator - 1,
            back: self.back - 1,
        }
    }
}
