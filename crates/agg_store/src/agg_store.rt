ghost use Rattle.std.specs.Prelude.{◌≡◌, ◌≤◌, ◌+◌, ◌*◌, length, All, IfNone, IfSome};
ghost use Rattle.std.specs.Option.{option_map};
ghost use Rattle.stream_base.specs.declared.limits.TheConstants.{TIME_MAX};
ghost use Rattle.stream_base.specs.Model.Windows.{last_time, within};
ghost use Rattle.slice_lists.specs.Runs.{runs_within};
ghost use Rattle.slice_lists.specs.Slices.{slice_of, values_of};
ghost use Rattle.agg_store.specs.Stored.{AreBounds, IsFirstWithin, IsNoneWithin, IsStore, Stored, first_from, tuples_of};

use agg_laws::Steps;
use aggregates::Partial;
use slice_lists::Slice;

/// The slices of one key, with a partial aggregate for each, which all of its windows share.
///
/// Its work is bounded by its reach: a fold makes at most `64 * (reach + 2)` steps, and at most one
/// for each slice in its range.
pub trait AggStore<M: Partial> {
    // The slices and marks that the store stands for.
    ghost stored: { Self → Stored };

    /// The fold of the tuples with `low <= time < high` in event order, from the partials of their
    /// slices. No slice has tuples on both sides of either time.
    fn fold<L>(&self, low: u64, high: u64, steps: &mut Steps<L>) -> M
        requires { AreBounds (stored self.now) low high }
        ensures value { result
            ≡ M.of_values (values_of (within low high (tuples_of (stored self.now)))) }
        ensures one_each { steps.new
            ≤ steps.old + length (runs_within low high (stored self.now).slices) }
        ensures cost { steps.new ≤ steps.old + 64 * ((stored self.now).reach + 2) }
        ensures holds { IsStore (stored self.now) };

    /// How many slices there are.
    fn slice_count(&self) -> u64
        ensures count { result ≡ length (stored self.now).slices }
        ensures holds { IsStore (stored self.now) }
        ensures ends { All (λ run. last_time run ≤ TIME_MAX) (stored self.now).slices };

    /// How many slices begin at a time or later, and before another.
    fn slices_within(&self, low: u64, high: u64) -> u64
        ensures count { result ≡ length (runs_within low high (stored self.now).slices) }
        ensures holds { IsStore (stored self.now) };

    /// The first slice that begins at a time or later, `None` exactly where there is none.
    fn slice_from(&self, time: u64) -> Option<Slice>
        ensures first { result ≡ option_map slice_of (first_from (stored self.now).slices time) }
        ensures holds { IsStore (stored self.now) };

    /// The first slice that begins at a time or later, where that is before another, with its partial.
    fn partial_within<L>(&self, low: u64, high: u64, steps: &mut Steps<L>) -> Option<(Slice, M)>
        ensures some { IfSome result (IsFirstWithin M.of_values (stored self.now).slices low high) }
        ensures none { IfNone result (IsNoneWithin (stored self.now).slices low high) }
        ensures idle { IfNone result (steps.new ≤ steps.old) }
        ensures cost { steps.new ≤ steps.old + 1 }
        ensures holds { IsStore (stored self.now) };
}
