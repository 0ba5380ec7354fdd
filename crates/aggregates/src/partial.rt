ghost use Rattle.std.specs.Prelude.{◌≡◌, ℤ, List, Bool, true};
ghost use Rattle.stream_base.specs.declared.func.Func.{Func};
ghost use Rattle.stream_base.specs.declared.func.Func.TheVariants.{Count};
ghost use Rattle.stream_base.specs.Model.Functions.{shown_of};
ghost use Rattle.aggregates.specs.Bundled.{bundle_of};
ghost use Rattle.aggregates.specs.Order.{Commutes};
ghost use Rattle.aggregates.specs.Partial.{IsPartial};

use crate::bundle::Bundle;
use agg_laws::Lift;
use stream_base::{Func, Shown};

/// What is kept of values: what some functions come to. A slice has a partial, and two of them
/// combine.
pub trait Partial: Lift {
    // The partial of values in event order.
    ghost of_values: { List ℤ → Self };

    // The functions that it shows.
    ghost serves: { Func → Type 0 };

    // Whether the order of values makes no difference.
    ghost any_order: { Bool };

    /// Whether it shows a function.
    fn can_show(func: Func) -> bool
        ensures { result ≡ true → serves func };

    /// Whether values may be combined in any order.
    fn in_any_order() -> bool
        ensures { result ≡ any_order };

    /// What is kept here of the values of which all functions are kept.
    fn of_bundle(bundle: &Bundle) -> Self
        ensures { (values : List ℤ) → bundle.now ≡ bundle_of values → result ≡ of_values values };

    /// The value of a function, as a report shows it. It is that of the values which were lifted
    /// into the partial; what Min, Max and their kin show of no value at all says nothing.
    fn show(&self, func: Func) -> Shown
        requires { serves func }
        ensures { (values : List ℤ) → self.now ≡ of_values values → result ≡ shown_of func values };

    // It combines what single values come to.
    ghost partial: { IsPartial Self.is_value Self.empty Self.op Self.of_number of_values };

    // It shows how many values there are.
    ghost counts: { serves Count };

    // Two of them may be swapped, where that is said.
    ghost commutes: { any_order ≡ true → Commutes Self.is_value Self.op };
}
