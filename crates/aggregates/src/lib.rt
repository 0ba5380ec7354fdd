//! The nine aggregates as monoids, the bundle of them all, and the summary of those five of which the
//! order of values makes no difference.
//!
//! *Stands on* `stream_base`, whose definitions say what the nine functions are, and on `agg_laws`.
//! *Promise*: each aggregate of a list shows the value of its function, a bundle of all nine shows the
//! value of each, as a summary does of its five (`Partial`), and each combine is counted as one step.
#![tactic(auto)]

mod bundle;
mod count;
mod extremes;
mod first;
mod last;
mod max;
mod mean;
mod min;
mod packed_sum;
mod partial;
mod rises;
mod sum;
mod summary;
mod trace;

pub use bundle::Bundle;
pub use count::Count;
pub use first::First;
pub use last::Last;
pub use max::Max;
pub use mean::Mean;
pub use min::Min;
pub use partial::Partial;
pub use rises::Rises;
pub use sum::Sum;
pub use summary::Summary;
pub use trace::Trace;
