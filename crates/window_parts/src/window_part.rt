//! The part of a window of any kind.
use crate::either_part::EitherPart;
use agg_laws::AggQueue;
use aggregates::Partial;
use context_windows::{MarkPart, SessionPart};
use key_parts::AnyPart;
use time_parts::{CountPart, LanePart};

/// The part of a window of any kind in the state of a key: one of those listed here, the first that
/// serves its kind.
pub type WindowPart<M, Q> = EitherPart<
    LanePart<M, Q>,
    EitherPart<SessionPart, EitherPart<MarkPart, CountPart>>,
>;

impl<M: Partial, Q: AggQueue<M> + Drop> AnyPart<M> for WindowPart<M, Q> {
    ghost use Rattle.window_parts.specs.Kinds.{each_is_served};

    ghost serves_all = { each_is_served };
}
