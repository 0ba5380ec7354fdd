//! Laws of windows over plain lists: what becomes of instances and changes where a tuple, a
//! mark or a move of the watermark comes. What is kept of a key and its marks are lists, and no law
//! knows how an engine stores them.
//!
//! *Stands on* the definitions of `stream_base`, and on `slice_lists` for what becomes of slices.
//! *Promise*: each law is the contract of a function that does nothing, and asks nothing of tuples and
//! marks that a key's don't meet.
//!
//! - `moments`: what is known of a key after one entry more.
//! - `kept`: what a journal keeps of a key has times that don't fall and lie before the final one,
//!   and distinct positions. This is what other laws ask of tuples.
//! - `instances`: bounds don't fall along the instances of a window, so what stands comes first, and
//!   a move adds behind it; an instance selects what its span holds; only times make instances.
//! - `after`: what stands stays where a tuple or a mark comes strictly after the watermark, for all
//!   five kinds, and nothing changes.
//! - `middle`: where instances change only in the middle of their list, so do the changes.
//! - `late`: of a tumbling or sliding window a tuple changes exactly the complete intervals that
//!   hold it: new, or again with what they showed without it.
//! - `sessions`: a tuple and the sessions less than the gap away, at most two, become one.
//! - `stretches`: of the intervals between marks a tuple changes the one that holds it; a mark parts
//!   the one that holds it, which goes where it stood, and its parts come.
//! - `counts`: of a window of event counts the first instances stand, as many as the tuples up to
//!   the watermark fill; a tuple shifts those from the one that it enters on.
//! - `walk`: how a move of the watermark goes over the intervals that it completes, tuple by tuple.
//! - `due`: a key of which nothing is due waits; its next bound is the least of its windows' own,
//!   which is said for each kind.
//! - `slices`: slices part at starts, ends and marks; an instance that doesn't count events selects
//!   whole slices.
//! - `settled`: settled tuples come first, with a cut behind them, and stay settled; a tuple settles
//!   nothing, nor does a mark, but where its time plus the lateness is the watermark; when a tuple
//!   settles is said for each kind.
//! - `leaving`: settled tuples that left change no result to come.
#![tactic(auto)]

pub mod after;
pub mod counts;
pub mod due;
pub mod instances;
pub mod kept;
pub mod late;
pub mod leaving;
pub mod middle;
pub mod moments;
pub mod sessions;
pub mod settled;
pub mod slices;
pub mod stretches;
pub mod walk;
