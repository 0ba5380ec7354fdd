//! The windows of one key on slices that they share.
//!
//! *From* accepted tuples and marks of a key and moves of the watermark, *to* its changes. *Stands
//! on* `key_windows`, which says what an engine for a key promises; on `slice_store`, whose slices
//! hold the key's tuples; on `key_parts`, which says what the part of one window promises; and on
//! the laws of `held_laws`. General over the tree of the store and over the parts. *Promise*: all
//! of `KeyWindows`, where each part keeps what `KeyPart` says. A tuple or a mark takes as much as
//! four folds and two more for each change, and a step for each tuple of the slices that it enters
//! or splits; windows of event counts take twice their count for each change of theirs, and a mark
//! one fold for each slice that leaves. The slices are those of the unsettled tuples, so that the
//! key's lists alone bound this too.
//! A move of the watermark takes, on the credit of all parts, ten steps for each slice that a window
//! takes up, for each row what one takes in a window of its kind, and one fold for each slice that
//! leaves; and where something came before the watermark, ten for each slice that a window missed.
//!
//! - `parts`: the parts of all windows, each at the place of its window.
//! - `putting`, `marking`, `moving`: a tuple, a mark and a move of the watermark go from part to
//!   part, and what they change is appended window by window. Before the store takes a tuple in,
//!   each part keeps what stood; room is the sum of what the parts need. Where all windows are
//!   tumbling or sliding, of a tuple at or behind the watermark no part is asked or told.
//! - `sorted`: changes window by window are put in order, all retractions first.
//! - `purging`, `leaving`: the least of the watermark minus the lateness and of the times of the
//!   windows is the time up to which all tuples are settled. Slices before it leave where the first
//!   one begins before it, and the parts forget what has ended. So between calls no tuple in the
//!   store is settled at the watermark.
//! - `settling`: by which watermark the first of them are settled. The state stands as it is up to
//!   there, unless a window completes something before.
//! - `key_state`, `engine`: the state of a key, and its calls.
//!
//! Windows of event counts need no slices: where there are no others, the store takes no tuple in.
#![tactic(auto)]

mod engine;
mod key_state;
mod leaving;
mod marking;
mod moving;
mod parts;
mod purging;
mod putting;
mod settling;
mod sorted;

pub use key_state::KeyState;
