//! A ticket lock whose callers hold passes. It can say what each caller put in.
//!
//! *Stands on* `atomic_table`, which proves single steps on shared words, and `crossbeam_utils` for
//! the wait. *Promise*: over any value that keeps a list of numbered items (`Keeps`) and any call on
//! it (`Call`), each turn runs one call on the value; the list before it begins with all that the
//! pass had seen; each pass knows the items that it made. Pass zero makes more passes, two passes may
//! tell each other what they have seen, and who closes the lock gets a value whose list has, for
//! each pass, what the pass made and no more. Nothing is said of waiting, fairness or progress.
//!
//! # The rule of the lock
//!
//! The table has three words, `ticket`, `serving` and `numbers`, and one slot, in which the value
//! lies. Each pass has a view, which is what it knows. The rule holds between any two steps:
//!
//! Tickets and the slot
//! - The first two words count modulo 2^64. The tickets that are out are the numbers from the count
//!   of turns that have ended up to the count of tickets that were drawn. Each is in a view of its
//!   own, which has a number.
//! - The slot is out only with the view whose ticket is served. That view has the list of the value
//!   as it was taken. Or else that view has left the value at home and keeps its turn for good.
//!
//! Lists
//! - The value at home has the fixed part and the list that stood at the end of the last turn.
//! - That list begins with what each view has seen.
//! - The items of each view's number in that list are those that the view made, in order, and the
//!   view has the value's fixed part.
//!
//! Numbers
//! - Only the view with number 0 has births, draws numbers and has room for more. Its births are the
//!   numbers from 1 on that passes were made with. A number that was drawn and not yet handed over
//!   is the next one.
//! - No number belongs to two views, and each is below the word `numbers`. Only numbers that were
//!   handed over have items.
//! - The word `numbers` and the room of the view with number 0 add up to 2^62. So numbers never come
//!   round. The numbers that views have and may still draw add up to 2^62 too, so that at most 2^62
//!   tickets are out.
//!
//! Joined views and copies
//! - A view into which others were joined has all their parts: number, fixed part, list seen, items
//!   made and births. Its room is the sum of theirs. What was joined away knows nothing.
//! - A copy has no number. It has made nothing and given no number.
//!
//! | Kind of step | On | View that changes | In the value |
//! |---|---|---|---|
//! | draw a number | fetch_add on `numbers` | the splitter's | nothing |
//! | split | a load | the new pass's comes to be; the splitter's notes that it handed the number over | nothing |
//! | copy | a load | the copy's comes to be | nothing |
//! | enter, to close: a place that knows nothing comes to be, and the passes are joined to it | a load | the new place's | nothing |
//! | join | a load | both | nothing |
//! | compare: of two lists that were seen, the longer begins with the shorter | a load | own: what it has seen | nothing |
//! | draw a ticket | fetch_add on `ticket` | own | the turn's place is fixed |
//! | look; where the own ticket is served, the value is taken in the same step | load of `serving` | own: the list as it was taken | nothing |
//! | run | the slot, by plain access | none | one call is applied |
//! | reach, to close; the value is left where it lies | load of `serving` | own: that it has the last turn | nothing |
//! | pass on; the value is given back in the same step | fetch_add on `serving` | own: what it has seen and made | the turn ends |
#![tactic(auto)]

mod close;
mod ends;
mod keeps;
mod meets;
mod pass;
mod patience;
mod plays;
mod splits;
mod turns;
mod turnstile;
mod view;

pub use ends::{PassEnd, Unclosed};
pub use keeps::{Call, Keeps};
pub use pass::Pass;
pub use turnstile::Turnstile;
