//! What the table knows of each pass. These types are for the proofs alone: no value of them is
//! made.

use std::collections::LinkedList;

/// Where a view stands in the line of tickets.
pub enum Stage<I> {
    /// It has no ticket.
    Idle,
    /// It has drawn this ticket.
    Waiting(u64),
    /// It has this ticket and the value, which stood for this list as it was taken.
    Serving(u64, LinkedList<(u64, I)>),
    /// Its ticket is served, and it has left the value where it lies.
    Reached(u64),
}

/// What is known of one pass: its number, the fixed part, the list that it has seen, the items that
/// it made, and the numbers that it gave to new passes. A copy has no number.
pub struct Part<I, F> {
    pub number: Option<u64>,
    pub fixed: Option<F>,
    pub seen: LinkedList<(u64, I)>,
    pub made: LinkedList<I>,
    pub born: LinkedList<u64>,
}

/// What a seat at the table knows: its own part and those that were joined to it, how many numbers
/// may still be drawn through it, the number that it has drawn and not yet handed over, and its
/// ticket.
pub struct View<I, F> {
    pub main: Part<I, F>,
    pub others: LinkedList<Part<I, F>>,
    pub room: u64,
    pub pending: Option<u64>,
    pub stage: Stage<I>,
}
