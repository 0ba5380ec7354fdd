//! Tests of the lock, of the lanes, of desks and of gathering through their public calls, with threads.
#![tactic(auto)]

#[cfg(test)]
mod desks;
#[cfg(test)]
mod lanes;
#[cfg(test)]
mod pairs;
#[cfg(test)]
mod turns;
