//! Tests of the text of journals with tails, worked out by hand, and of what went out where a write
//! fails.
#![tactic(auto)]

#[cfg(test)]
mod texts;
