//! Tests of the live board through its public call, with threads, and of the text of its reads.
#![tactic(auto)]

#[cfg(test)]
mod boards;
#[cfg(test)]
mod texts;
