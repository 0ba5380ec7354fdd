//! Tests of the sentences that help, and of what is heard of a report, over files in memory. They stand in a crate of
//! their own, since a crate with tests is proved twice. `.ci/built` looks at each sentence of the built program.
#![tactic(auto)]

#[cfg(test)]
mod heard;
#[cfg(test)]
mod kept;
#[cfg(test)]
mod sentences;
