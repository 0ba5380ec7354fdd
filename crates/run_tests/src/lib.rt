//! Tests of the program's call over files and sinks in memory, for what no row of `command_rows` can say:
//! schedules that gates hold, and reports of schedules that are judged. They stand in a crate of their
//! own, since a crate with tests is proved twice.
#![tactic(auto)]

#[cfg(test)]
mod boards;
#[cfg(test)]
mod gates;
#[cfg(test)]
mod judged;
#[cfg(test)]
mod runs;
