//! Tests of the text of entries, changes, reports, summaries and fault lines, worked out by hand, of
//! what went out where a write fails, and of what is found of reports.
#![tactic(auto)]

#[cfg(test)]
mod checks;
#[cfg(test)]
mod lines;
#[cfg(test)]
mod reports;
#[cfg(test)]
mod said;
#[cfg(test)]
mod sinks;
#[cfg(test)]
mod summaries;
#[cfg(test)]
mod writes;
