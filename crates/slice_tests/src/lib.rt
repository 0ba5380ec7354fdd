//! Tests of slices and of the windows that are told from them through their public calls: worked
//! cases whose answers were worked out by hand. They stand in a crate of their own, since a crate
//! with tests is proved twice.
#![tactic(auto)]

#[cfg(test)]
mod counts;
#[cfg(test)]
mod lanes;
#[cfg(test)]
mod marks;
#[cfg(test)]
mod sessions;
#[cfg(test)]
mod slices;
#[cfg(test)]
mod told;
