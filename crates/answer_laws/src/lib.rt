//! Laws of the program's answers, each as the contract of a function that calls other laws at most:
//! what of an answer the files alone decide.
//!
//! *Stands on* `scotty_run`, whose specs say what is an answer. *Promise*: where all files tell their
//! bytes, no open, read or write fails, and memory is there, two answers to the same words have one
//! status and one text, but for what the schedule of several feeds decides.
#![tactic(auto)]

pub mod once;
