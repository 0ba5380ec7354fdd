//! Rows of calls below the command, in which a call that is refused memory is made once more.
//!
//! *From* the names of rows in the words of the command line *to* what the calls of each row come to.
//! *Stands on* shards, desks, mail lanes and gathering, by their public calls. *Promise*: none. `bench/refusals`
//! runs it with each request for memory refused in turn: an answer is then the row's own, or the one line
//! `memory` with a status of its own, where the call that was refused used up what it was given. Any other
//! line says what wasn't as it was before a refused call.
#![tactic(auto)]

mod alike;
mod apply;
mod desk;
mod difference;
mod full;
mod gathers;
mod history;
mod look;
mod mail;
mod row;
mod said;
mod shards;
mod tell;
mod trouble;
mod twins;
mod way;

use row::run_row;
use std::env;
use std::process::ExitCode;
use system_files::RealSink;
use trouble::{Trouble, print_trouble};

/// Keeps the steps of a row apart from those of others.
pub struct Calls;

fn main(rt: HostRuntime) -> ExitCode {
    let words = match env::args(&rt) {
        Ok(words) => words,
        Err(_) => return ExitCode::from(print_trouble(&rt, Trouble::Memory)),
    };
    let mut sink = RealSink::new(rt.stdout());
    for word in words.skip(1) {
        if let Err(trouble) = run_row(&rt, rt.alloc(), word.as_str(), &mut sink) {
            return ExitCode::from(print_trouble(&rt, trouble));
        }
    }
    ExitCode::from(0)
}
