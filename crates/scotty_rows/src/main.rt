//! The program that writes what stands by a report as rows for other tools.
//!
//! *From* the words of the command line *to* an exit code. *Stands on* `rows_run` and on the files and the
//! output of the system. *Promise*: the contract of `rows`, the call that `main` makes.
#![tactic(auto)]

use rows_run::{Status, rows};
use std::env;
use std::io::ErrorKind;
use std::process::ExitCode;
use system_files::{RealFiles, RealSink};

fn main(rt: HostRuntime) -> ExitCode {
    let mut words = Vec::new(rt.alloc());
    match env::args(&rt) {
        Ok(given) => {
            for word in given.skip(1) {
                if words.push(word).is_err() {
                    return ExitCode::from(Status::NoMemory.code());
                }
            }
        }
        Err(error) if error.kind() == ErrorKind::OutOfMemory => {
            return ExitCode::from(Status::NoMemory.code());
        }
        // A word that isn't text is in no grammar.
        Err(_) => {}
    }
    let mut files = RealFiles::new(&rt);
    let mut sink = RealSink::new(rt.stdout());
    let status = rows(rt.alloc(), &words, &mut files, &mut sink);
    ExitCode::from(status.code())
}
