//! The program that parts sources for runs on many machines, and joins the reports of such runs.
//!
//! *From* the words of the command line *to* an exit code. *Stands on* everything below. *Promise*: the
//! contract of `scotty_part`, the call that `main` makes.
#![tactic(auto)]

use part_run::scotty_part;
use run_inputs::Status;
use std::env;
use std::io::ErrorKind;
use std::process::ExitCode;
use system_files::{RealFiles, RealSink};

fn main(rt: HostRuntime) -> ExitCode {
    let mut words = Vec::new(rt.alloc());
    match env::args(&rt) {
        Ok(given) => {
            for word in given.skip(1) {
                if words.push(word).is_err() {
                    return ExitCode::from(Status::NoMemory.code());
                }
            }
        }
        Err(error) if error.kind() == ErrorKind::OutOfMemory => {
            return ExitCode::from(Status::NoMemory.code());
        }
        // A word that isn't text is in no grammar.
        Err(_) => {}
    }
    let mut files = RealFiles::new(&rt);
    let mut sink = RealSink::new(rt.stdout());
    let status = scotty_part(rt.alloc(), &words, &mut files, &mut sink);
    ExitCode::from(status.code())
}
