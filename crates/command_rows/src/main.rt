//! Rows of the program's command as its users see it: words, files and devices in, a status and a text
//! out.
//!
//! *From* tables of rows, whose files the words of the command line name, *to* a line for each row:
//! `ok: ` or `FAILED: `, and what the row shows. *Stands on* `scotty_run`, with files and a sink in
//! memory. *Promise*: none; the rows are data, so that one more costs no proof, and what is printed of
//! them is stored. `Row` says what stands in one.
#![tactic(auto)]

mod judge;
mod list;
mod noted;
mod outcome;
mod row;
mod run;
mod spelled;

use anyhow::Result;
use judge::judge_table;
use std::{env, fs};

fn main(rt: HostRuntime) -> Result<()> {
    for name in env::args(&rt)?.skip(1) {
        let text = fs::read_to_string(&rt, name.as_str())?;
        judge_table(&rt, rt.alloc(), name.as_str(), text.as_str())?;
    }
    Ok(())
}
