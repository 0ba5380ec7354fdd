//! Whether the commands of rows end as the rows say.
use crate::list::elements;
use crate::outcome::Outcome;
use crate::row::{Row, row_of};
use crate::run::run_of;
use crate::spelled::spelled;
use anyhow::{Context, Result};
use std::alloc::{AllocError, Global};
use std::sync::Wait;
use std::thread::Threads;

/// Tries each row of a table, and prints how it went.
pub fn judge_table<R: Print + Threads + Wait + Sync>(
    rt: &R,
    alloc: Global,
    name: &str,
    text: &str,
) -> Result<()> {
    let table = toml::table_from_str(alloc, text).context(format_args!("{name}"))?;
    let rows = elements(&table, "row").context("no rows")?;
    for (i, value) in rows.iter().enumerate() {
        match value.as_table().and_then(row_of) {
            Some(row) => judge_row(rt, alloc, &row)?,
            None => println!(rt; "FAILED: row {i} of {name} can't be read")?,
        }
    }
    Ok(())
}

fn judge_row<R: Print + Threads + Wait + Sync>(rt: &R, alloc: Global, row: &Row<'_>) -> Result<()> {
    for value in row.commands {
        let command = value.as_str().unwrap_or_default();
        if !command_holds(rt, alloc, row, command)? {
            return Ok(());
        }
    }
    let shows = row.shows;
    println!(rt; "ok: {shows}")?;
    Ok(())
}

// Whether a command ends as its row says: in the run of each read or write that fails, and in the one
// behind them.
fn command_holds<R: Print + Threads + Wait + Sync>(
    rt: &R,
    alloc: Global,
    row: &Row<'_>,
    command: &str,
) -> Result<bool> {
    let failing = row.each_write.max(row.failing_reads());
    for number in 0..failing.saturating_add(1) {
        if !run_holds(rt, alloc, row, command, number)? {
            return Ok(false);
        }
    }
    Ok(true)
}

// Whether a run ends as its row says. Where it doesn't, that is printed.
fn run_holds<R: Print + Threads + Wait + Sync>(
    rt: &R,
    alloc: Global,
    row: &Row<'_>,
    command: &str,
    number: u64,
) -> Result<bool> {
    let outcome = run_of(rt, alloc, row, command, number)?;
    if is_as_said(alloc, row, &outcome, number)? {
        return Ok(true);
    }
    let shows = row.shows;
    let status = outcome.status;
    println!(rt; "FAILED: {shows} (run {number} of `{command}` ended with {status})")?;
    println!(rt; "{}", str::from_utf8(&outcome.text).unwrap_or("no text"))?;
    for open in &outcome.opens {
        println!(rt; "{} {}", open.name, open.fate.word())?;
    }
    Ok(false)
}

// Whether the run of this number has ended as its row says.
fn is_as_said(
    alloc: Global,
    row: &Row<'_>,
    outcome: &Outcome,
    number: u64,
) -> Result<bool, AllocError> {
    let answer = match row.each_read {
        Some(each) if number < each.many => each.answer,
        _ => row.answer,
    };
    if !row.opens.is_none_or(|opens| outcome.opened(opens)) {
        return Ok(false);
    }
    let text = spelled(alloc, answer.text)?;
    if number < row.each_write {
        let many = number.saturating_mul(row.devices.piece);
        Ok(outcome.is_cut_off(answer, text.as_str(), many))
    } else {
        Ok(outcome.is(answer, text.as_str()))
    }
}
