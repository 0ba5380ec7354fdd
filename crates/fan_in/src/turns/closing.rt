ghost use Rattle.std.specs.Prelude.{◌≡◌, ◌<◌, All, length, IfOk, OnOk};
ghost use Rattle.turnstile.specs.Passes.{fixed};
ghost use Rattle.fan_in.specs.Floors.{IsZero, known_in};
ghost use Rattle.fan_in.specs.Closings.{AreClosed, EndAt, IsClosed, IsColumn, IsStandingOf, LoseLast, SettlesLast};

use crate::plan::Plan;
use crate::turns::by_source::{BySource, SourceDesk};
use crate::turns::floor::Floor;
use shard_core::Shard;
use std::alloc::Global;
use std::sync::Wait;
use stream_base::NoMemory;
use turnstile::Pass;

// Closes all desks, from the last one down, each with all its passes, and hands their shards out in
// the order of the desks. Where one can't be closed, none is handed out.
pub(crate) fn close_all<R: Wait>(
    rt: &R,
    alloc: Global,
    plan: &Plan,
    floor: Floor,
    rows: &mut [Vec<Pass<BySource>>],
) -> Result<Vec<Shard>, NoMemory>
    requires standing { IsStandingOf plan.now floor rows.old }
    ensures many { IfOk result (λ shards. length shards.items ≡ length floor.desks.items) }
    ensures closed { IfOk result (λ shards. AreClosed (known_in plan.now)
        rows.old shards.items) }
{
    let Floor {
        mut desks,
        mut zeros,
    } = floor;
    let mut shards = Vec::with_capacity(alloc, usize::from(plan.shards))?;
    while let Some(desk) = desks.pop() {
        match zeros.pop() {
            Some(zero) => {
                let shard = close_desk(rt, alloc, desk, zero, rows)?;
                shards.push(shard)?;
            }
            None => unreachable!(),
        }
    }
    shards.reverse();
    Ok(shards)
}

// Closes a desk with pass zero and the last pass of each row, which are all its passes.
fn close_desk<R: Wait>(
    rt: &R,
    alloc: Global,
    desk: SourceDesk,
    zero: Pass<BySource>,
    rows: &mut [Vec<Pass<BySource>>],
) -> Result<Shard, NoMemory>
    requires zero { IsZero desk (fixed zero) (length rows.old) zero }
    requires rows { EndAt desk (fixed zero) rows.old }
    ensures closed { IfOk result (λ shard. IsClosed (fixed zero) shard) }
    ensures settled { IfOk result (λ shard. SettlesLast shard rows.old) }
    ensures rows { OnOk result (LoseLast rows.old rows.new) }
{
    let column = column_of(alloc, zero, rows)?;
    match desk.close(rt, alloc, column) {
        Ok((booked, _)) => Ok(booked.into_shard()),
        Err(_) => Err(NoMemory),
    }
}

// Pass zero, and the last pass of each row.
fn column_of(
    alloc: Global,
    zero: Pass<BySource>,
    rows: &mut [Vec<Pass<BySource>>],
) -> Result<Vec<Pass<BySource>>, NoMemory>
    requires some { All (λ row. 0 < length row.items) rows.old }
    ensures column { IfOk result (λ column. IsColumn zero rows.old column.items) }
    ensures rows { OnOk result (LoseLast rows.old rows.new) }
{
    let mut column = Vec::with_capacity(alloc, rows.len())?;
    column.push(zero)?;
    for i in 0..rows.len() {
        match rows[i].pop() {
            Some(pass) => column.push(pass)?,
            None => unreachable!(),
        }
    }
    Ok(column)
}
