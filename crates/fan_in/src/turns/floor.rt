ghost use Rattle.std.specs.Prelude.{◌≡◌, ◌≤◌, ◌+◌, ◌-◌, ◌^◌, [], length, IfOk, OnOk};
ghost use Rattle.turnstile.specs.Passes.{number, room, fixed, made, born, IsPassOf};
ghost use Rattle.fan_in.specs.Floors.{GainSeats, IsFloorOf, IsZero};

use crate::plan::Plan;
use crate::turns::by_source::{BySource, SourceDesk};
use crate::work::empty_rows;
use shard_core::Shard;
use std::alloc::Global;
use stream_base::NoMemory;
use turnstile::{Pass, Turnstile};

// The desks of all shards, and pass zero of each.
#[derive(Drop)]
pub(crate) struct Floor {
    pub(crate) desks: Vec<SourceDesk>,
    pub(crate) zeros: Vec<Pass<BySource>>,
}

// Opens a desk for each shard, with a pass for each source, which stand in a row for each source.
pub(crate) fn open_floor(
    alloc: Global,
    plan: &Plan,
) -> Result<(Floor, Vec<Vec<Pass<BySource>>>), NoMemory>
    ensures shards { IfOk result (λ r. length r.0.desks.items ≡ plan.now.shards) }
    ensures open { IfOk result (λ r. IsFloorOf plan.now r.0 r.1.items) }
{
    let mut rows = empty_rows(alloc, plan.sources)?;
    let mut floor = Floor {
        desks: Vec::new(alloc),
        zeros: Vec::new(alloc),
    };
    for _k in 0..plan.shards {
        open_desk(alloc, plan, &mut floor, &mut rows)?;
    }
    Ok((floor, rows))
}

// Opens one desk more.
fn open_desk(
    alloc: Global,
    plan: &Plan,
    floor: &mut Floor,
    rows: &mut Vec<Vec<Pass<BySource>>>,
) -> Result<(), NoMemory>
    requires open { IsFloorOf plan.now floor.old rows.old.items }
    ensures one_more { OnOk result
        (length floor.new.desks.items ≡ length floor.old.desks.items + 1) }
    ensures open { OnOk result (IsFloorOf plan.now floor.new rows.new.items) }
{
    let shard = Shard::new(alloc, plan.defs.copy(alloc)?, plan.sources)?;
    let (desk, mut zero) = Turnstile::new(alloc, BySource::new(shard))?;
    hand_passes(&desk, &mut zero, rows.as_mut_slice())?;
    floor.desks.push(desk)?;
    floor.zeros.push(zero)?;
    Ok(())
}

// Makes a pass for each source, with the number one above the source's.
fn hand_passes(
    desk: &SourceDesk,
    zero: &mut Pass<BySource>,
    rows: &mut [Vec<Pass<BySource>>],
) -> Result<(), NoMemory>
    requires own { IsPassOf desk.now zero.old }
    requires first { (number zero.old ≡ 0) × (made zero.old ≡ []) × (born zero.old ≡ []) }
    requires room { room zero.old ≡ 2 ^ 62 - 1 }
    requires few { length rows.old ≤ 16 }
    ensures zero { OnOk result (IsZero desk.now (fixed zero.old) (length rows.old) zero.new) }
    ensures many { length rows.new ≡ length rows.old }
    ensures rows { OnOk result (GainSeats desk.now (fixed zero.old) rows.old rows.new) }
{
    for i in 0..rows.len() {
        let pass = desk.split(zero)?;
        rows[i].push(pass)?;
    }
    Ok(())
}
