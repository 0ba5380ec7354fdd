//! The rows by their names.
use crate::desk::desk;
use crate::full::full;
use crate::gathers::{gathers, made};
use crate::history::{EVENTS, MARKS, SESSIONS, TUMBLING, TWO_KEYS};
use crate::mail::mail;
use crate::shards::{one_shard, two_shards};
use crate::trouble::Trouble;
use crate::way::Way;
use outside::Sink;
use std::alloc::Global;
use std::sync::Wait;
use std::thread::Threads;

/// Makes the calls of a row, and prints what they come to. Nothing is printed before the last of them.
pub fn run_row<R: Print + Threads + Wait + Sync, K: Sink>(
    rt: &R,
    alloc: Global,
    name: &str,
    sink: &mut K,
) -> Result<(), Trouble> {
    match name {
        "tumbling" => one_shard(rt, alloc, &TUMBLING, sink),
        "sessions" => one_shard(rt, alloc, &SESSIONS, sink),
        "marks" => one_shard(rt, alloc, &MARKS, sink),
        "events" => one_shard(rt, alloc, &EVENTS, sink),
        "two-shards" => two_shards(rt, alloc, &TWO_KEYS, sink),
        "desk" => desk(rt, alloc, sink),
        "full" => full(rt, alloc),
        "mail" => mail(rt, alloc),
        "gathers" => gathers(rt, alloc, sink),
        "made-turns" => made(rt, alloc, Way::Turns, sink),
        "made-mail" => made(rt, alloc, Way::Mail, sink),
        _ => Err(Trouble::Unknown),
    }
}
