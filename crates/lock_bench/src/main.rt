//! Counts the reads that threads make of a lease table under a lock, alone and beside a writer.
//!
//! `lock_bench MILLISECONDS` reads for this time under each lock and prints reads a second. With no
//! argument each thread makes one round of reads, and the counts are printed, which are the same in
//! each run. `lock_bench LANES SLICES WRITES` makes this many writes alone and prints nothing, to
//! measure what they cost.
#![tactic(auto)]

mod measure;
mod seats;
mod table;

use measure::{Load, run, write_alone};
use seats::Kind;
use std::alloc::Global;
use std::env::Env;
use std::io::{self, Print};
use std::process::ExitCode;
use std::sync::Wait;
use std::thread::Threads;
use std::time::Clock;

const READERS: [u64; 3] = [1, 2, 4];

// Returns the number that an argument writes, or 0.
fn number(rt: &impl Env, place: usize) -> u64 {
    let mut buffer = [0u8; 16];
    let read = rt.arg(place, &mut buffer).ok();
    let text = read.and_then(|len| str::from_utf8(buffer.get(..len)?).ok());
    text.and_then(|text| text.parse::<u64>().ok()).unwrap_or(0)
}

// Runs one load and prints a line for it.
fn report<R: Threads + Wait + Clock + Print + Sync>(
    rt: &R,
    alloc: Global,
    kind: Kind,
    load: Load,
) -> io::Result<bool> {
    let Some(count) = run(rt, alloc, kind, load) else {
        return Ok(false);
    };
    let (readers, writers) = (load.readers, u64::from(load.has_writer));
    let millis = load.millis;
    if millis == 0 {
        let (reads, writes) = (count.reads, count.writes);
        println!(rt;
            "{kind:?} readers {readers} writers {writers}: reads {reads}, writes {writes}"
        )?;
    } else {
        let (reads, writes) = (count.reads / millis, count.writes);
        println!(rt;
            "{kind:?} readers {readers} writers {writers}: {reads} thousand reads a second, {writes} writes"
        )?;
    }
    Ok(true)
}

// Runs all loads for this time, and returns whether there was memory for them.
fn report_all<R: Threads + Wait + Clock + Print + Sync>(
    rt: &R,
    alloc: Global,
    millis: u64,
) -> io::Result<bool> {
    for kind in [Kind::Lanes, Kind::ReadWrite, Kind::Mutex] {
        for has_writer in [false, true] {
            for readers in READERS {
                let load = Load {
                    readers,
                    has_writer,
                    millis,
                };
                if !report(rt, alloc, kind, load)? {
                    return Ok(false);
                }
            }
        }
    }
    Ok(true)
}

fn main(rt: HostRuntime) -> io::Result<ExitCode> {
    let (first, slices, writes) = (number(&rt, 1), number(&rt, 2), number(&rt, 3));
    let is_done = if slices == 0 {
        report_all(&rt, rt.alloc(), first)?
    } else {
        write_alone(&rt, rt.alloc(), first, slices, writes) == Some(writes)
    };
    Ok(ExitCode::from(if is_done { 0 } else { 3 }))
}
