//! Has four guests of one host work inside their heaps, by one thread or by several, with each part of the host behind a lock of its own.
//!
//! The words are how many threads and how many rounds; a round of a guest is five operations. It prints how many events the journal has at
//! the end, which depends on no schedule. The exit status is 0, or 2 where the words are no numbers, or 1 where memory, a call or the
//! output fails.
#![tactic(auto)]

mod driving;
mod work;

use crate::driving::driven;
use k_parts::{Host, Rooms};
use k_types::{NoMemory, TypeId};
use std::alloc::Global;
use std::env;
use std::process::ExitCode;
use std::sync::Wait;
use std::thread::Threads;

/// Four processes, each on a limit of its own.
const SETUP: &[u8] = b"kaffe 1\nkernel 4096 4\ntype Node ref ref int\nlimit root 100000\n\
limit a root hard 10000\nlimit b root hard 10000\nlimit c root hard 10000\nlimit d root hard 10000\n\
proc a a\nproc b b\nproc c c\nproc d d\n";

/// The most rounds of a guest.
const MOST_ROUNDS: u32 = 10_000_000;

/// As many events as there can be, none of which is kept.
fn rooms() -> Rooms {
    Rooms::for_objects(1000, 4, 0)
}

/// The words after the program's name.
fn words(rt: &HostRuntime) -> Result<Vec<String>, NoMemory> {
    match env::args(rt) {
        Ok(args) => Ok(args.skip(1).collect(rt.alloc())?),
        Err(error) => match NoMemory::told_by(&error) {
            Some(refused) => Err(refused),
            None => Ok(Vec::new(rt.alloc())),
        },
    }
}

/// How many events the journal has in the end.
fn events<R: Threads + Wait + Sync>(
    rt: &R,
    alloc: Global,
    threads: usize,
    rounds: u32,
) -> Option<u64> {
    let Ok(host) = Host::read(alloc, SETUP, TypeId(0), 10, rooms()) else {
        return None;
    };
    let Ok(events) = driven(rt, alloc, host, threads, rounds) else {
        return None;
    };
    events
}

fn main(rt: HostRuntime) -> ExitCode {
    let Ok(words) = words(&rt) else {
        return ExitCode::from(1);
    };
    let [threads, rounds] = words.as_slice() else {
        return ExitCode::from(2);
    };
    let (Ok(threads), Ok(rounds)) = (threads.parse::<usize>(), rounds.parse::<u32>()) else {
        return ExitCode::from(2);
    };
    match events(&rt, rt.alloc(), threads, rounds.min(MOST_ROUNDS)) {
        Some(events) => ExitCode::from(println!(rt; "{events} events").is_err() as u8),
        None => ExitCode::from(1),
    }
}
