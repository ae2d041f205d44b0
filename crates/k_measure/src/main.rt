//! Measures the running tables: does one measurement of a given size, and prints what came of it.
//!
//! The words are the name of a measurement and a size, such as `mark 1000000`. Those of the heap are `make`, `place`, `link`,
//! `mark`, `sweep`, `mark_half` and `sweep_half`; each does those before it, too. `add`, `has` and `drain` are those of the
//! exit items, `up`, `down` and `walk` those of the entry items. `again` and `dead` collect one heap again and again,
//! `wide` marks one of 129 segments, and `mark_foreign` one of whose references half lead to another heap. With a third word `timed` the processor time of each phase, in nanoseconds, goes
//! to standard error. The line on standard output depends on no time, so it is compared with that of the twin in `bench/`. The
//! exit status is 0, or 2 where the words are no measurement, or 1 where memory, the words or the output fail.
#![tactic(auto)]

ghost use Rattle.std.specs.Prelude.{◌≤◌};

mod entries;
mod exits;
mod foreign;
mod heap;
mod names;
mod watch;
mod wide;

use crate::entries::Last;
use crate::heap::Stage;
use crate::watch::Watch;
use k_types::NoMemory;
use std::env;
use std::process::ExitCode;

/// The largest size.
const MOST: u32 = 10_000_000;

/// The size that the word spells; 0 where it spells none.
fn size_of(word: &str) -> u32
    ensures { result ≤ 10000000 }
{
    match word.parse::<u32>() {
        Ok(size) => size.min(MOST),
        Err(_) => 0,
    }
}

/// The stage of the heap of that name.
fn stage_of(word: &str) -> Option<Stage> {
    match word {
        "make" => Some(Stage::Make),
        "place" => Some(Stage::Place),
        "link" => Some(Stage::Link),
        "mark" => Some(Stage::Mark),
        "sweep" => Some(Stage::Sweep),
        "mark_half" => Some(Stage::MarkHalf),
        "sweep_half" => Some(Stage::SweepHalf),
        _ => None,
    }
}

/// Does the measurement of that name, and gives its line; nothing where no measurement has the name.
fn measured(
    rt: &HostRuntime,
    word: &str,
    size: u32,
    watch: &mut Watch,
) -> Result<Option<String>, NoMemory>
    requires { size ≤ 10000000 }
{
    let alloc = rt.alloc();
    if let Some(last) = stage_of(word) {
        let found = heap::run(rt, watch, size, last)?;
        return Ok(Some(format!(in alloc;
            "{word} {size}: {} objects of {} bytes, {} freed of {} bytes",
            found.objects, found.bytes, found.freed, found.freed_bytes
        )?));
    }
    if word == "again" || word == "dead" {
        let (live, rounds) = if word == "again" {
            (size / 10 * 3, 4_000)
        } else {
            (10, 60_000)
        };
        let found = heap::run_again(rt, watch, size, live, rounds)?;
        return Ok(Some(format!(in alloc;
            "{word} {size}: {} objects of {} bytes, {} freed of {} bytes",
            found.objects, found.bytes, found.freed, found.freed_bytes
        )?));
    }
    if word == "add" || word == "has" {
        let found = exits::run(rt, watch, size, word == "has")?;
        return Ok(Some(format!(in alloc;
            "{word} {size}: {} targets, {} new, {} there",
            found.targets, found.new, found.there
        )?));
    }
    if word == "up" || word == "down" {
        let last = if word == "up" { Last::Up } else { Last::Down };
        let total = entries::run(rt, watch, size, last)?;
        return Ok(Some(format!(in alloc; "{word} {size}: the counts are {total} in all")?));
    }
    if word == "wide" {
        let bytes = wide::run(rt, watch, size)?;
        return Ok(Some(format!(in alloc; "{word} {size}: {bytes} bytes are marked")?));
    }
    if word == "mark_foreign" {
        let found = foreign::run(rt, watch, size)?;
        return Ok(Some(format!(in alloc;
            "{word} {size}: {} bytes, {} exit items marked, {} not",
            found.bytes, found.targets, found.others
        )?));
    }
    if word == "walk" {
        let total = entries::run(rt, watch, size, Last::Walk)?;
        return Ok(Some(format!(in alloc; "{word} {size}: the serials are {total} in all")?));
    }
    if word == "drain" {
        let found = exits::run_drain(rt, watch, size)?;
        return Ok(Some(format!(in alloc;
            "{word} {size}: {} targets, {} drained",
            found.targets, found.drained
        )?));
    }
    Ok(None)
}

/// The words after the program's name.
fn words(rt: &HostRuntime) -> Result<Vec<String>, NoMemory> {
    match env::args(rt) {
        Ok(args) => Ok(args.skip(1).collect(rt.alloc())?),
        Err(error) => match NoMemory::told_by(&error) {
            Some(refused) => Err(refused),
            None => Ok(Vec::new(rt.alloc())),
        },
    }
}

fn main(rt: HostRuntime) -> ExitCode {
    let Ok(words) = words(&rt) else {
        return ExitCode::from(1);
    };
    let (word, size, is_timed) = match words.as_slice() {
        [word, size] => (word, size, false),
        [word, size, _] => (word, size, true),
        _ => return ExitCode::from(2),
    };
    let mut watch = Watch::start(&rt, is_timed);
    match measured(&rt, word.as_str(), size_of(size.as_str()), &mut watch) {
        Ok(Some(line)) => ExitCode::from(println!(rt; "{line}").is_err() as u8),
        Ok(None) => ExitCode::from(2),
        Err(_) => ExitCode::from(1),
    }
}
