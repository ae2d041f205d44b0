//! Worked traces, their reports and bad inputs, which are files: has the program do each case, and writes what came of it.
//!
//! A line of standard input is a case, of three parts with a blank between. The first has the files of the input, joined by `+`, which are read
//! one after the other. The second is what is wanted: a file that is the whole output; a file whose name ends with `.end`, by which the output
//! ends; `good`, where the output is a report that `check` calls good after the input; or `-`, where it is short and is written as it is. What
//! is left are the words of the command line, of which there may be none. A line that begins with `#` is no case.
//!
//! Each line is written again, that of a case with what came of it: its exit status, and whether the output is as wanted. The files stand in
//! `data/`, the cases in `stdin`, and in `stdout` what is to come of them.
#![tactic(auto)]

mod calls;
mod cases;
mod outputs;

use crate::cases::tell_line;
use std::io;

fn main(rt: HostRuntime) -> io::Result<()> {
    for line in rt.lines(rt.alloc()) {
        tell_line(&rt, line?.as_str())?;
    }
    Ok(())
}
