//! Cases, each a line: what is read, done and written of it.
use crate::calls::call;
use crate::outputs::{tell_difference, tell_text};
use std::rt::Files;
use std::sync::Wait;
use std::thread::Threads;
use std::{fs, io};

/// What stands between the names of the files of an input.
const BETWEEN_FILES: char = '+';

/// A case, as its line has it.
#[derive(Clone, Copy)]
struct Case<'a> {
    /// The files of the input.
    files: &'a str,
    /// What is wanted of the output.
    wanted: &'a str,
    /// The words of the command line.
    words: &'a str,
}

/// The case of the line; `None` where it is no case.
fn case_of(line: &str) -> Option<Case<'_>> {
    if line.starts_with('#') {
        return None;
    }
    let Some((files, rest)) = line.split_once(' ') else {
        return None;
    };
    let (wanted, words) = match rest.split_once(' ') {
        Some(parts) => parts,
        None => (rest, ""),
    };
    Some(Case {
        files,
        wanted,
        words,
    })
}

/// Appends the bytes of the files.
fn push_files<R: AllocGlobal + Files>(rt: &R, files: &str, input: &mut Vec<u8>) -> io::Result<()> {
    for name in files.split(BETWEEN_FILES) {
        input.extend_from_slice(&fs::read(rt, name)?)?;
    }
    Ok(())
}

/// Writes the exit status of `check` and what it says of the report after the input.
fn tell_check<R: AllocGlobal + Print + Threads + Wait + Sync>(
    rt: &R,
    input: &[u8],
    report: &[u8],
) -> io::Result<()> {
    let mut both = Vec::from_slice(rt.alloc(), input)?;
    both.extend_from_slice(report)?;
    let mut said = Vec::new(rt.alloc());
    let status = call(rt, "check", &both, &mut said)?;
    print!(rt; "checked {status} ")?;
    tell_text(rt, &said)
}

/// Writes whether the output of that input is as wanted.
fn tell_output<R: AllocGlobal + Files + Print + Threads + Wait + Sync>(
    rt: &R,
    wanted: &str,
    input: &[u8],
    output: &[u8],
) -> io::Result<()> {
    match wanted {
        "-" => tell_text(rt, output),
        "good" => tell_check(rt, input, output),
        file => tell_difference(rt, file, output),
    }
}

/// Does the case, and writes what came of it.
fn tell_case<R: AllocGlobal + Files + Print + Threads + Wait + Sync>(
    rt: &R,
    case: &Case<'_>,
) -> io::Result<()> {
    let mut input = Vec::new(rt.alloc());
    push_files(rt, case.files, &mut input)?;
    let mut output = Vec::new(rt.alloc());
    let status = call(rt, case.words, &input, &mut output)?;
    print!(rt; "{status} ")?;
    tell_output(rt, case.wanted, &input, &output)
}

/// Writes the line, and after it what came of its case, where it has one.
pub fn tell_line<R: AllocGlobal + Files + Print + Threads + Wait + Sync>(
    rt: &R,
    line: &str,
) -> io::Result<()> {
    match case_of(line) {
        Some(case) => {
            print!(rt; "{line}: ")?;
            tell_case(rt, &case)
        }
        None => println!(rt; "{line}"),
    }
}
