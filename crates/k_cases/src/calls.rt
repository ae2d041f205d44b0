//! A call of the program with bytes in memory.
//!
//! One that calls the program looks at all that the program promises. So the call is made in one function, which promises nothing.
use k_io::{NoGate, StdSink, StdSource};
use k_top::{Status, kaffe};
use std::alloc::Global;
use std::io;
use std::sync::Wait;
use std::thread::Threads;

/// Calls the program, and promises nothing of it.
fn answer<R: Threads + Wait + Sync>(
    rt: &R,
    alloc: Global,
    words: &[String],
    source: &mut StdSource<&[u8]>,
    sink: &mut StdSink<&mut Vec<u8>>,
) -> Status {
    kaffe(rt, alloc, words, source, sink, &NoGate)
}

/// Appends the words of the line.
fn push_words(words: &mut Vec<String>, alloc: Global, line: &str) -> io::Result<()> {
    for word in line.split_whitespace() {
        words.push(String::from_str(alloc, word)?)?;
    }
    Ok(())
}

/// Calls the program with the words of the line and the input, and gives its exit status. What it writes is appended to the output.
pub fn call<R: AllocGlobal + Threads + Wait + Sync>(
    rt: &R,
    line: &str,
    input: &[u8],
    output: &mut Vec<u8>,
) -> io::Result<u8> {
    let mut words = Vec::new(rt.alloc());
    push_words(&mut words, rt.alloc(), line)?;
    let mut source = StdSource::of(input);
    let mut sink = StdSink::of(output);
    let status = answer(rt, rt.alloc(), &words, &mut source, &mut sink);
    Ok(status as u8)
}
