//! Calls of the program with bytes in memory, as its tests make them.
//!
//! A function that owns what a call is given is proved to drop all of it wherever it may return, and one that calls the program looks at all
//! that the program promises. So a call is made in one place, which promises nothing, and tests lend what they have.
use k_io::{Gate, MemSink, MemSource, NoGate, NoMemory, Sink, Source};
use k_top::{Status, gathered_call, kaffe, program};
use std::alloc::Global;
use std::marker::Brand;
use std::process::{Abort, ExitCode};
use std::sync::Wait;
use std::thread::Threads;

/// A header with a tree of limits, two processes and a shared heap; an operation behind it stands on line 10.
pub const HEADER: &str = "kaffe 1
kernel 200 2
type Node ref ref int
limit root 1000
limit a root hard 120
limit b root soft 400
proc p1 a
proc p2 b
shared s
";

/// The most bytes that a call can write here.
pub const ROOM: usize = 4_000_000;

/// Which read and which write of a call fail, counted from 1; none where it is 0.
#[derive(Clone, Copy)]
pub struct Faults {
    pub read: u32,
    pub write: u32,
}

/// No read fails, and no write.
pub const NO_FAULTS: Faults = Faults { read: 0, write: 0 };

/// Calls the program, and promises nothing of it.
fn answer<S: Source, K: Sink, G: Gate, R: Threads + Wait + Sync>(
    rt: &R,
    alloc: Global,
    words: &[String],
    source: &mut S,
    sink: &mut K,
    gate: &G,
) -> Status {
    kaffe(rt, alloc, words, source, sink, gate)
}

/// Calls the program with the arguments of its command line, and promises nothing of it.
fn end<S: Source, K: Sink, R: Threads + Wait + Sync>(
    rt: &R,
    alloc: Global,
    arguments: Vec<String>,
    source: &mut S,
    sink: &mut K,
) -> ExitCode {
    program(rt, alloc, Ok(arguments.into_iter()), source, sink, &NoGate)
}

/// Appends the words of the line.
fn push_words(words: &mut Vec<String>, alloc: Global, line: &str) -> Result<(), NoMemory> {
    for word in line.split_whitespace() {
        words.push(String::from_str(alloc, word)?)?;
    }
    Ok(())
}

/// The words of the line.
fn words_of(alloc: Global, line: &str) -> Result<Vec<String>, NoMemory> {
    let mut words = Vec::new(alloc);
    push_words(&mut words, alloc, line)?;
    Ok(words)
}

/// A source that gives the input. The read of that number fails.
fn source_of(alloc: Global, input: &str, failing_read: u32) -> Result<MemSource, NoMemory> {
    let fails = Vec::from_slice(alloc, &[failing_read])?;
    let bytes = Vec::from_slice(alloc, input.as_bytes())?;
    Ok(MemSource::of(bytes, fails))
}

/// A sink that takes whole pieces. The write of that number fails.
fn sink_of(alloc: Global, failing_write: u32) -> Result<MemSink, NoMemory> {
    let fails = Vec::from_slice(alloc, &[failing_write])?;
    MemSink::make(alloc, ROOM, fails)
}

/// What a call is given: its words, what it can read, and where it can write.
pub struct Given {
    words: Vec<String>,
    source: MemSource,
    sink: MemSink,
}

// A derived drop would be proved part by part wherever a test may return.
impl Drop for Given {
    fn drop(self) {
        let Given {
            words: _,
            source: _,
            sink: _,
        } = self;
    }
}

impl Given {
    /// The words of the line, and the input.
    pub fn make(alloc: Global, line: &str, input: &str, faults: Faults) -> Result<Given, NoMemory> {
        let sink = sink_of(alloc, faults.write)?;
        let source = source_of(alloc, input, faults.read)?;
        let words = words_of(alloc, line)?;
        Ok(Given {
            words,
            source,
            sink,
        })
    }

    /// The answer of the program, which tells the gate where it stands.
    pub fn answer<G: Gate, R: Threads + Wait + Sync>(
        &mut self,
        rt: &R,
        alloc: Global,
        gate: &G,
    ) -> Status {
        answer(
            rt,
            alloc,
            &self.words,
            &mut self.source,
            &mut self.sink,
            gate,
        )
    }

    /// The answer of the program, which reads another source.
    pub fn answer_from<S: Source, R: Threads + Wait + Sync>(
        &mut self,
        rt: &R,
        alloc: Global,
        source: &mut S,
    ) -> Status {
        answer(rt, alloc, &self.words, source, &mut self.sink, &NoGate)
    }

    /// The answer of the program, which writes to another sink.
    pub fn answer_into<K: Sink, R: Threads + Wait + Sync>(
        &mut self,
        rt: &R,
        alloc: Global,
        sink: &mut K,
    ) -> Status {
        answer(rt, alloc, &self.words, &mut self.source, sink, &NoGate)
    }

    /// The answer of the program before whose sink stands one that gathers.
    pub fn answer_gathered<R: Threads + Wait + Sync>(&mut self, rt: &R, alloc: Global) -> Status {
        let (status, _sink) = gathered_call::<Brand, MemSource, MemSink, NoGate, R>(
            rt,
            alloc,
            &self.words,
            &mut self.source,
            &mut self.sink,
            &NoGate,
        );
        status
    }

    /// What the program wrote.
    pub fn written(&self) -> &str {
        match str::from_utf8(self.sink.bytes()) {
            Ok(text) => text,
            Err(_) => "what was written is no text",
        }
    }
}

/// Has the program end, whose name and words are those of the line, and compares its exit status and what it wrote. The read and the write
/// of those numbers fail.
pub fn check_end<R: Abort + Threads + Wait + Sync>(
    rt: &R,
    alloc: Global,
    line: &str,
    input: &str,
    faults: Faults,
    want: u8,
    text: &str,
) -> Result<(), NoMemory> {
    let mut given = Given::make(alloc, "", input, faults)?;
    let arguments = words_of(alloc, line)?;
    let code = end(rt, alloc, arguments, &mut given.source, &mut given.sink);
    assert_eq!(rt; given.written(), text, "{line}");
    assert_eq!(rt; code, ExitCode::from(want), "{line}");
    Ok(())
}

/// Has the program answer, and compares the status and what it wrote. Where they differ it tells the input.
pub fn check_given<G: Gate, R: Abort + Threads + Wait + Sync>(
    rt: &R,
    alloc: Global,
    given: &mut Given,
    gate: &G,
    input: &str,
    want: Status,
    text: &str,
) {
    let status = given.answer(rt, alloc, gate);
    assert_eq!(rt; given.written(), text, "{input}");
    assert_eq!(rt; status, want, "{input}");
}

/// Calls the program with the words of the line and the input. The read and the write of those numbers fail. Compares the status and what
/// was written.
pub fn check_faults<R: Abort + Threads + Wait + Sync>(
    rt: &R,
    alloc: Global,
    line: &str,
    input: &str,
    faults: Faults,
    want: Status,
    text: &str,
) -> Result<(), NoMemory> {
    let mut given = Given::make(alloc, line, input, faults)?;
    check_given(rt, alloc, &mut given, &NoGate, input, want, text);
    Ok(())
}

/// The same without faults.
pub fn check_call<R: Abort + Threads + Wait + Sync>(
    rt: &R,
    alloc: Global,
    line: &str,
    input: &str,
    want: Status,
    text: &str,
) -> Result<(), NoMemory> {
    check_faults(rt, alloc, line, input, NO_FAULTS, want, text)
}

/// The same of an input in two parts, without faults.
pub fn check_joined<R: Abort + Threads + Wait + Sync>(
    rt: &R,
    alloc: Global,
    line: &str,
    front: &str,
    rest: &str,
    want: Status,
    text: &str,
) -> Result<(), NoMemory> {
    let input = format!(in alloc; "{front}{rest}")?;
    check_call(rt, alloc, line, &input, want, text)
}
