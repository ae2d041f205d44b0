//! The top call as tables: each read and each write that fails in turn.
//!
//! Traces with their whole reports, bad inputs and words that are no command are cases of `k_cases`.
use crate::calling::{Faults, Given, NO_FAULTS, ROOM, check_faults};
use crate::summaries::TEN;
use k_io::{DripSink, DripSource, NoMemory};
use k_top::Status;
use std::alloc::Global;
use std::process::Abort;
use std::sync::Wait;
use std::test::Fail;
use std::thread::Threads;

/// The first trace, of one process.
pub const TRACE: &str = "kaffe 1
kernel 32 2
type Node ref ref int
limit a 80
proc p1 a
p1 new r0 Node
p1 new r1 Node
p1 store r0 0 r1
p1 load r2 r0 0
p1 new r3 Node
p1 load r4 r5 0
";

/// Its report.
const REPORT: &str = "report 1
p1 new r0 Node = p1.1
p1 new r1 Node = p1.2
p1 store r0 0 r1 = ok
p1 load r2 r0 0 = p1.2
p1 new r3 Node = fault LimitFull a
p1 load r4 r5 0 = fault Null
graph
kernel.1 kernel directory null null
p1.1 p1 Node p1.2 null 0
p1.2 p1 Node null null 0
roots
p1 r0 p1.1
p1 r1 p1.2
p1 r2 p1.2
exits
shares
faults
p1 2
charges
kernel 32 of 32
limit a 80 of 80
process p1 80
end
";

/// What is written where the words are no command.
pub const USAGE: &str =
    "usage: kaffe run | replay | check | big N | watch K | work | snap | audit | tree\n";

/// A trace in which every sharer pays in full.
pub const SHARING: &str = "kaffe 1
kernel 200 2
type Node ref ref int
limit root 1000
limit a root hard 120
limit b root soft 400
proc p1 a
proc p2 b
shared s
p1 share s
p1 snew r0 s Node
p1 snew r1 s Node
p1 store r0 0 r1
p1 freeze s r0
p2 attach r0 s
";

/// Its report.
pub const SHARERS: &str = "report 1
p1 share s = ok
p1 snew r0 s Node = s.1
p1 snew r1 s Node = s.2
p1 store r0 0 r1 = ok
p1 freeze s r0 = ok
p2 attach r0 s = s.1
graph
kernel.1 kernel directory null null
s.1 s Node s.2 null 0
s.2 s Node null null 0
roots
p1 r0 s.1
p1 r1 s.2
p2 r0 s.1
exits
shares
p1 s
p2 s
faults
p1 0
p2 0
charges
kernel 32 of 200
limit root 200 of 1000
limit a 80 of 120
limit b 80 of 400
process p1 80
process p2 80
shared s 80 frozen s.1
end
";

/// What `work` writes behind the report of the first trace.
const WORK: &str = "work\nprocess p1 0 0\nclosing 0 0\ntotal 0 0\nend\n";

/// What `watch 0` writes behind it.
const SAMPLES: &str = "samples\nsample 6 80 1\nend\n";

/// A trace of the second version, in which the last process ends and the first one ends another.
const ENDING: &str = "kaffe 2
kernel 200 2
type Node ref ref int
limit root 1000
limit a root hard 120
limit b root soft 400
proc p0 root
proc p1 a
proc p2 b
shared s
p1 new r0 Node
p1 dir r1
p1 store r1 0 r0
p2 new r0 Node
p2 exit
p0 resize a 100
p0 kill p1
p0 knew r3 Node
";

/// The snapshot of what it leaves.
const ENDED: &str = "snapshot 1
gone p1
gone p2
made
kernel 2
p0 0
p1 1
p2 1
s 0
graph
kernel.1 kernel directory p1.1 null
kernel.2 kernel Node null null 0
p1.1 kernel Node null null 0
p2.1 kernel Node null null 0
roots
p0 r3 kernel.2
exits
shares
charges
kernel 152 of 200
limit root 100 of 1000
limit a 0 of 100
limit b 0 of 400
process p0 0
process p1 0
process p2 0
shared s 0 unmade
end
";

/// A script in which a process spawns and reaps a child.
const FAMILY: &str = "spawn 1
kernel 200 2
type Node ref ref int
limit root 120
proc p root
child c p
p spawn c 80
c new r0 Node
c new r1 Node
c new r2 Node
p new r0 Node
p new r1 Node
p reap c
p new r1 Node
";

/// The report of the operations that it stands for.
const REAPED: &str = "report 1
p resize c 80 = ok
c new r0 Node = c.1
c new r1 Node = c.2
c new r2 Node = fault LimitFull c
p new r0 Node = p.1
p new r1 Node = fault LimitFull root
p kill c = ok
p resize c 0 = ok
p new r1 Node = p.2
graph
kernel.1 kernel directory null null
p.1 p Node null null 0
p.2 p Node null null 0
c.1 kernel Node null null 0
c.2 kernel Node null null 0
roots
p r0 p.1
p r1 p.2
exits
shares
faults
p 1
c 1
charges
kernel 112 of 200
limit root 80 of 120
limit c 0 of 0
process p 80
process c 0
end
";

/// A call whose read and write of those numbers fail: its words and its input, and what is wanted of it.
type Row = (&'static str, &'static str, u32, u32, Status, &'static str);

/// Reads that fail. The first one gives the input, the second its end, and there is no third. Words that are no command, and `big`, read
/// nothing.
const READS: [Row; 25] = [
    ("run", TRACE, 1, 0, Status::ReadFault, ""),
    ("run", TRACE, 2, 0, Status::ReadFault, ""),
    ("run", TRACE, 3, 0, Status::Good, REPORT),
    ("check", TRACE, 1, 0, Status::ReadFault, ""),
    ("check", TRACE, 2, 0, Status::ReadFault, ""),
    ("check", TRACE, 3, 0, Status::Refused, "refused 1\n"),
    ("work", TRACE, 1, 0, Status::ReadFault, ""),
    ("work", TRACE, 2, 0, Status::ReadFault, ""),
    ("snap", ENDING, 1, 0, Status::ReadFault, ""),
    ("snap", ENDING, 2, 0, Status::ReadFault, ""),
    ("snap", ENDING, 3, 0, Status::Good, ENDED),
    ("audit", TRACE, 1, 0, Status::ReadFault, ""),
    ("audit", TRACE, 2, 0, Status::ReadFault, ""),
    ("audit", TRACE, 3, 0, Status::Refused, "refused 1\n"),
    ("tree", FAMILY, 1, 0, Status::ReadFault, ""),
    ("tree", FAMILY, 2, 0, Status::ReadFault, ""),
    ("tree", FAMILY, 3, 0, Status::Good, REAPED),
    (
        "tree",
        TRACE,
        3,
        0,
        Status::BadTrace,
        "bad trace: line 1 reason 4\n",
    ),
    ("big 10", "", 1, 0, Status::Good, TEN),
    ("", TRACE, 1, 0, Status::Usage, USAGE),
    ("run x", TRACE, 1, 0, Status::Usage, USAGE),
    ("big 0", TRACE, 1, 0, Status::Usage, USAGE),
    ("snap 1", TRACE, 1, 0, Status::Usage, USAGE),
    ("audit 1", TRACE, 1, 0, Status::Usage, USAGE),
    ("tree 1", FAMILY, 1, 0, Status::Usage, USAGE),
];

/// First writes that fail. A text that is no report is one piece.
const WRITES: [Row; 9] = [
    ("run", "", 0, 1, Status::WriteFault, ""),
    ("help", TRACE, 0, 1, Status::WriteFault, ""),
    ("check", TRACE, 0, 1, Status::WriteFault, ""),
    ("big 10", "", 0, 1, Status::WriteFault, ""),
    ("work", TRACE, 0, 1, Status::WriteFault, ""),
    ("snap", ENDING, 0, 1, Status::WriteFault, ""),
    ("audit", TRACE, 0, 1, Status::WriteFault, ""),
    ("tree", FAMILY, 0, 1, Status::WriteFault, ""),
    ("tree", TRACE, 0, 1, Status::WriteFault, ""),
];

/// Calls the program once for each row.
fn check_rows<R: Abort + Threads + Wait + Sync>(
    rt: &R,
    alloc: Global,
    rows: &[Row],
) -> Result<(), NoMemory> {
    for (words, input, read, write, want, text) in rows {
        let faults = Faults {
            read: *read,
            write: *write,
        };
        check_faults(rt, alloc, words, input, faults, *want, text)?;
    }
    Ok(())
}

#[test]
fn tells_each_read_that_fails(rt: HostRuntime) -> Result<(), Fail> {
    check_rows(&rt, rt.alloc(), &READS)?;
    Ok(())
}

#[test]
fn tells_a_short_text_that_is_not_taken(rt: HostRuntime) -> Result<(), Fail> {
    check_rows(&rt, rt.alloc(), &WRITES)?;
    Ok(())
}

/// A source that gives a byte of the trace at each read. The read of that number fails.
fn drip_source(alloc: Global, trace: &str, failing_read: u32) -> Result<DripSource, NoMemory> {
    let fails = Vec::from_slice(alloc, &[failing_read])?;
    let bytes = Vec::from_slice(alloc, trace.as_bytes())?;
    Ok(DripSource::of(bytes, fails))
}

/// Replays the trace byte by byte. The read of that number fails.
fn check_reads<R: Abort + Threads + Wait + Sync>(
    rt: &R,
    alloc: Global,
    trace: &str,
    failing_read: u32,
    want: Status,
    text: &str,
) -> Result<(), NoMemory> {
    let mut source = drip_source(alloc, trace, failing_read)?;
    let mut given = Given::make(alloc, "replay", "", NO_FAULTS)?;
    let status = given.answer_from(rt, alloc, &mut source);
    assert_eq!(rt; status, want, "read {failing_read}");
    assert_eq!(rt; given.written(), text, "read {failing_read}");
    Ok(())
}

/// Replays the trace as often as it has bytes, and twice more, each time with another read that fails. The last but one gives the end of
/// input, and the last one is not asked for.
fn check_all_reads<R: Abort + Threads + Wait + Sync>(
    rt: &R,
    alloc: Global,
    trace: &str,
    report: &str,
) -> Result<(), NoMemory> {
    let mut failing_read = 1;
    for _ in trace.bytes() {
        check_reads(rt, alloc, trace, failing_read, Status::ReadFault, "")?;
        failing_read = failing_read.saturating_add(1);
    }
    check_reads(rt, alloc, trace, failing_read, Status::ReadFault, "")?;
    let none = failing_read.saturating_add(1);
    check_reads(rt, alloc, trace, none, Status::Good, report)
}

#[test]
fn tells_each_byte_that_is_not_given(rt: HostRuntime) -> Result<(), Fail> {
    check_all_reads(&rt, rt.alloc(), SHARING, SHARERS)?;
    Ok(())
}

/// Calls the program as often as what it writes has lines, and once more. The next line is not taken each time. Those before it are
/// appended to what was written.
fn check_writes<R: Abort + Threads + Wait + Sync>(
    rt: &R,
    alloc: Global,
    words: &str,
    trace: &str,
    text: &str,
    written: &mut String,
) -> Result<(), NoMemory> {
    let mut faults = Faults { read: 0, write: 1 };
    for line in text.split_inclusive('\n') {
        let before = written.as_str();
        check_faults(rt, alloc, words, trace, faults, Status::WriteFault, before)?;
        written.push_str(line)?;
        faults.write = faults.write.saturating_add(1);
    }
    check_faults(rt, alloc, words, trace, faults, Status::Good, text)
}

/// The same where nothing was written before.
fn check_each_line<R: Abort + Threads + Wait + Sync>(
    rt: &R,
    alloc: Global,
    words: &str,
    trace: &str,
    text: &str,
) -> Result<(), NoMemory> {
    let mut written = String::new(alloc);
    check_writes(rt, alloc, words, trace, text, &mut written)
}

#[test]
fn tells_each_line_that_is_not_taken(rt: HostRuntime) -> Result<(), Fail> {
    check_each_line(&rt, rt.alloc(), "replay", SHARING, SHARERS)?;
    check_each_line(&rt, rt.alloc(), "snap", ENDING, ENDED)?;
    check_each_line(&rt, rt.alloc(), "tree", FAMILY, REAPED)?;
    Ok(())
}

/// Has the command write the report of the first trace and the text behind it, of which one line after the other is not taken.
fn check_behind<R: Abort + Threads + Wait + Sync>(
    rt: &R,
    alloc: Global,
    words: &str,
    behind: &str,
) -> Result<(), NoMemory> {
    let text = format!(in alloc; "{REPORT}{behind}")?;
    check_each_line(rt, alloc, words, TRACE, &text)
}

#[test]
fn tells_each_line_behind_a_report_that_is_not_taken(rt: HostRuntime) -> Result<(), Fail> {
    check_behind(&rt, rt.alloc(), "work", WORK)?;
    check_behind(&rt, rt.alloc(), "watch 0", SAMPLES)?;
    Ok(())
}

/// Replays the trace before a sink that gathers. The write of that number fails.
fn check_gathered<R: Abort + Threads + Wait + Sync>(
    rt: &R,
    alloc: Global,
    failing_write: u32,
    want: Status,
    text: &str,
) -> Result<(), NoMemory> {
    let faults = Faults {
        read: 0,
        write: failing_write,
    };
    let mut given = Given::make(alloc, "replay", TRACE, faults)?;
    let status = given.answer_gathered(rt, alloc);
    assert_eq!(rt; status, want, "write {failing_write}");
    assert_eq!(rt; given.written(), text, "write {failing_write}");
    Ok(())
}

#[test]
fn gathers_a_short_report_for_one_write(rt: HostRuntime) -> Result<(), Fail> {
    check_gathered(&rt, rt.alloc(), 1, Status::WriteFault, "")?;
    check_gathered(&rt, rt.alloc(), 2, Status::Good, REPORT)?;
    Ok(())
}

/// A sink that takes a byte at each write. The write of that number fails.
fn drip_sink(alloc: Global, failing_write: u32) -> Result<DripSink, NoMemory> {
    let fails = Vec::from_slice(alloc, &[failing_write])?;
    DripSink::make(alloc, ROOM, fails)
}

/// Replays the trace. The report is taken byte by byte, and the write of that number fails.
fn check_taken<R: Abort + Threads + Wait + Sync>(
    rt: &R,
    alloc: Global,
    trace: &str,
    failing_write: u32,
    want: Status,
    taken: &[u8],
) -> Result<(), NoMemory> {
    let mut sink = drip_sink(alloc, failing_write)?;
    let mut given = Given::make(alloc, "replay", trace, NO_FAULTS)?;
    let status = given.answer_into(rt, alloc, &mut sink);
    assert_eq!(rt; status, want, "write {failing_write}");
    assert!(rt; sink.bytes() == taken, "write {failing_write}");
    Ok(())
}

#[test]
fn tells_each_byte_that_is_not_taken(rt: HostRuntime) -> Result<(), Fail> {
    for taken in 0..=SHARERS.len() {
        let want = if taken < SHARERS.len() {
            Status::WriteFault
        } else {
            Status::Good
        };
        let bytes = &SHARERS.as_bytes()[..taken];
        check_taken(&rt, rt.alloc(), SHARING, taken as u32 + 1, want, bytes)?;
    }
    Ok(())
}
