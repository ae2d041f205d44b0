//! Texts that are read and spelled again.
use k_reader::read_trace;
use k_spell::trace_text;
use std::test::Fail;

/// Each form of line, with processes that take turns.
const EACH_FORM: &[u8] = b"kaffe 1
kernel 1099511627775 16
type Empty
type Node ref int ref
limit root 1000
limit a root hard 600
limit b a soft 0
proc p1 a
proc p2 b
shared s
p1 new r0 Node
p2 knew r15 Empty
p1 share s
p1 snew r1 s Node
p1 store r1 0 r1
p2 load r2 r15 15
p1 put r1 1 18446744073709551615
p1 get r1 1
p1 move r3 r1
p1 drop r3
p2 dir r4
p1 freeze s r1
p2 attach r5 s
p2 collect
p2 kcollect
p1 exit
p2 exit
";

#[test]
fn spells_each_form_of_line(rt: HostRuntime) -> Result<(), Fail> {
    let trace = read_trace(rt.alloc(), EACH_FORM)?;
    assert_eq!(rt; trace_text(rt.alloc(), &trace)?.as_slice(), EACH_FORM);
    Ok(())
}

/// The forms that the second version has beside those of the first.
const SECOND_VERSION: &[u8] = b"kaffe 2
kernel 16 0
limit root 1000
limit a root soft 600
proc p0 root
proc p1 a
p0 kill p1
p0 resize a 1099511627775
p1 resize root 0
";

#[test]
fn spells_the_second_version(rt: HostRuntime) -> Result<(), Fail> {
    let trace = read_trace(rt.alloc(), SECOND_VERSION)?;
    assert_eq!(rt; trace_text(rt.alloc(), &trace)?.as_slice(), SECOND_VERSION);
    Ok(())
}

#[test]
fn ends_the_last_line(rt: HostRuntime) -> Result<(), Fail> {
    let trace = read_trace(rt.alloc(), b"kaffe 1\nkernel 16 0\nlimit a 0\nproc p a")?;
    let want = b"kaffe 1\nkernel 16 0\nlimit a 0\nproc p a\n";
    assert_eq!(rt; trace_text(rt.alloc(), &trace)?.as_slice(), want.as_slice());
    Ok(())
}
