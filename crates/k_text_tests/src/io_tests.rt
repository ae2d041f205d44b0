//! Tests of what no clause says of sources and sinks.
use k_io::{
    DripSink, DripSource, MemSink, MemSource, ReadAllError, ReadFailed, Sink, Source, StdSink,
    StdSource, WriteFailed, read_all, write_all,
};
use std::io;
use std::io::{Read, Write};
use std::test::Fail;

/// Gives two bytes, then an error, then the end.
#[derive(Drop)]
struct TwoBytes {
    calls: u8,
}

impl Read for TwoBytes {
    fn read(&mut self, into: &mut [u8]) -> io::Result<usize> {
        self.calls = self.calls.saturating_add(1);
        if self.calls == 2 {
            return Err(io::ErrorKind::Other.into());
        }
        if self.calls > 2 || into.len() < 2 {
            return Ok(0);
        }
        into[0] = b'o';
        into[1] = b'k';
        Ok(2)
    }
}

/// Takes two bytes, then an error, then none.
#[derive(Drop)]
struct TwoTaken {
    calls: u8,
}

impl Write for TwoTaken {
    fn write(&mut self, piece: &[u8]) -> io::Result<usize> {
        self.calls = self.calls.saturating_add(1);
        if self.calls == 2 {
            return Err(io::ErrorKind::Other.into());
        }
        if self.calls > 2 {
            return Ok(0);
        }
        Ok(piece.len().min(2))
    }

    fn flush(&mut self) -> io::Result<()> {
        Ok(())
    }
}

/// Gives and takes all that it is asked for.
#[derive(Drop)]
struct Wide;

impl Read for Wide {
    fn read(&mut self, into: &mut [u8]) -> io::Result<usize> {
        Ok(into.len())
    }
}

impl Write for Wide {
    fn write(&mut self, piece: &[u8]) -> io::Result<usize> {
        Ok(piece.len())
    }

    fn flush(&mut self) -> io::Result<()> {
        Ok(())
    }
}

#[test]
fn wide_pieces_pass_whole(rt: HostRuntime) -> Result<(), Fail> {
    let mut bytes = vec![in rt.alloc(); 7u8; 5000]?;
    let mut source = StdSource::of(Wide);
    assert_eq!(rt; source.read(&mut bytes), Ok(5000));
    let mut sink = StdSink::of(Wide);
    assert_eq!(rt; sink.write(&bytes), Ok(5000));
    Ok(())
}

#[test]
fn drips_give_and_take_one_byte_a_call(rt: HostRuntime) -> Result<(), Fail> {
    let bytes = Vec::from_slice(rt.alloc(), b"cells")?;
    let mut source = DripSource::of(bytes, Vec::new(rt.alloc()));
    assert_eq!(rt;
        read_all(rt.alloc(), &mut source, 9).map(|all| all.len()),
        Ok(5)
    );
    let mut sink = DripSink::make(rt.alloc(), 8, vec![in rt.alloc(); 4]?)?;
    assert_eq!(rt; write_all(&mut sink, b"three"), Err(WriteFailed));
    assert_eq!(rt; sink.bytes(), b"thr".as_slice());
    Ok(())
}

#[test]
fn a_reader_gives_its_bytes_and_its_errors(rt: HostRuntime) {
    let mut source = StdSource::of(TwoBytes { calls: 0 });
    let mut into = [0u8; 4];
    assert_eq!(rt; source.read(&mut into), Ok(2));
    assert_eq!(rt; into, [b'o', b'k', 0, 0]);
    assert_eq!(rt; source.read(&mut into), Err(ReadFailed));
    assert_eq!(rt; source.read(&mut into), Ok(0));
}

#[test]
fn a_writer_that_takes_nothing_is_a_fault(rt: HostRuntime) {
    let mut sink = StdSink::of(TwoTaken { calls: 0 });
    assert_eq!(rt; sink.write(b"okay"), Ok(2));
    assert_eq!(rt; sink.write(b"ay"), Err(WriteFailed));
    assert_eq!(rt; sink.write(b"ay"), Err(WriteFailed));
}

#[test]
fn reads_to_the_end_the_limit_or_the_listed_fault(rt: HostRuntime) -> Result<(), Fail> {
    for (fails, limit, want) in [
        (0, 5, Ok(5)),
        (0, 3, Ok(4)),
        (2, 5, Err(ReadAllError::ReadFault)),
        (3, 5, Ok(5)),
    ] {
        let bytes = Vec::from_slice(rt.alloc(), b"cells")?;
        let mut source = MemSource::of(bytes, vec![in rt.alloc(); fails]?);
        let got = read_all(rt.alloc(), &mut source, limit).map(|all| all.len());
        assert_eq!(rt; got, want, "fault at {fails}, limit {limit}");
    }
    Ok(())
}

#[test]
fn writes_whole_pieces_up_to_the_listed_fault(rt: HostRuntime) -> Result<(), Fail> {
    let mut sink = MemSink::make(rt.alloc(), 8, vec![in rt.alloc(); 3]?)?;
    assert_eq!(rt; write_all(&mut sink, b"one"), Ok(()));
    assert_eq!(rt; write_all(&mut sink, b"two"), Ok(()));
    assert_eq!(rt; write_all(&mut sink, b"three"), Err(WriteFailed));
    assert_eq!(rt; sink.bytes(), b"onetwo".as_slice());
    assert_eq!(rt; write_all(&mut sink, b"four"), Err(WriteFailed));
    assert_eq!(rt; sink.bytes(), b"onetwofo".as_slice());
    Ok(())
}
