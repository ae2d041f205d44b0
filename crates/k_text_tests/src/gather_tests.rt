//! Sinks in memory behind a sink that gathers: how many writes they get, and what they have after one that fails.
ghost use Rattle.std.specs.Prelude.{◌≡◌};

use k_gather::{Gathered, SinkName};
use k_io::{DripSink, MemSink, Sink, WriteFailed, write_all};
use std::marker::Brand;
use std::test::Fail;

/// Writes the pieces, then hands on what is left, and gives the sink back.
fn write_named<'a, N: SinkName, K: Sink>(
    out: &'a mut K,
    pieces: &[&[u8]],
) -> (Result<(), WriteFailed>, &'a mut K)
    requires { out.ghost_name ≡ N.name }
{
    let mut sink: Gathered<'a, K, N> = Gathered::over(out);
    for piece in pieces {
        if let Err(failed) = write_all(&mut sink, piece) {
            return (Err(failed), sink.into_inner());
        }
    }
    let handed = sink.hand_on();
    (handed, sink.into_inner())
}

/// Writes the pieces to a sink that gathers for this one, then hands on what is left.
fn write_pieces<K: Sink>(out: &mut K, pieces: &[&[u8]]) -> Result<(), WriteFailed> {
    let (written, _out) = write_named::<Brand, K>(out, pieces);
    written
}

/// Writes the piece, and hands on what is left twice. Says what came of either, and gives the sink back.
fn hand_on_twice_named<'a, N: SinkName, K: Sink>(
    out: &'a mut K,
    piece: &[u8],
) -> ([Result<(), WriteFailed>; 2], &'a mut K)
    requires { out.ghost_name ≡ N.name }
{
    let mut sink: Gathered<'a, K, N> = Gathered::over(out);
    if let Err(failed) = write_all(&mut sink, piece) {
        return ([Err(failed); 2], sink.into_inner());
    }
    let first = sink.hand_on();
    let second = sink.hand_on();
    ([first, second], sink.into_inner())
}

/// Writes the piece to a sink that gathers for this one, and hands on what is left twice.
fn hand_on_twice<K: Sink>(out: &mut K, piece: &[u8]) -> [Result<(), WriteFailed>; 2] {
    let (handed, _out) = hand_on_twice_named::<Brand, K>(out, piece);
    handed
}

#[test]
fn short_pieces_come_in_one_write(rt: HostRuntime) -> Result<(), Fail> {
    // the first write takes all three, and there is no second
    let mut out = MemSink::make(rt.alloc(), 64, vec![in rt.alloc(); 2]?)?;
    let written = write_pieces(&mut out, &[b"one", b"two", b"three"]);
    assert_eq!(rt; written, Ok(()));
    assert_eq!(rt; out.bytes(), b"onetwothree".as_slice());
    Ok(())
}

#[test]
fn nothing_is_handed_on_where_nothing_is_written(rt: HostRuntime) -> Result<(), Fail> {
    let mut out = MemSink::make(rt.alloc(), 64, vec![in rt.alloc(); 1]?)?;
    assert_eq!(rt; write_pieces(&mut out, &[]), Ok(()));
    Ok(())
}

#[test]
fn a_full_buffer_is_handed_on_before_the_next_piece(rt: HostRuntime) -> Result<(), Fail> {
    // eight pieces fill the buffer, the ninth finds no room, and what is left goes by a second write
    let piece = [b'x'; 1024];
    let pieces = [piece.as_slice(); 9];
    for (failing, want, taken) in [
        (1, Err(WriteFailed), 0),
        (2, Err(WriteFailed), 8192),
        (3, Ok(()), 9216),
    ] {
        let mut out = MemSink::make(rt.alloc(), 10000, vec![in rt.alloc(); failing]?)?;
        assert_eq!(rt; write_pieces(&mut out, &pieces), want, "write {failing}");
        assert_eq!(rt; out.bytes().len(), taken, "write {failing}");
    }
    Ok(())
}

#[test]
fn a_long_piece_comes_behind_what_was_gathered(rt: HostRuntime) -> Result<(), Fail> {
    let long = [b'y'; 9000];
    let mut out = MemSink::make(rt.alloc(), 10000, vec![in rt.alloc(); 4]?)?;
    let written = write_pieces(&mut out, &[b"one", &long, b"two"]);
    assert_eq!(rt; written, Ok(()));
    assert_eq!(rt; out.bytes().len(), 9006);
    assert!(rt; out.bytes().starts_with(b"oney"));
    assert!(rt; out.bytes().ends_with(b"ytwo"));
    Ok(())
}

#[test]
fn what_was_not_taken_stays_gathered(rt: HostRuntime) -> Result<(), Fail> {
    // one byte a write: the fourth fails, and the second attempt begins with its byte
    let mut out = DripSink::make(rt.alloc(), 64, vec![in rt.alloc(); 4]?)?;
    let handed = hand_on_twice(&mut out, b"onetwo");
    assert_eq!(rt; handed, [Err(WriteFailed), Ok(())]);
    assert_eq!(rt; out.bytes(), b"onetwo".as_slice());
    Ok(())
}
