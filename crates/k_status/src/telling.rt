//! The line of a bad trace, and the status after a text was written.
ghost use Rattle.std.specs.Prelude.{◌≡◌};
ghost use Rattle.k_status.specs.Telling.{IsWritten, status_after};
ghost use Rattle.k_status.specs.Texts.{bad_trace_text};

use crate::status::Status;
use k_io::{Sink, WriteFailed};
use k_words::LineBuffer;

/// The status of a call whose text is written: the given one, unless the sink failed.
pub fn after_writing(status: Status, written: Result<(), WriteFailed>) -> Status
    ensures { result ≡ status_after status written }
{
    match written {
        Ok(()) => status,
        Err(_) => Status::WriteFault,
    }
}

/// Writes the line of a bad trace, as one piece. Lines are counted from 1, and line 0 stands for the
/// whole input.
pub fn write_bad_trace<K: Sink>(out: &mut K, line: u32, reason: u32) -> Status
    ensures { IsWritten
        (record { agreed = K.Holds out.old; agrees = K.Holds out.new; failed_before = K.faults out.old; failed_after = K.faults out.new })
        Status.BadTrace (bad_trace_text line reason) result }
{
    let mut text = LineBuffer::new();
    text.push_text(b"bad trace: line");
    text.push_number(u64::from(line));
    text.push_text(b" reason");
    text.push_number(u64::from(reason));
    after_writing(Status::BadTrace, text.write_to(out))
}
