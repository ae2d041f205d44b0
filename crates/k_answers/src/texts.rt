//! The texts that are no reports.
ghost use Rattle.k_status.specs.Telling.{IsWritten};
ghost use Rattle.k_answers.specs.Texts.{usage_text, good_text, refused_text, sound_text, unsound_text};

use k_io::{Sink, write_all};
use k_status::{Status, after_writing};
use k_words::LineBuffer;

/// Writes the usage line, as one piece.
pub fn write_usage<K: Sink>(out: &mut K) -> Status
    ensures { IsWritten
        (record { agreed = K.Holds out.old; agrees = K.Holds out.new; failed_before = K.faults out.old; failed_after = K.faults out.new })
        Status.Usage usage_text result }
{
    let written = write_all(
        out,
        b"usage: kaffe run | replay | check | big N | watch K | work | snap | audit | tree\n",
    );
    after_writing(Status::Usage, written)
}

/// Writes that a report is good, as one piece.
pub fn write_good<K: Sink>(out: &mut K) -> Status
    ensures { IsWritten
        (record { agreed = K.Holds out.old; agrees = K.Holds out.new; failed_before = K.faults out.old; failed_after = K.faults out.new })
        Status.Good good_text result }
{
    let written = write_all(out, b"good\n");
    after_writing(Status::Good, written)
}

/// Writes the first wrong line of a report or a snapshot, counted from 1, as one piece.
pub fn write_refused<K: Sink>(out: &mut K, line: u32) -> Status
    ensures { IsWritten
        (record { agreed = K.Holds out.old; agrees = K.Holds out.new; failed_before = K.faults out.old; failed_after = K.faults out.new })
        Status.Refused (refused_text line) result }
{
    let mut text = LineBuffer::new();
    text.push_text(b"refused");
    text.push_number(u64::from(line));
    after_writing(Status::Refused, text.write_to(out))
}

/// Writes that a snapshot is sound, as one piece.
pub fn write_sound<K: Sink>(out: &mut K) -> Status
    ensures { IsWritten
        (record { agreed = K.Holds out.old; agrees = K.Holds out.new; failed_before = K.faults out.old; failed_after = K.faults out.new })
        Status.Good sound_text result }
{
    let written = write_all(out, b"sound\n");
    after_writing(Status::Good, written)
}

/// Writes the lowest point of a snapshot that does not hold, as one piece.
pub fn write_unsound<K: Sink>(out: &mut K, point: u32) -> Status
    ensures { IsWritten
        (record { agreed = K.Holds out.old; agrees = K.Holds out.new; failed_before = K.faults out.old; failed_after = K.faults out.new })
        Status.Refused (unsound_text point) result }
{
    let mut text = LineBuffer::new();
    text.push_text(b"unsound");
    text.push_number(u64::from(point));
    after_writing(Status::Refused, text.write_to(out))
}
