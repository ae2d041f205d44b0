//! The history: one line for each event of the journal.
ghost use Rattle.std.specs.Prelude.{◌≡◌, ℕ, ◌<◌, ◌≤◌, ◌+◌, ◌++◌, ◌∷◌, [], List, length};
ghost use Rattle.k_io.specs.Writing.{Writes};
ghost use Rattle.std.specs.List.{join_with_byte};
ghost use Rattle.k_words.specs.Words.{text_of};
ghost use Rattle.k_text.specs.Named.{AreNamed, IsNamedFault};
ghost use Rattle.k_types.specs.Known.{IsKnownReply, IsKnownEvent};
ghost use Rattle.k_words.specs.Spaced.{spaced};
ghost use Rattle.k_text.specs.EventLines.{fault_words, reply_words, event_words, event_lines};

use crate::words::{heap_name, push_reference};
use k_io::{Sink, WriteFailed};
use k_text::View;
use k_trace::{Names, push_op};
use k_types::{Event, Fault, Reply};
use k_words::LineBuffer;

/// Adds the words of a fault.
#[tactic(auto, unfolding(k_text::specs::EventLines::fault_words))]
fn push_fault(line: &mut LineBuffer, names: &Names, fault: Fault)
    requires known { IsNamedFault names.now fault }
    requires room { length line.old + 50 ≤ 1024 }
    ensures text { line.new ≡ line.old ++ spaced (fault_words names.now fault) }
    ensures short { length line.new ≤ length line.old + 50 }
{
    match fault {
        Fault::Null => line.push_word(b"Null"),
        Fault::Foreign => line.push_word(b"Foreign"),
        Fault::NotSharer(shared) => line.push_words(b"NotSharer", names.shared_name(shared)),
        Fault::NoField => line.push_word(b"NoField"),
        Fault::WrongKind => line.push_word(b"WrongKind"),
        Fault::Frozen => line.push_word(b"Frozen"),
        Fault::Segv => line.push_word(b"Segv"),
        Fault::NotPopulating(shared) => line.push_words(
            b"NotPopulating",
            names.shared_name(shared),
        ),
        Fault::NotFrozen(shared) => line.push_words(b"NotFrozen", names.shared_name(shared)),
        Fault::Taken(shared) => line.push_words(b"Taken", names.shared_name(shared)),
        Fault::LimitFull(limit) => line.push_words(b"LimitFull", names.limit_name(limit)),
        Fault::KernelFull => line.push_word(b"KernelFull"),
        Fault::ProcNotBelow(pid) => line.push_words(b"ProcNotBelow", names.proc_name(pid)),
        Fault::LimitNotBelow(limit) => line.push_words(b"LimitNotBelow", names.limit_name(limit)),
        Fault::InUse(limit) => line.push_words(b"InUse", names.limit_name(limit)),
    }
}

/// Adds the words of a reply.
#[tactic(auto, unfolding(k_text::specs::EventLines::reply_words))]
fn push_reply<V: View>(line: &mut LineBuffer, names: &Names, view: &V, reply: Reply)
    requires named { AreNamed names.now (V.trace view.now) }
    requires known { IsKnownReply (V.trace view.now) reply }
    requires room { length line.old + 60 ≤ 1024 }
    ensures text { line.new ≡ line.old ++ spaced (reply_words names.now reply) }
    ensures short { length line.new ≤ length line.old + 60 }
{
    match reply {
        Reply::Done => line.push_word(b"ok"),
        Reply::Made(name) => push_reference(line, names, view, Some(name)),
        Reply::Loaded(reference) => push_reference(line, names, view, reference),
        Reply::Value(number) => line.push_number(number),
        Reply::Refused(fault) => {
            line.push_word(b"fault");
            push_fault(line, names, fault);
        }
    }
}

/// Adds the words of an event's line.
#[tactic(auto, unfolding(k_text::specs::EventLines::event_words))]
fn push_event<V: View>(line: &mut LineBuffer, names: &Names, view: &V, event: &Event)
    requires named { AreNamed names.now (V.trace view.now) }
    requires known { IsKnownEvent (V.trace view.now) event.now }
    requires empty { line.old ≡ [] }
    ensures text { line.new ≡ join_with_byte 32 (event_words names.now event.now) }
    ensures short { length line.new ≤ 200 }
{
    match *event {
        Event::Done { pid, op, reply } => {
            line.push_text(names.proc_name(pid));
            push_op(line, names, &op);
            line.push_word(b"=");
            push_reply(line, names, view, reply);
        }
        Event::Ended {
            heap,
            freed_objects,
            freed_bytes,
            exits_dropped,
            shares_dropped,
        } => {
            line.push_text(b"ended");
            line.push_word(heap_name(names, heap));
            line.push_number(u64::from(freed_objects));
            line.push_number(freed_bytes);
            line.push_number(u64::from(exits_dropped));
            line.push_number(u64::from(shares_dropped));
        }
        Event::Absorbed { shared } => {
            line.push_text(b"absorbed");
            line.push_word(names.shared_name(shared));
        }
        Event::Closing => line.push_text(b"closing"),
    }
}

/// Writes the line of an event.
fn put_event<K: Sink, V: View>(
    out: &mut K,
    line: &mut LineBuffer,
    names: &Names,
    view: &V,
    event: &Event,
) -> Result<(), WriteFailed>
    requires empty { line.old ≡ [] }
    requires named { AreNamed names.now (V.trace view.now) }
    requires known { IsKnownEvent (V.trace view.now) event.now }
    ensures written { Writes (K.Holds out.old) (K.Holds out.new) (K.faults out.old) (K.faults out.new) result (text_of (event_words names.now event.now ∷ [])) }
    ensures empty { line.new ≡ [] }
{
    push_event(line, names, view, event);
    line.write_to(out)
}

/// Writes the lines of the history.
pub fn events<K: Sink, V: View>(
    out: &mut K,
    line: &mut LineBuffer,
    names: &Names,
    view: &V,
) -> Result<(), WriteFailed>
    requires empty { line.old ≡ [] }
    requires named { AreNamed names.now (V.trace view.now) }
    ensures written { Writes (K.Holds out.old) (K.Holds out.new) (K.faults out.old) (K.faults out.new) result (text_of (event_lines names.now (V.events view.now))) }
    ensures empty { line.new ≡ [] }
{
    for i in 0..view.events() {
        put_event(out, line, names, view, view.event(i))?;
    }
    Ok(())
}
