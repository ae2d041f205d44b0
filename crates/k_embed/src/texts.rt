//! The texts of what a host has done: its trace and its report, for C.
ghost use Rattle.std.specs.Prelude.{◌≡◌, ◌≤◌, length, None};
ghost use Rattle.k_types.specs.Bounds.{most_trace_bytes};
ghost use Rattle.k_embed.specs.Asked.{is_print, is_publish};
ghost use Rattle.k_embed.specs.Texts.{IsCopied, IsPrinted, IsPublished, bytes_of, of_texts, of_unprinted};

use crate::codes::{done, plain};
use crate::messages::{Answer, Request};
use k_chronicle::{ChronicleError, Keeper, PrintError, Texts, texts};
use std::alloc::Global;

/// Whether the request publishes what the processes did inside their heaps.
pub(crate) fn is_publish(request: &Request) -> bool
    ensures { result ≡ is_publish request.now }
{
    request.call == 21
}

/// Whether the request prints the host.
pub(crate) fn is_print(request: &Request) -> bool
    ensures { result ≡ is_print request.now }
{
    request.call == 24
}

/// Publishes what the processes did inside their heaps, so that the next texts have it. Time goes with what is published.
pub fn publish(host: &mut Keeper) -> Answer
    ensures { IsPublished host.old host.new result }
{
    host.publish();
    done()
}

/// How many bytes the texts have.
fn of_texts(texts: &Texts) -> Answer
    requires { length texts.now.trace.items ≤ most_trace_bytes }
    ensures { result ≡ of_texts texts.now }
{
    Answer {
        status: 0,
        fault: 0,
        at: 0,
        what: 4,
        seg: texts.trace.len() as u32,
        serial: 0,
        number: texts.report.len() as u64,
    }
}

/// Why there are none.
fn unprinted(why: ChronicleError) -> Answer
    ensures { result ≡ of_unprinted why }
{
    let status = match why {
        ChronicleError::Forgotten => 13,
        ChronicleError::Print(PrintError::NoMemory(_)) => 6,
        ChronicleError::Print(PrintError::Unspelled) => 1,
        ChronicleError::Print(PrintError::TooMany) => 14,
        ChronicleError::Print(PrintError::TooLong) => 15,
        ChronicleError::Print(PrintError::Open) => 4,
        ChronicleError::Print(PrintError::Over) => 16,
    };
    plain(status, 0, 0)
}

/// Prints the host, and keeps the texts in the place of those before. What the processes did inside their heaps and did not publish is in
/// neither. Memory and time are those of `k_chronicle::texts`; the texts before are there until the new ones are.
pub fn print(alloc: Global, host: &Keeper, kept: &mut Option<Texts>) -> Answer
    ensures { IsPrinted host.now.host kept.old kept.new result }
{
    match texts(alloc, host) {
        Ok(made) => {
            let answer = of_texts(&made);
            *kept = Some(made);
            answer
        }
        Err(why) => unprinted(why),
    }
}

/// The bytes of the trace where that number is 0, and of the report where it is 1; none where there is no such text.
fn bytes_of(kept: &Option<Texts>, which: u32) -> &[u8]
    ensures { result.now ≡ bytes_of kept.now which }
{
    match (kept, which) {
        (Some(texts), 0) => &texts.trace,
        (Some(texts), 1) => &texts.report,
        _ => &[],
    }
}

/// Copies bytes of the trace, where that number is 0, or of the report, where it is 1, from that place on: as many as there are and as the
/// array has room for. It answers how many.
pub(crate) fn copy_text(kept: &Option<Texts>, which: u32, from: usize, into: &mut [u8]) -> usize
    ensures { IsCopied (bytes_of kept.now which) from into.old into.new result }
{
    let bytes = bytes_of(kept, which);
    let from = from.min(bytes.len());
    let rest = &bytes[from..];
    let count = rest.len().min(into.len());
    into[..count].copy_from_slice(&rest[..count]);
    count
}
