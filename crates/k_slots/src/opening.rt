//! A host that is made and taken apart, and its parts, which are taken one after the other.
ghost use Rattle.std.specs.Prelude.{◌≡◌, IfOk};
ghost use Rattle.k_embed.specs.Codes.{line_of, reason_of};
ghost use Rattle.k_parts.specs.Splitting.{IsAtRest};
ghost use Rattle.k_slots.specs.Opening.{IsOpenedRow, IsParted, IsTaken, IsTakenFrom};
ghost use Rattle.k_slots.specs.declared.slots.Part.TheVariants.{Lacking};

use crate::slots::{Part, PartSlot, Row};
use k_embed::{Rooms, reasons, rooms_of};
use k_parts::{AnyHost, Host, NoMemory, OpenError, SplitHost, split};
use k_types::TypeId;
use std::alloc::Global;
use std::collections::VecDeque;

/// There is no host, and why.
fn lacking(why: OpenError) -> Part
    ensures { result ≡ Lacking (line_of why) (reason_of why) }
{
    let (line, reason) = reasons(why);
    Part::Lacking { line, reason }
}

/// All parts of the host, which know it by this number.
fn parted(alloc: Global, host: Host, number: u64, freed: u32) -> Result<Row, NoMemory>
    requires { IsAtRest host }
    ensures { IfOk result (IsParted host number freed) }
{
    let SplitHost {
        guests,
        kernel,
        shared,
        book,
    } = split::<AnyHost>(alloc, host, number, freed)?;
    Ok(Row {
        guests: VecDeque::from(guests),
        kernel: Some(kernel),
        shared: VecDeque::from(shared),
        book: Some(book),
    })
}

/// All parts of a host of what the text declares, with these rooms, if it can be made; else the line and the reason why not. The parts know
/// their host by the number: parts of hosts that have one number must not be lent to one call. There is room for the names of so many
/// objects that a collection freed.
pub fn opened_row(
    alloc: Global,
    text: &[u8],
    ty: u32,
    bodies: u32,
    rooms: Rooms,
    number: u64,
    freed: u32,
) -> PartSlot
    ensures { IsOpenedRow text.now (record { 0 = ty }) bodies rooms number freed result.part }
{
    let host = match Host::read(alloc, text, TypeId(ty), bodies, rooms_of(rooms)) {
        Ok(host) => host,
        Err(why) => return PartSlot { part: lacking(why) },
    };
    match parted(alloc, host, number, freed) {
        Ok(row) => PartSlot {
            part: Part::Row(row),
        },
        Err(refused) => PartSlot {
            part: lacking(OpenError::NoMemory(refused)),
        },
    }
}

/// Takes the next part out of the row.
fn take_from(row: &mut Row) -> Part
    ensures { IsTakenFrom row.old row.new result }
{
    if let Some(guest) = row.guests.pop_front() {
        return Part::Guest(guest);
    }
    if let Some(kernel) = row.kernel.take() {
        return Part::Kernel(kernel);
    }
    if let Some(heap) = row.shared.pop_front() {
        return Part::Shared(heap);
    }
    match row.book.take() {
        Some(book) => Part::Book(book),
        None => Part::Empty,
    }
}

/// Takes the next part out of the row that lies in the place: the processes by rising number, the kernel, the shared heaps by rising number,
/// and the book. The place that it is given is empty where all were taken, and where no row lies there.
pub fn take_next(row: &mut PartSlot) -> PartSlot
    ensures { IsTaken row.old.part row.new.part result.part }
{
    match &mut row.part {
        Part::Row(row) => PartSlot {
            part: take_from(row),
        },
        _ => PartSlot { part: Part::Empty },
    }
}
