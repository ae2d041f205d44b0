//! One call for everything that a host does.
ghost use Rattle.std.specs.Prelude.{◌≡◌};
ghost use Rattle.k_embed.specs.Asked.{AreRoomsFor, rooms_of};
ghost use Rattle.k_embed.specs.Codes.{line_of, of_told, reason_of};
ghost use Rattle.k_embed.specs.Served.{IsActed, IsDoneWhole, IsOpened, IsRead, IsServed, IsServedOn, IsServedRest, IsServedWith, empty_for, told_of};

use crate::asking::ask;
use crate::codes::{lacking_host, no_call, of_event};
use crate::doing::{
    Whole, do_whole, get_by, load_by, move_by, new_by, operation, put_by, store_by, whole_asked,
};
use crate::events::{is_take, take_next};
use crate::messages::{Answer, Request, Rooms};
use crate::texts::{copy_text, is_print, is_publish, print, publish};
use k_chronicle::{Keeper, OpenError, Texts};
use k_types::{Op, Pid, TypeId};
use std::alloc::Global;

/// A place for a host. There is none where it could not be made, and then the rest says why: the first bad line of the text and the
/// number of its reason; or line 0, and 1 where memory ran out and 2 where the terms are not fit.
#[derive(Drop)]
pub struct Slot {
    pub alloc: Global,
    pub host: Option<Keeper>,
    pub line: u32,
    pub reason: u32,
    /// What was printed last.
    pub texts: Option<Texts>,
}

/// The first bad line of the text and the number of its reason; or line 0, and 1 where memory ran out and 2 where the terms are not fit.
pub fn reasons(why: OpenError) -> (u32, u32)
    ensures line { result.0 ≡ line_of why }
    ensures reason { result.1 ≡ reason_of why }
{
    match why {
        OpenError::Bad { line, reason } => (line, reason),
        OpenError::NoMemory(_) => (0, 1),
        OpenError::Terms => (0, 2),
    }
}

/// A place with no host, and why.
fn empty(alloc: Global, why: OpenError) -> Slot
    ensures { result ≡ empty_for alloc why }
{
    let (line, reason) = reasons(why);
    Slot {
        alloc,
        host: None,
        line,
        reason,
        texts: None,
    }
}

/// The rooms that are asked for.
pub fn rooms_of(asked: Rooms) -> k_chronicle::Rooms
    ensures { result ≡ rooms_of asked }
{
    k_chronicle::Rooms {
        events: asked.events,
        kept: asked.kept,
        tail: asked.tail,
        objects: asked.objects,
        exits: asked.exits,
        kernel_exits: asked.kernel_exits,
        entries: asked.entries,
    }
}

/// Rooms for so many living objects in each heap of so many processes and shared heaps, where no event is kept. Constant time.
pub fn rooms_for(objects: u32, processes: u32, heaps: u32) -> Rooms
    ensures { AreRoomsFor objects processes heaps result }
{
    let rooms = k_chronicle::Rooms::for_objects(objects, processes, heaps);
    Rooms {
        events: rooms.events,
        kept: rooms.kept,
        tail: rooms.tail,
        objects: rooms.objects,
        exits: rooms.exits,
        kernel_exits: rooms.kernel_exits,
        entries: rooms.entries,
    }
}

/// A host of what the text declares, with these rooms, if it can be made; else the line and the reason why not.
pub fn opened(alloc: Global, text: &[u8], ty: u32, bodies: u32, rooms: Rooms) -> Slot
    ensures { IsOpened text.now ty bodies rooms result }
{
    match Keeper::read(alloc, text, TypeId(ty), bodies, rooms_of(rooms)) {
        Ok(host) => Slot {
            alloc,
            host: Some(host),
            line: 0,
            reason: 0,
            texts: None,
        },
        Err(why) => empty(alloc, why),
    }
}

/// Does the operation of the process, and answers in numbers. Its code stands where it is called, and has of all operations those alone
/// that can come there.
#[inline(always)]
pub fn act(host: &mut Keeper, pid: Pid, op: &Op) -> Answer
    ensures { IsActed host.old host.new pid op.now result }
{
    of_event(host.operate(pid, op))
}

/// Does what the request asks of the host in that place, and answers what came of it.
pub fn serve(slot: &mut Slot, request: &Request) -> Answer
    ensures { IsServed slot.old slot.new request.now result }
{
    let alloc = slot.alloc;
    match &mut slot.host {
        Some(host) => serve_host(alloc, host, &mut slot.texts, request),
        None => lacking_host(slot.line, slot.reason),
    }
}

/// Copies bytes of the trace that was printed last in that place, where `which` is 0, or of its report, where it is 1: from that byte on as many
/// as there are and as the array has room for. It answers how many, and 0 where nothing was printed. Time goes with them.
pub fn read(slot: &Slot, which: u32, from: usize, into: &mut [u8]) -> usize
    ensures { IsRead slot.now which from into.old into.new result }
{
    copy_text(&slot.texts, which, from, into)
}

/// Does the collection, end or absorption, and answers in numbers.
pub fn act_whole(host: &mut Keeper, pid: Pid, whole: Whole) -> Answer
    ensures { IsDoneWhole host.old host.new pid whole result }
{
    of_event(do_whole(host, pid, whole))
}

/// Answers a question, or that there is no such call.
#[inline(always)]
fn answered(host: &Keeper, request: &Request) -> Answer
    ensures { result ≡ of_told (told_of host.now request.now) }
{
    match ask(host, request) {
        Some(answer) => answer,
        None => no_call(),
    }
}

/// Takes the next event out or publishes, where the request asks for that, or answers a question.
#[inline(always)]
fn serve_rest(host: &mut Keeper, request: &Request) -> Answer
    ensures { IsServedRest host.old host.new request.now result }
{
    if is_take(request) {
        return take_next(host);
    }
    if is_publish(request) {
        return publish(host);
    }
    answered(host, request)
}

/// Does what the request asks, and answers what came of it. What is asked for most is each a call in which the operation, or the question
/// what a process is charged, is known.
fn serve_host(
    alloc: Global,
    host: &mut Keeper,
    kept: &mut Option<Texts>,
    request: &Request,
) -> Answer
    ensures { IsServedWith host.old host.new kept.old kept.new request.now result }
{
    let pid = Pid(request.pid);
    match request.call {
        0 => act(host, pid, &new_by(request)),
        3 => act(host, pid, &store_by(request)),
        4 => act(host, pid, &load_by(request)),
        5 => act(host, pid, &move_by(request)),
        8 => act(host, pid, &put_by(request)),
        9 => act(host, pid, &get_by(request)),
        34 => serve_rest(host, request),
        _ => serve_seldom(alloc, host, kept, request),
    }
}

/// Prints the host, where the request asks for that, or does what else it asks.
#[inline(never)]
fn serve_seldom(
    alloc: Global,
    host: &mut Keeper,
    kept: &mut Option<Texts>,
    request: &Request,
) -> Answer
    ensures { IsServedWith host.old host.new kept.old kept.new request.now result }
{
    if is_print(request) {
        return print(alloc, host, kept);
    }
    serve_any(host, request)
}

/// Does what the request asks of the host alone, whatever that is, and answers what came of it.
fn serve_any(host: &mut Keeper, request: &Request) -> Answer
    ensures { IsServedOn host.old host.new request.now result }
{
    let pid = Pid(request.pid);
    if let Some(op) = operation(request) {
        return act(host, pid, &op);
    }
    if let Some(asked) = whole_asked(request) {
        return act_whole(host, pid, asked);
    }
    serve_rest(host, request)
}
