//! A host in parts, each behind a lock of its own, which are taken in the order: process, kernel, book.
ghost use Rattle.std.specs.Prelude.{◌≡◌, Some};
ghost use Rattle.k_parts.specs.Parts.{IsNamed};
ghost use Rattle.k_parts.specs.Splitting.{IsAtRest, home_of};

use crate::work::{LAST, OPENING, ROUND};
use k_parts::{
    BookPart, Came, GuestPart, Host, HostName, KernelPart, PartError, Reach, SplitHost, split,
};
use k_types::{NoMemory, Op};
use std::alloc::Global;
use std::marker::Brand;
use std::sync::{Mutex, Wait};
use std::thread;
use std::thread::Threads;

/// The number by which the host is known.
const NUMBER: u64 = 1;

/// The most names of freed objects that are kept.
const MOST_FREED: u32 = 100;

/// The parts of the host, each behind its lock.
#[derive(Drop)]
struct Hall<H: HostName> {
    guests: Vec<Mutex<GuestPart<H>>>,
    kernel: Mutex<KernelPart<H>>,
    book: Mutex<BookPart<H>>,
}

/// What is to be done of one guest, and whether all of it was.
#[derive(Drop)]
struct Task {
    at: usize,
    rounds: u32,
    done: bool,
}

/// Does the operation with the book, or tells which part it needs besides.
fn operate_with_book<H: HostName>(
    rt: &impl Wait,
    hall: &Hall<H>,
    guest: &mut GuestPart<H>,
    op: &Op,
) -> Result<Came, PartError>
    requires { IsNamed H.home }
{
    let mut book = hall.book.lock(rt);
    guest.operate(&mut book, op)
}

/// Does the operation with the kernel's part and the book.
fn operate_with_kernel<H: HostName>(
    rt: &impl Wait,
    hall: &Hall<H>,
    guest: &mut GuestPart<H>,
    op: &Op,
) -> Result<Came, PartError>
    requires { IsNamed H.home }
{
    let mut kernel = hall.kernel.lock(rt);
    let mut book = hall.book.lock(rt);
    guest.operate_with_kernel(&mut kernel, &mut book, op)
}

/// Does the operation with the parts that it needs, and says whether it did.
fn operate<H: HostName>(
    rt: &impl Wait,
    hall: &Hall<H>,
    guest: &mut GuestPart<H>,
    op: &Op,
) -> Result<bool, PartError>
    requires { IsNamed H.home }
{
    if let Ok(Some(_)) = guest.inside(op) {
        return Ok(true);
    }
    match operate_with_book(rt, hall, guest, op)? {
        Came::Did(_) => Ok(true),
        Came::Needs(Reach::Kernel) => match operate_with_kernel(rt, hall, guest, op)? {
            Came::Did(_) => Ok(true),
            Came::Needs(_) => Ok(false),
        },
        Came::Needs(_) => Ok(false),
    }
}

/// Does the operations of the guest, whose lock is taken for each anew, and says whether all were done.
fn operate_all<H: HostName>(
    rt: &impl Wait,
    hall: &Hall<H>,
    lock: &Mutex<GuestPart<H>>,
    ops: &[Op],
) -> bool
    requires { IsNamed H.home }
{
    for op in ops {
        let mut guest = lock.lock(rt);
        if !matches!(operate(rt, hall, &mut guest, op), Ok(true)) {
            return false;
        }
    }
    true
}

/// Collects the guest's heap.
fn collect<H: HostName>(rt: &impl Wait, hall: &Hall<H>, lock: &Mutex<GuestPart<H>>) -> bool
    requires { IsNamed H.home }
{
    let mut guest = lock.lock(rt);
    let mut book = hall.book.lock(rt);
    guest.collect(&mut book).is_ok()
}

/// Does what is to be done of the guest: its opening, its rounds inside its heap, and then a store into the directory and a collection.
fn work<H: HostName>(
    rt: &impl Wait,
    hall: &Hall<H>,
    lock: &Mutex<GuestPart<H>>,
    task: &Task,
) -> bool
    requires { IsNamed H.home }
{
    if !operate_all(rt, hall, lock, &OPENING) {
        return false;
    }
    for _ in 0..task.rounds {
        if !operate_all(rt, hall, lock, &ROUND) {
            return false;
        }
    }
    operate_all(rt, hall, lock, &LAST) && collect(rt, hall, lock)
}

/// Does the task.
fn take<H: HostName>(rt: &impl Wait, hall: &Hall<H>, task: &mut Task)
    requires { IsNamed H.home }
{
    if let Some(lock) = hall.guests.get(task.at) {
        task.done = work(rt, hall, lock, task);
    }
}

/// Does all tasks, by so many threads.
fn take_all<H: HostName + Send + Sync, R: Threads + Wait + Sync>(
    rt: &R,
    hall: &Hall<H>,
    tasks: &mut [Task],
    threads: usize,
)
    requires { IsNamed H.home }
{
    thread::for_each_mut(
        rt,
        tasks,
        threads.max(1),
        &|_, task: &mut Task|
            requires { IsNamed H.home }
        {
            take(rt, hall, task);
        },
    );
}

/// Each part behind a lock.
fn locked<H: HostName>(alloc: Global, parts: SplitHost<H>) -> Result<Hall<H>, NoMemory> {
    let SplitHost {
        guests,
        kernel,
        shared: _,
        book,
    } = parts;
    let mut locks = Vec::new(alloc);
    for guest in guests {
        locks.push(Mutex::new(guest))?;
    }
    Ok(Hall {
        guests: locks,
        kernel: Mutex::new(kernel),
        book: Mutex::new(book),
    })
}

/// A task for each guest.
fn tasks(alloc: Global, guests: usize, rounds: u32) -> Result<Vec<Task>, NoMemory> {
    let mut tasks = Vec::new(alloc);
    for at in 0..guests {
        tasks.push(Task {
            at,
            rounds,
            done: false,
        })?;
    }
    Ok(tasks)
}

/// Whether all tasks are done.
fn all_done(tasks: &[Task]) -> bool {
    for task in tasks {
        if !task.done {
            return false;
        }
    }
    true
}

/// Drives the host in parts.
fn drive<H: HostName + Send + Sync, R: Threads + Wait + Sync>(
    rt: &R,
    alloc: Global,
    host: Host,
    threads: usize,
    rounds: u32,
) -> Result<Option<u64>, NoMemory>
    requires named { H.home ≡ Some (home_of host NUMBER) }
    requires rest { IsAtRest host }
{
    let hall = locked::<H>(alloc, split(alloc, host, NUMBER, MOST_FREED)?)?;
    let mut tasks = tasks(alloc, hall.guests.len(), rounds)?;
    take_all(rt, &hall, &mut tasks, threads);
    if !all_done(&tasks) {
        return Ok(None);
    }
    let len = hall.book.lock(rt).len();
    Ok(Some(len))
}

/// Has the guests of the host do so many rounds each, by so many threads. It answers how many events the journal has then; or none, where a
/// call was refused.
pub(crate) fn driven<R: Threads + Wait + Sync>(
    rt: &R,
    alloc: Global,
    host: Host,
    threads: usize,
    rounds: u32,
) -> Result<Option<u64>, NoMemory>
    requires { IsAtRest host }
{
    drive::<Brand, R>(rt, alloc, host, threads, rounds)
}
