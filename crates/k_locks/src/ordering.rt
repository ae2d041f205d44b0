//! The order in which a thread waits for locks: a process's, the kernel's, a shared heap's, the book's.
//!
//! A token, which takes no room, tells what a thread holds. Each function that waits for a lock borrows the token of what is held already,
//! for as long as it holds the lock, and hands out the next token. So while a lock is held neither one that comes before it nor another one
//! of its kind can be waited for: that does not compile. Whoever marks or sweeps a heap asks for a token, too, and while the book is held
//! none is free.
ghost use Rattle.std.specs.Prelude.{◌<◌};

use crate::locked::{LockedBook, LockedKernel, LockedProcess, LockedShared};
use crate::locks::Locks;
use crate::worlds::WorldName;
use k_types::Pid;
use std::marker::PhantomData;
use std::sync::{Mutex, MutexGuard, Wait};
use waiting::take;

mod waiting;

/// No lock is held.
#[derive(Drop)]
pub struct HoldsNone {
    made: PhantomData<()>,
}

/// A process's lock is held, or two.
#[derive(Drop)]
pub struct HoldsProcess<'a> {
    until: PhantomData<&'a ()>,
}

/// The kernel's lock is held.
#[derive(Drop)]
pub struct HoldsKernel<'a> {
    until: PhantomData<&'a ()>,
}

/// A shared heap's lock is held.
#[derive(Drop)]
pub struct HoldsShared<'a> {
    until: PhantomData<&'a ()>,
}

/// What may be held where a shared heap's lock is waited for.
pub trait BeforeShared {}

/// What may be held where the book's lock is waited for.
pub trait BeforeBook {}

impl<'a> BeforeShared for HoldsProcess<'a> {}

impl<'a> BeforeShared for HoldsKernel<'a> {}

impl<'a> BeforeBook for HoldsProcess<'a> {}

impl<'a> BeforeBook for HoldsKernel<'a> {}

impl<'a> BeforeBook for HoldsShared<'a> {}

impl HoldsNone {
    /// The token of a thread between two turns, when it holds no lock: no type says so. The turn that makes it lets it go at its end.
    pub fn between_turns() -> HoldsNone {
        HoldsNone { made: PhantomData }
    }
}

/// Takes a process's lock.
pub fn lock_process<'a, W: WorldName>(
    rt: &impl Wait,
    _order: &'a mut HoldsNone,
    lock: &'a Mutex<LockedProcess<W>>,
) -> (MutexGuard<'a, LockedProcess<W>>, HoldsProcess<'a>) {
    (take(rt, lock), HoldsProcess { until: PhantomData })
}

/// Takes the locks of two processes, that of the lower number first; none where no process has one of the numbers.
pub fn lock_two<'a, W: WorldName>(
    rt: &impl Wait,
    _order: &'a mut HoldsNone,
    locks: &'a Locks<W>,
    lower: Pid,
    higher: Pid,
) -> Option<
    (
        MutexGuard<'a, LockedProcess<W>>,
        MutexGuard<'a, LockedProcess<W>>,
        HoldsProcess<'a>,
    ),
>
    requires { lower.0 < higher.0 }
{
    let first = locks.processes.get(lower.0 as usize)?;
    let second = locks.processes.get(higher.0 as usize)?;
    let first = take(rt, first);
    let second = take(rt, second);
    Some((first, second, HoldsProcess { until: PhantomData }))
}

/// Takes the kernel's lock.
pub fn lock_kernel<'a, W: WorldName>(
    rt: &impl Wait,
    _order: &'a mut HoldsProcess<'_>,
    lock: &'a Mutex<LockedKernel<W>>,
) -> (MutexGuard<'a, LockedKernel<W>>, HoldsKernel<'a>) {
    (take(rt, lock), HoldsKernel { until: PhantomData })
}

/// Takes the kernel's lock unless another thread has it. It waits for nobody, so it needs no token: whatever is held, nobody waits in a
/// circle for it. It hands out none either.
pub fn try_kernel<W: WorldName>(
    lock: &Mutex<LockedKernel<W>>,
) -> Option<MutexGuard<'_, LockedKernel<W>>> {
    lock.try_lock()
}

/// Takes a shared heap's lock.
pub fn lock_shared<'a, W: WorldName>(
    rt: &impl Wait,
    _order: &'a mut impl BeforeShared,
    lock: &'a Mutex<LockedShared<W>>,
) -> (MutexGuard<'a, LockedShared<W>>, HoldsShared<'a>) {
    (take(rt, lock), HoldsShared { until: PhantomData })
}

/// Takes the book's lock. It hands out no token: it is the last.
pub fn lock_book<'a, W: WorldName>(
    rt: &impl Wait,
    _order: &'a mut impl BeforeBook,
    lock: &'a Mutex<LockedBook<W>>,
) -> MutexGuard<'a, LockedBook<W>> {
    take(rt, lock)
}
