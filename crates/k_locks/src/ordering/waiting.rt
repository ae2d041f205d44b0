//! Locks that a thread looks for a while before it sleeps.
use std::hint::spin_loop;
use std::sync::{Mutex, MutexGuard, Wait};

/// How often a thread looks for a lock before it sleeps.
const LOOKS: u32 = 24;

/// The most pauses between two looks, as a power of two.
const LONGEST: u32 = 8;

/// Lets time pass, as long as so many pauses of the processor take.
fn pause(count: u32) {
    for _ in 0..count {
        spin_loop();
    }
}

/// Takes the lock. Where another thread has it, this one looks for it again for a while, at first often and then more seldom, and sleeps
/// only then: most holds are shorter than it takes to put a thread to sleep and to wake it.
pub(super) fn take<'a, T, R: Wait>(rt: &R, lock: &'a Mutex<T>) -> MutexGuard<'a, T> {
    for look in 0..LOOKS {
        if let Some(guard) = lock.try_lock() {
            return guard;
        }
        pause(1 << look.min(LONGEST));
    }
    lock.lock(rt)
}
