//! A gate that counts what a run tells of each process.
use k_io::{Gate, GatePlace, NO_STRETCH, NoMemory};
use std::alloc::Global;
use std::hint::spin_loop;
use std::sync::atomic::{AtomicBool, AtomicU32, Ordering};

/// The turns for which a step is held, so that another one can come beside it if the book's lock lets it.
const TURNS_OF_A_STEP: u32 = 100_000;

/// How often one process was told.
#[derive(Drop)]
struct Count {
    operations: AtomicU32,
    // How many it had done when it was told of last.
    done: AtomicU32,
    steps: AtomicU32,
}

/// A gate that counts for each process the operations that are told, and the steps under the book's lock. It may hold each step for a while,
/// and ask for stretches, of which it is told the steps alone.
#[derive(Drop)]
pub struct Counts {
    of_each: Vec<Count>,
    // For how many turns it holds each step.
    turns: u32,
    // How many operations it lets a stretch have.
    stretch: u32,
    // Whether an operation was told twice, left out where there are no stretches, or told before an earlier one, or a process that there is
    // not.
    astray: AtomicBool,
    // Whether a thread is at a step.
    in_book: AtomicBool,
}

impl Counts {
    /// A gate for so many processes, which was told nothing yet, and holds each step for a while.
    ///
    /// # Errors
    ///
    /// `NoMemory` where there is no room for a count of each process.
    pub fn make(alloc: Global, processes: u32) -> Result<Counts, NoMemory> {
        Counts::holding_for(alloc, processes, TURNS_OF_A_STEP, NO_STRETCH)
    }

    /// The same where stretches may have so many operations.
    ///
    /// # Errors
    ///
    /// `NoMemory` where there is no room for a count of each process.
    pub fn make_stretched(alloc: Global, processes: u32, stretch: u32) -> Result<Counts, NoMemory> {
        Counts::holding_for(alloc, processes, TURNS_OF_A_STEP, stretch)
    }

    /// The same for runs of very many steps: it holds none of them.
    ///
    /// # Errors
    ///
    /// `NoMemory` where there is no room for a count of each process.
    pub fn make_quick(alloc: Global, processes: u32) -> Result<Counts, NoMemory> {
        Counts::holding_for(alloc, processes, 0, NO_STRETCH)
    }

    fn holding_for(
        alloc: Global,
        processes: u32,
        turns: u32,
        stretch: u32,
    ) -> Result<Counts, NoMemory> {
        let mut of_each = Vec::new(alloc);
        for _ in 0..processes {
            of_each.push(Count {
                operations: AtomicU32::new(0),
                done: AtomicU32::new(0),
                steps: AtomicU32::new(0),
            })?;
        }
        Ok(Counts {
            of_each,
            turns,
            stretch,
            astray: AtomicBool::new(false),
            in_book: AtomicBool::new(false),
        })
    }

    /// How many operations of the process were told, each once and in order, and how many steps, one at a time. None where anything was
    /// told otherwise, of whatever process. Operations that a stretch does are not told.
    pub fn of(&self, pid: usize) -> Option<(u32, u32)> {
        if self.astray.load(Ordering::SeqCst) {
            return None;
        }
        let count = self.of_each.get(pid)?;
        let operations = count.operations.load(Ordering::SeqCst);
        let steps = count.steps.load(Ordering::SeqCst);
        Some((operations, steps))
    }

    /// How many operations of the process were told, where `of` says it.
    pub fn told(&self, pid: usize) -> Option<u32> {
        let (operations, _) = self.of(pid)?;
        Some(operations)
    }

    /// How many steps of the process were told, where `of` says it.
    pub fn steps(&self, pid: usize) -> Option<u32> {
        let (_, steps) = self.of(pid)?;
        Some(steps)
    }

    /// Whether the operation with `done` before it may be told next where that with `last` was told before.
    fn may_follow(&self, done: u32, last: u32) -> bool {
        if self.stretch == NO_STRETCH {
            last.checked_add(1) == Some(done)
        } else {
            last < done
        }
    }

    fn count_operation(&self, count: &Count, done: u32) {
        let is_first = count.operations.fetch_add(1, Ordering::SeqCst) == 0;
        let last = count.done.swap(done, Ordering::SeqCst);
        let in_order = if is_first {
            done == 0
        } else {
            self.may_follow(done, last)
        };
        if !in_order {
            self.astray.store(true, Ordering::SeqCst);
        }
    }

    fn count_step(&self, count: &Count) {
        if self.in_book.swap(true, Ordering::SeqCst) {
            self.astray.store(true, Ordering::SeqCst);
        }
        count.steps.fetch_add(1, Ordering::SeqCst);
        for _ in 0..self.turns {
            spin_loop();
        }
        self.in_book.store(false, Ordering::SeqCst);
    }
}

impl Gate for Counts {
    fn pass(&self, pid: u32, done: u32, place: GatePlace) {
        let Some(count) = self.of_each.get(pid as usize) else {
            self.astray.store(true, Ordering::SeqCst);
            return;
        };
        match place {
            GatePlace::BeforeOp => self.count_operation(count, done),
            GatePlace::InBook => self.count_step(count),
            GatePlace::Marking | GatePlace::Sampling => {}
        }
    }

    fn stretch(&self) -> u32 {
        self.stretch
    }
}
