//! A gate that sees in which turns five processes are taken by four workers.
use crate::holding::wait_for;
use k_io::{Gate, GatePlace, NO_STRETCH};
use std::hint::spin_loop;
use std::sync::atomic::{AtomicBool, AtomicU32, Ordering};

/// How many operations a turn has.
pub const OPERATIONS_OF_A_TURN: u32 = 64;

/// The turns for which a process is held before it begins, so that others can begin before it has done anything.
const TURNS_AT_THE_START: u32 = 1_000_000;

/// The number of the fifth process.
const FIFTH: u32 = 4;

/// A gate that holds the first four processes for a while before they begin, and each process at its second turn until the fifth one has
/// begun; and sees whether that came before any turn was over, and how many processes had a second turn.
#[derive(Drop)]
pub struct FifthComes {
    fifth: AtomicBool,
    turn_over: AtomicBool,
    too_early: AtomicBool,
    missed: AtomicBool,
    second_turns: AtomicU32,
}

impl FifthComes {
    /// A gate that no process has come to yet.
    pub fn new() -> FifthComes {
        FifthComes {
            fifth: AtomicBool::new(false),
            turn_over: AtomicBool::new(false),
            too_early: AtomicBool::new(false),
            missed: AtomicBool::new(false),
            second_turns: AtomicU32::new(0),
        }
    }

    /// Whether the fifth process had its turn once one of four workers was free, and before any process had a second turn.
    pub fn met(&self) -> bool {
        self.fifth.load(Ordering::SeqCst)
            && !self.too_early.load(Ordering::SeqCst)
            && !self.missed.load(Ordering::SeqCst)
    }

    /// How many processes had a second turn.
    pub fn second_turns(&self) -> u32 {
        self.second_turns.load(Ordering::SeqCst)
    }

    /// A process begins.
    fn begin(&self, pid: u32) {
        if pid == FIFTH {
            if !self.turn_over.load(Ordering::SeqCst) {
                self.too_early.store(true, Ordering::SeqCst);
            }
            self.fifth.store(true, Ordering::SeqCst);
            return;
        }
        for _ in 0..TURNS_AT_THE_START {
            spin_loop();
        }
    }

    /// A process comes to its second turn.
    fn begin_again(&self) {
        self.second_turns.fetch_add(1, Ordering::SeqCst);
        if !wait_for(&self.fifth) {
            self.missed.store(true, Ordering::SeqCst);
        }
    }
}

impl Gate for FifthComes {
    fn pass(&self, pid: u32, done: u32, place: GatePlace) {
        if place != GatePlace::BeforeOp {
            return;
        }
        if done == 0 {
            self.begin(pid);
        } else if done == OPERATIONS_OF_A_TURN - 1 {
            self.turn_over.store(true, Ordering::SeqCst);
        } else if done == OPERATIONS_OF_A_TURN {
            self.begin_again();
        }
    }

    fn stretch(&self) -> u32 {
        NO_STRETCH
    }
}
