//! Gates: the places of a run at which what stands outside is let in.

/// A place that a run passes on its way.
#[derive(Clone, Copy, Debug, PartialEq, Eq)]
pub enum GatePlace {
    /// Before an operation of the process. No lock is held.
    BeforeOp,
    /// In a collection of a user heap, between its opening and its marking. The lock of that heap
    /// is held, and the book's is free.
    Marking,
    /// Directly before a step of the machine. All locks of that step are held, the book's too.
    InBook,
    /// Before a watcher takes its next sample of the run, or the run is ended. No lock is held.
    Sampling,
}

/// How many operations a run does under one hold of the book where its gate asks for no other number.
pub const OPERATIONS_A_STRETCH: u32 = 64;

/// The stretch of a gate that is told of each operation.
pub const NO_STRETCH: u32 = 0;

/// Is told of the places that a run passes, so that a test can hold a worker there.
///
/// It promises nothing, and no result rests on it.
pub trait Gate: Sync {
    /// The process with number `pid`, which has done `done` operations, is at this place. At
    /// `Sampling` it is the watcher, with number 0, which has taken `done` samples.
    fn pass(&self, pid: u32, done: u32, place: GatePlace);

    /// The most operations of one process that a worker does after another one under the same hold
    /// of its locks, without a word to the gate at `BeforeOp`. With
    /// `NO_STRETCH` the gate is told of each operation. It is asked once, before the first operation of a run.
    fn stretch(&self) -> u32 {
        OPERATIONS_A_STRETCH
    }
}

/// A gate that is always open.
#[derive(Clone, Copy, Debug, PartialEq, Eq)]
pub struct NoGate;

impl Gate for NoGate {
    fn pass(&self, _pid: u32, _done: u32, _place: GatePlace) {}
}
