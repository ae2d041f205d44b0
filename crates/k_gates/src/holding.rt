//! A gate that holds each process at its stops until another process has come to one of its own.
use k_io::{Gate, GatePlace, NO_STRETCH};
use std::hint::spin_loop;
use std::sync::atomic::{AtomicBool, Ordering};
use std::thread::yield_now;

/// The most turns for which a gate holds a process.
const MOST_TURNS: u32 = 100_000_000;

/// How many turns pass before a thread that waits lets others run.
const TURNS_OF_ONE_STRETCH: u32 = 1_000;

/// Waits until the flag is set, for at most a hundred million turns, and says whether it was.
pub fn wait_for(flag: &AtomicBool) -> bool {
    for turn in 0..MOST_TURNS {
        if flag.load(Ordering::SeqCst) {
            return true;
        }
        if turn % TURNS_OF_ONE_STRETCH == 0 {
            yield_now();
        } else {
            spin_loop();
        }
    }
    false
}

/// The number of a run's watcher, at the place where it takes samples.
const WATCHER: u32 = 0;

/// A process, or the watcher, at a place of the run.
#[derive(Drop)]
pub struct Stop {
    pid: u32,
    // How many operations it has done; any number where none is given.
    done: Option<u32>,
    place: GatePlace,
    // Which stop has to be reached before the process goes on from here.
    until: Option<usize>,
    reached: AtomicBool,
}

impl Stop {
    /// The process before the operation that comes when it has done so many. It waits there for the stop of that number.
    pub fn before(pid: u32, done: u32, until: Option<usize>) -> Stop {
        Stop {
            pid,
            done: Some(done),
            place: GatePlace::BeforeOp,
            until,
            reached: AtomicBool::new(false),
        }
    }

    /// The process at that place, whatever it has done. It waits there for the stop of that number.
    pub fn at(pid: u32, place: GatePlace, until: usize) -> Stop {
        Stop {
            pid,
            done: None,
            place,
            until: Some(until),
            reached: AtomicBool::new(false),
        }
    }

    /// The watcher of the run when it has taken so many samples. It waits there for the stop of that number.
    pub fn sampling(taken: u32, until: Option<usize>) -> Stop {
        Stop {
            pid: WATCHER,
            done: Some(taken),
            place: GatePlace::Sampling,
            until,
            reached: AtomicBool::new(false),
        }
    }

    fn is_here(&self, pid: u32, done: u32, place: GatePlace) -> bool {
        if self.pid != pid || self.place != place {
            return false;
        }
        match self.done {
            Some(wanted) => wanted == done,
            None => true,
        }
    }
}

/// A gate that holds each process at its stops, and may ask for stretches. A stop's number is its place in the list, counted from 0.
#[derive(Drop)]
pub struct Stops<const N: usize> {
    stops: [Stop; N],
    // How many operations it lets a stretch have.
    stretch: u32,
    missed: AtomicBool,
}

impl<const N: usize> Stops<N> {
    /// The gate with these stops, none of which was reached yet.
    pub fn of(stops: [Stop; N]) -> Stops<N> {
        Stops::stretched(stops, NO_STRETCH)
    }

    /// The same where stretches may have so many operations. It is not told of those at `BeforeOp`, and holds none of them there.
    pub fn stretched(stops: [Stop; N], stretch: u32) -> Stops<N> {
        Stops {
            stops,
            stretch,
            missed: AtomicBool::new(false),
        }
    }

    /// Whether all stops were reached, and no process waited in vain.
    pub fn all_met(&self) -> bool {
        let mut met = !self.missed.load(Ordering::SeqCst);
        for stop in &self.stops {
            met &= stop.reached.load(Ordering::SeqCst);
        }
        met
    }

    /// Waits until the stop of that number was reached.
    fn wait(&self, until: usize) {
        let reached = match self.stops.get(until) {
            Some(stop) => wait_for(&stop.reached),
            None => false,
        };
        if !reached {
            self.missed.store(true, Ordering::SeqCst);
        }
    }
}

impl<const N: usize> Gate for Stops<N> {
    fn pass(&self, pid: u32, done: u32, place: GatePlace) {
        for stop in &self.stops {
            if stop.is_here(pid, done, place) {
                stop.reached.store(true, Ordering::SeqCst);
                if let Some(until) = stop.until {
                    self.wait(until);
                }
            }
        }
    }

    fn stretch(&self) -> u32 {
        self.stretch
    }
}
