//! A watch on processor time.
use std::time::{CpuClock, Duration};

/// Tells the processor time of each phase on standard error, where it is asked to.
#[derive(Drop)]
pub struct Watch {
    is_timed: bool,
    last: Duration,
}

/// The processor time that the process has used; 0 where it cannot be read.
fn now<R: CpuClock>(rt: &R) -> Duration {
    match rt.process_cpu_time() {
        Ok(time) => time,
        Err(_) => Duration::ZERO,
    }
}

impl Watch {
    /// A watch whose first phase begins now.
    pub fn start<R: CpuClock>(rt: &R, is_timed: bool) -> Watch {
        Watch {
            is_timed,
            last: now(rt),
        }
    }

    /// Ends a phase, and begins the next. A line that cannot be written is left out.
    pub fn lap<R: CpuClock + Eprint>(&mut self, rt: &R, phase: &str) {
        if self.is_timed {
            let nanos = now(rt).saturating_sub(self.last).as_nanos();
            let _ = eprintln!(rt; "{phase} {nanos}");
        }
        self.last = now(rt);
    }
}
