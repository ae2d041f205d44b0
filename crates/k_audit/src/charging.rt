//! The lines of the charges.
ghost use Rattle.std.specs.Prelude.{◌≡◌, ◌<◌, ◌≤◌, ◌+◌, ◌-◌, ◌^◌, [], length, option_map};
ghost use Rattle.k_types.specs.Trace.{process_count, trace_of};
ghost use Rattle.k_words.specs.Words.{words_of};
ghost use Rattle.k_text.specs.Named.{AreNamed};
ghost use Rattle.k_audit.specs.Pairs.{pair};
ghost use Rattle.k_audit.specs.Reading.{HasRead, charge_line, heap_line, kernel_line, limit_line, pair_at, process_line};

use crate::places::Place;
use crate::reader::Reader;
use crate::words::read_phase;
use k_io::NoMemory;
use k_trace::Names;
use k_types::{LimitId, MAXIMUM_BELOW, Pid, Setup, SharedId};
use k_words::{is, number, word, word_count};

/// Two numbers with the word `of` between them.
#[derive(Clone, Copy, Debug)]
pub struct PairLine {
    pub first: u64,
    pub second: u64,
}

/// The numbers that the words from that place on are, the second below the bound.
#[tactic(auto, unfolding(crate::specs::Reading::pair_at))]
fn read_pair(line: &[u8], at: usize, bound: u128) -> Option<PairLine>
    requires bound { (0 < bound) × (bound ≤ 2 ^ 64) }
    requires at { at ≤ 2 }
    ensures { option_map pair result ≡ pair_at bound (words_of line.now) at }
{
    if !is(word(line, at + 1), b"of") {
        return None;
    }
    let first = number(word(line, at), 1 << 64)?;
    let second = number(word(line, at + 2), bound)?;
    Some(PairLine { first, second })
}

impl Reader {
    /// The line of the kernel.
    #[tactic(auto, unfolding(crate::specs::Reading::kernel_line))]
    fn take_kernel(&mut self, line: &[u8]) -> Result<bool, NoMemory>
        ensures { HasRead result self.old self.new (kernel_line self.old (words_of line.now)) }
    {
        if word_count(line) != 4 || !is(word(line, 0), b"kernel") {
            return Ok(false);
        }
        match read_pair(line, 1, 1 << 64) {
            Some(pair) => {
                self.claims.set_kernel(pair.first, pair.second);
                self.place = Place::Charges(1);
                Ok(true)
            }
            None => Ok(false),
        }
    }

    /// The line of that limit.
    #[tactic(auto, unfolding(crate::specs::Reading::limit_line))]
    fn take_limit(
        &mut self,
        names: &Names,
        k: u32,
        limit: u32,
        line: &[u8],
    ) -> Result<bool, NoMemory>
        requires limit { limit < length names.now.limits }
        requires small { k < 1000 }
        ensures { HasRead result self.old self.new (limit_line names.now k limit self.old (words_of line.now)) }
    {
        if word_count(line) != 5 || !is(word(line, 0), b"limit") {
            return Ok(false);
        }
        if !is(word(line, 1), names.limit_name(LimitId(limit))) {
            return Ok(false);
        }
        match read_pair(line, 2, u128::from(MAXIMUM_BELOW)) {
            Some(pair) => {
                self.claims.add_use(pair.first)?;
                self.state.add_maximum(pair.second)?;
                self.place = Place::Charges(k + 1);
                Ok(true)
            }
            None => Ok(false),
        }
    }

    /// The line of that process.
    #[tactic(auto, unfolding(crate::specs::Reading::process_line))]
    fn take_process(&mut self, names: &Names, k: u32, p: u32, line: &[u8]) -> Result<bool, NoMemory>
        requires process { p < length names.now.procs }
        requires small { k < 1000 }
        ensures { HasRead result self.old self.new (process_line names.now k p self.old (words_of line.now)) }
    {
        if word_count(line) != 3 || !is(word(line, 0), b"process") {
            return Ok(false);
        }
        if !is(word(line, 1), names.proc_name(Pid(p))) {
            return Ok(false);
        }
        match number(word(line, 2), 1 << 64) {
            Some(charge) => {
                self.claims.add_charge(charge)?;
                self.place = Place::Charges(k + 1);
                Ok(true)
            }
            None => Ok(false),
        }
    }

    /// The line of that shared heap.
    #[tactic(auto, unfolding(crate::specs::Reading::heap_line))]
    fn take_heap(&mut self, names: &Names, k: u32, s: u32, line: &[u8]) -> Result<bool, NoMemory>
        requires heap { s < length names.now.shared }
        requires small { k < 1000 }
        ensures { HasRead result self.old self.new (heap_line names.now k s self.old (words_of line.now)) }
    {
        if !is(word(line, 0), b"shared") || !is(word(line, 1), names.shared_name(SharedId(s))) {
            return Ok(false);
        }
        let Some(bytes) = number(word(line, 2), 1 << 64) else {
            return Ok(false);
        };
        let Some(phase) = read_phase(names, line) else {
            return Ok(false);
        };
        self.claims.add_shared(bytes)?;
        self.state.add_phase(phase)?;
        self.place = Place::Charges(k + 1);
        Ok(true)
    }

    /// The line of that number of the charges: the kernel's, that of a limit, of a process or of a shared heap, or `end`.
    #[tactic(auto, unfolding(crate::specs::Reading::charge_line))]
    pub fn take_charge(
        &mut self,
        setup: &Setup,
        names: &Names,
        k: u32,
        line: &[u8],
    ) -> Result<bool, NoMemory>
        requires named { AreNamed names.now (trace_of setup.now [] []) }
        requires few { length setup.now.limits.items + process_count (trace_of setup.now [] []) + setup.now.shared ≤ 256 }
        ensures { HasRead result self.old self.new (charge_line names.now (trace_of setup.now [] []) k self.old line.now) }
    {
        let limits = setup.limits.len() as u32;
        let procs = setup.procs.len() as u32;
        if k == 0 {
            self.take_kernel(line)
        } else if k <= limits {
            self.take_limit(names, k, k - 1, line)
        } else if k <= limits + procs {
            self.take_process(names, k, k - 1 - limits, line)
        } else if k <= limits + procs + setup.shared {
            self.take_heap(names, k, k - 1 - limits - procs, line)
        } else {
            self.pass(b"end", Place::Over, line)
        }
    }
}
