//! Workers on threads, each of which draws one process after another.
ghost use Rattle.std.specs.Prelude.{◌<◌};
ghost use Rattle.k_turns.specs.Values.{AreFree, IsFree};

use crate::pass::TurnPass;
use crate::turns::Turns;
use k_types::Pid;
use std::sync::Wait;
use std::thread;
use std::thread::Threads;

/// Has one worker for each pass, on at most so many threads, draw processes until none waits. Each draws the process that has waited longest,
/// has it take a turn, and gives it back where the turn tells that there may be more to do; else it lets it go. Where no thread can be made
/// for a worker, the caller does its work. It waits for the queue, and for what the turns wait for, and takes no memory.
pub fn work_all<R: Threads + Wait + Sync, F: Fn(Pid) -> bool + Sync>(
    rt: &R,
    turns: &Turns,
    passes: &mut [TurnPass],
    threads: usize,
    turn: &F,
)
    requires threads { 0 < threads }
    requires free { AreFree turns.now passes.old }
    requires takes { (pid : Pid) → F.pre turn.now pid }
    ensures { AreFree turns.now passes.new }
{
    thread::for_each_mut(
        rt,
        passes,
        threads,
        &|_, pass: &mut TurnPass|
            requires free { IsFree turns.now pass.old }
            requires takes { (pid : Pid) → F.pre turn.now pid }
            ensures { IsFree turns.entry.now pass.new }
        {
            work(rt, turns, pass, turn);
        },
    );
}

/// One worker, until it finds no process in the queue.
fn work<R: Wait, F: Fn(Pid) -> bool>(rt: &R, turns: &Turns, pass: &mut TurnPass, turn: &F)
    requires free { IsFree turns.now pass.old }
    requires takes { (pid : Pid) → F.pre turn.now pid }
    ensures { IsFree turns.now pass.new }
{
    for _ in rt.forever() {
        let Some(pid) = turns.draw(rt, pass) else {
            return;
        };
        if turn(pid) {
            turns.give_back(rt, pass);
        } else {
            turns.retire(pass);
        }
    }
    unreachable!()
}
