//! Two threads draw processes and give them back or retire them.
ghost use Rattle.std.specs.Prelude.{◌≡◌, None, Some, [], ◌∷◌, All};
ghost use Rattle.k_turns.specs.Values.{IsPassOf};
ghost use Rattle.k_turns.specs.Lone.{IsLone, TakesTurn};
ghost use Rattle.k_turns.specs.Steps.{fresh_hand};

use k_turns::{TurnPass, Turns};
use std::sync::{Mutex, Wait};
use std::test::Fail;
use std::thread;
use std::thread::Threads;

fn take_turn<R: Wait>(rt: &R, turns: &Turns, pass: &mut TurnPass) -> Option<u32>
    requires { IsPassOf turns.now pass.old × (pass.old.held ≡ None) }
    ensures { IsPassOf turns.now pass.new × (pass.new.held ≡ None) }
{
    let pid = turns.draw(rt, pass)?;
    turns.give_back(rt, pass);
    Some(pid.0)
}

fn take_last_turn<R: Wait>(rt: &R, turns: &Turns, pass: &mut TurnPass) -> Option<u32>
    requires { IsPassOf turns.now pass.old × (pass.old.held ≡ None) }
    ensures { IsPassOf turns.now pass.new × (pass.new.held ≡ None) }
{
    let pid = turns.draw(rt, pass)?;
    turns.retire(pass);
    Some(pid.0)
}

/// With one worker that has none out, the turns come in the order of queueing.
fn lone_turn<R: Wait>(rt: &R, turns: &Turns, pass: &mut TurnPass) -> Option<u32>
    requires turns { IsPassOf turns.now pass.old × (pass.old.held ≡ None) }
    requires lone { IsLone pass.old.hand }
    ensures turns { IsPassOf turns.now pass.new × (pass.new.held ≡ None) }
    ensures turn { TakesTurn pass.old.hand result pass.new.hand }
{
    let pid = turns.draw(rt, pass)?;
    turns.give_back(rt, pass);
    Some(pid.0)
}

/// Two processes and one worker: what three turns give.
fn three_turns<R: Wait>(rt: &R, turns: &Turns, pass: &mut TurnPass) -> [Option<u32>; 3]
    requires turns { IsPassOf turns.now pass.old × (pass.old.held ≡ None) }
    requires fresh { pass.old.hand ≡ fresh_hand 2 1 }
    ensures { result ≡ Some 0 ∷ Some 1 ∷ Some 0 ∷ [] }
{
    let first = lone_turn(rt, turns, pass);
    let second = lone_turn(rt, turns, pass);
    let third = lone_turn(rt, turns, pass);
    [first, second, third]
}

fn work<R: Wait>(rt: &R, turns: &Turns, mut pass: TurnPass, retired: &Mutex<Vec<u32>>)
    requires { IsPassOf turns.now pass × (pass.held ≡ None) }
{
    take_turn(rt, turns, &mut pass);
    take_turn(rt, turns, &mut pass);
    if let Some(pid) = take_last_turn(rt, turns, &mut pass) {
        let _ = retired.lock(rt).push(pid);
    }
}

fn work_in_threads<R: Threads + Wait + Sync>(
    rt: &R,
    turns: &Turns,
    first: TurnPass,
    second: TurnPass,
    retired: &Mutex<Vec<u32>>,
) -> bool
    requires first { IsPassOf turns.now first × (first.held ≡ None) }
    requires second { IsPassOf turns.now second × (second.held ≡ None) }
{
    thread::scope(
        thread::scope_env(),
        rt,
        |scope|
            requires first { IsPassOf turns.now first × (first.held ≡ None) }
            requires second { IsPassOf turns.now second × (second.held ≡ None) }
        {
            let one = scope.spawn(
                move ||
                    requires { IsPassOf turns.now first × (first.held ≡ None) }
                { work(rt, turns, first, retired) },
            );
            let other = scope.spawn(
                move ||
                    requires { IsPassOf turns.now second × (second.held ≡ None) }
                { work(rt, turns, second, retired) },
            );
            one.is_ok() && other.is_ok()
        },
    )
}

fn work_all<R: Threads + Wait + Sync>(rt: &R, turns: &Turns, passes: &mut [TurnPass])
    requires { All (λ pass. IsPassOf turns.now pass × (pass.held ≡ None)) passes.old }
    ensures { All (λ pass. IsPassOf turns.now pass × (pass.held ≡ None)) passes.new }
{
    thread::for_each_mut(
        rt,
        passes,
        4,
        &|_, pass: &mut TurnPass|
            requires { IsPassOf turns.now pass.old × (pass.old.held ≡ None) }
            ensures { IsPassOf turns.entry.now pass.new × (pass.new.held ≡ None) }
        {
            take_turn(rt, turns, pass);
        },
    );
}

#[test]
fn two_threads_retire_each_process_once(rt: HostRuntime) -> Result<(), Fail> {
    let (turns, mut passes) = Turns::make(&rt, rt.alloc(), 4, 3)?;
    let mut last = passes.pop().ok_or("a pass")?;
    let second = passes.pop().ok_or("a pass")?;
    let first = passes.pop().ok_or("a pass")?;
    let retired = Mutex::new(Vec::with_capacity(rt.alloc(), 4)?);
    let made = work_in_threads(&rt, &turns, first, second, &retired);
    assert!(rt; made);
    let mut retired = retired.into_inner();
    assert_eq!(rt; retired.len(), 2);
    retired.push(take_last_turn(&rt, &turns, &mut last).ok_or("a process")?)?;
    retired.push(take_last_turn(&rt, &turns, &mut last).ok_or("a process")?)?;
    assert_eq!(rt; take_last_turn(&rt, &turns, &mut last), None);
    retired.sort_unstable();
    assert_eq!(rt; retired.as_slice(), [0, 1, 2, 3].as_slice());
    Ok(())
}

#[test]
fn one_worker_draws_in_the_order_of_queueing(rt: HostRuntime) -> Result<(), Fail> {
    let (turns, mut passes) = Turns::make(&rt, rt.alloc(), 3, 1)?;
    let mut pass = passes.pop().ok_or("a pass")?;
    assert_eq!(rt; take_turn(&rt, &turns, &mut pass), Some(0));
    assert_eq!(rt; take_last_turn(&rt, &turns, &mut pass), Some(1));
    assert_eq!(rt; take_turn(&rt, &turns, &mut pass), Some(2));
    assert_eq!(rt; take_turn(&rt, &turns, &mut pass), Some(0));
    assert_eq!(rt; take_last_turn(&rt, &turns, &mut pass), Some(2));
    assert_eq!(rt; take_last_turn(&rt, &turns, &mut pass), Some(0));
    assert_eq!(rt; take_last_turn(&rt, &turns, &mut pass), None);
    Ok(())
}

#[test]
fn workers_share_a_slice_of_passes(rt: HostRuntime) -> Result<(), Fail> {
    let (turns, mut passes) = Turns::make(&rt, rt.alloc(), 4, 3)?;
    work_all(&rt, &turns, passes.as_mut_slice());
    work_all(&rt, &turns, passes.as_mut_slice());
    assert_eq!(rt; passes.len(), 3);
    Ok(())
}

#[test]
fn one_worker_has_two_processes_by_turns(rt: HostRuntime) -> Result<(), Fail> {
    let (turns, mut passes) = Turns::make(&rt, rt.alloc(), 2, 1)?;
    let mut pass = passes.pop().ok_or("a pass")?;
    assert_eq!(rt;
        three_turns(&rt, &turns, &mut pass),
        [Some(0), Some(1), Some(0)]
    );
    Ok(())
}
