//! Shows a host of two guests under one limit, of which one keeps all that it makes and is killed. It prints what each is charged.
#![tactic(auto)]

use k_keeper::{Host, HostError, Keeper, OpenError, Rooms};
use k_types::{Event, Fault, LimitId, Op, Pid, Reg, Reply, TypeId};

/// Process 0 is the host's own, and processes 1 and 2 are its guests. Limit 2 is above those of both.
const SETUP: &[u8] = b"kaffe 1\nkernel 4096 4\ntype Node ref ref int\nlimit root 10000\n\
limit own root hard 1000\nlimit guests root hard 6000\nlimit a guests soft 4000\nlimit b guests soft 4000\n\
proc host own\nproc good a\nproc greedy b\n";

/// Why the program ends early.
#[derive(Debug, Drop)]
enum Stop {
    Open(OpenError),
    Call(HostError),
    Print(std::io::Error),
}

/// Puts one node more in front of the guest's list, or answers the limit that is full. Guest 1 drops its list at each twentieth step.
fn grow(keeper: &mut Keeper, guest: Pid, step: u64) -> Result<Option<LimitId>, HostError> {
    let (reg, from, ty) = (Reg(0), Reg(1), TypeId(0)); // of the list, of the new node, and its type
    if guest == Pid(1) && step % 20 == 0 {
        keeper.operate(guest, &Op::Clear { reg })?;
    }
    let made = keeper.operate(guest, &Op::New { reg: from, ty })?;
    if let Event::Done { reply, .. } = made
        && let Reply::Refused(Fault::LimitFull(limit)) = reply
    {
        return Ok(Some(limit));
    }
    let (base, field, value) = (from, 0, reg);
    keeper.operate(guest, &Op::Store { base, field, value })?;
    keeper.operate(guest, &Op::Move { reg, from })?;
    Ok(None)
}

/// Prints what each guest is charged, what is used at limit 2, and the bytes of the kernel heap.
fn charges(rt: &impl Print, host: &Host, when: &str) -> Result<(), Stop> {
    let guests = (host.charge(Pid(1)), host.charge(Pid(2)));
    let limit = (host.use_of(LimitId(2)), host.max_of(LimitId(2)));
    let ((Some(good), Some(greedy)), (Some(used), Some(most))) = (guests, limit) else {
        return Err(Stop::Call(HostError::Unknown));
    };
    let kernel = host.kernel_bytes();
    println!(rt;
        "{when:<26} good {good:>5}  greedy {greedy:>5}  guests {used:>5} of {most}  kernel heap {kernel}"
    ).map_err(Stop::Print)
}

/// Has the guest grow. Where a limit is full the guest is collected, and killed if that frees nothing.
fn turn(rt: &impl Print, keeper: &mut Keeper, guest: Pid, step: u64) -> Result<(), Stop> {
    let Some(LimitId(limit)) = grow(keeper, guest, step).map_err(Stop::Call)? else {
        return Ok(());
    };
    keeper.collect(guest).map_err(Stop::Call)?;
    let (Pid(number), freed) = (guest, keeper.freed().len());
    println!(rt;
        "guest {number}: limit {limit} full at step {step}, a collection freed {freed} objects"
    ).map_err(Stop::Print)?;
    if freed > 0 {
        return Ok(());
    }
    charges(rt, keeper.host(), "over budget:")?;
    keeper.kill(guest).map_err(Stop::Call)?;
    charges(rt, keeper.host(), "killed:")?;
    keeper.collect_kernel(Pid(0)).map_err(Stop::Call)?;
    charges(rt, keeper.host(), "kernel heap collected:")
}

fn main(rt: HostRuntime) -> Result<(), Stop> {
    let rooms = Rooms::for_objects(1000, 3, 0);
    let mut keeper = Keeper::read(rt.alloc(), SETUP, TypeId(0), 2000, rooms).map_err(Stop::Open)?;
    for step in 1..=300 {
        turn(&rt, &mut keeper, Pid(1), step)?;
        if keeper.host().has_ended(Pid(2)) == Some(false) {
            turn(&rt, &mut keeper, Pid(2), step)?;
        }
    }
    charges(&rt, keeper.host(), "at the end:")
}
