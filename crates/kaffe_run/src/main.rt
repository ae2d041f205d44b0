//! The program that runs traces alone: what `k_run` does, with the standard streams and the arguments of the command line.
#![tactic(auto)]

use k_io::{NoGate, StdSink, StdSource};
use k_run::program;
use std::env;
use std::process::ExitCode;

fn main(rt: HostRuntime) -> ExitCode {
    program(
        &rt,
        rt.alloc(),
        env::args(&rt),
        &mut StdSource::of(rt.stdin()),
        &mut StdSink::of(rt.stdout()),
        &NoGate,
    )
}
