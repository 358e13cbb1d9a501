//! Lists the equilibria, minimal diagnoses and minimal explanations of multi-context systems.
#![tactic(auto)]

use mcs_ports::{FileShelf, IdleGate, StdSink};
use mcs_top::run_program;
use std::env;
use std::process::ExitCode;

/// Runs the program on the words and devices of the operating system, and ends with the number of
/// its status.
fn main(rt: HostRuntime) -> ExitCode {
    let mut shelf = FileShelf::new(&rt);
    let mut sink = StdSink::new(rt.stdout(), rt.stderr());
    ExitCode::from(run_program(
        &rt,
        rt.alloc(),
        env::args(&rt),
        &mut shelf,
        &mut sink,
        &IdleGate,
    ))
}
