//! `pslink`, the Linker of UCSD Pascal II.0 for Pascal hosts and units, as a program: `main` hands the
//! standard streams of the process to `ps_command`, which does the command.
#![tactic(auto)]

#[cfg(test)]
mod tests;

pub use ps_command::run;
use std::io::{Stderr, Stdout};
use std::process::ExitCode;

fn main(rt: HostRuntime) -> ExitCode {
    let mut rt = rt;
    let mut out = rt.stdout();
    let mut err = rt.stderr();
    ps_command::run_process::<_, Stdout, Stderr>(&mut rt, &mut out, &mut err)
}
