//! The program `tlmrun`: it runs the words of the command line over the files of the current folder and the
//! standard streams, and ends with the number of the answer.
#![tactic(auto)]

use std::process::ExitCode;
use tlm_top::program;

fn main(rt: HostRuntime) -> ExitCode {
    ExitCode::from(program(&rt, rt.stdout(), rt.stderr()))
}
