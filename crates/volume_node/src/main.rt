//! The program `volume-node`.
#![tactic(auto)]

use std::process::ExitCode;
use volume_stream::run_program;

fn main(rt: HostRuntime) -> ExitCode {
    run_program(&rt)
}
