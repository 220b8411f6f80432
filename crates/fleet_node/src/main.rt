//! The program `fleet-node`.
#![tactic(auto)]

use node_stream::run_program;
use std::process::ExitCode;

fn main(rt: HostRuntime) -> ExitCode {
    run_program(&rt)
}
