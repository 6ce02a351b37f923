//! The program `netset`. The crate `netset_commands` has its commands.
#![tactic(auto)]

mod version;

use crate::version::VERSION;
use std::process::ExitCode;

fn main(rt: HostRuntime) -> ExitCode {
    ExitCode::from(netset_commands::run(&rt, VERSION))
}
