//! Reads networks from standard input, one per line, and prints the shortest list with the same addresses.
#![tactic(auto)]

use ipnet_tool::Watched;
use ipnet_tool::program::{arguments, report, run_watched};
use std::env;
use std::process::ExitCode;

fn main(rt: HostRuntime) -> ExitCode {
    let (mut out, mut faults) = (rt.stdout(), rt.stderr());
    let mut out = Watched::new(&mut out);
    let mut faults = Watched::new(&mut faults);
    let status = match arguments(rt.alloc(), env::args(&rt)) {
        Ok(args) => run_watched(
            rt.alloc(),
            args.as_slice(),
            &mut rt.stdin(),
            &mut out,
            &mut faults,
        ),
        Err(failure) => report(&mut faults, failure),
    };
    ExitCode::from(status)
}
