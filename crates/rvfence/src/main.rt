//! The program `rvfence`: everything it does is the library `fs_app`.
#![tactic(auto)]

use std::io::IsTerminal;
use std::process::ExitCode;

fn main(rt: HostRuntime) -> ExitCode {
    fs_app::run(&rt, rt.stderr().is_terminal())
}
