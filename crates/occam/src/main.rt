//! Plays an occam program, whose source comes from a file or from standard input.
#![tactic(auto)]

use occ_program::{exit_code, run};
use std::process::ExitCode;

fn main(rt: HostRuntime) -> ExitCode {
    exit_code(run(&rt, &rt.stderr()))
}
