//! The program `bvd`: the command line is carried out over real files and standard output.
#![tactic(auto)]

mod command_line;

use bvd_host::{DiskKeeper, StdoutSink};
use command_line::answer;
use std::env;
use std::process::ExitCode;

fn main(rt: HostRuntime) -> ExitCode {
    let mut keeper = DiskKeeper::new(&rt);
    let mut out = StdoutSink::new(&rt);
    answer(rt.alloc(), env::args(&rt), &mut keeper, &mut out)
}
