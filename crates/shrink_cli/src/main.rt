//! `gameshrink`: the program. `start` of `gs_run` does all the work, and its contract states what is proved of the program.
#![tactic(auto)]

use gs_io::{StdSink, StdSource};
use gs_run::start;
use std::process::ExitCode;

fn main(rt: HostRuntime) -> ExitCode {
    let mut source = StdSource::new(rt.stdin());
    let mut out = StdSink::new(rt.stdout());
    let mut err = StdSink::new(rt.stderr());
    ExitCode::from(start(&rt, &mut source, &mut out, &mut err))
}
