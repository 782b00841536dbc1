//! Replays captures through the connection tracker and performs the commands of a script, and prints every event, one
//! verdict per packet and one answer per command.
#![tactic(auto)]

use ct_io::{NoGate, StdFiles, StdSink};
use replay_top::{collect_words, exit_code, run_without_words, top};
use std::env;
use std::process::ExitCode;

fn main(rt: HostRuntime) -> ExitCode {
    let mut files = StdFiles::new(&rt);
    let mut out = StdSink::out(rt.stdout());
    let mut err = StdSink::err(rt.stderr());
    let run = match collect_words(rt.alloc(), env::args(&rt)) {
        Ok(words) => top(
            &rt,
            rt.alloc(),
            words.as_slice(),
            &mut files,
            &mut out,
            &mut err,
            &NoGate,
        ),
        Err(_) => run_without_words(&mut err),
    };
    exit_code(&run)
}
