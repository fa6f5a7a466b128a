//! The program `riptide`: reads a workload from standard input, runs it and prints its calls and cycles.
//!
//! `main` makes what is outside, the words of the command line, standard input, output and error, and hands it to
//! `answer` of `tide_run`, with whose exit status it ends. It may touch `tide_run`, the options, and of what is outside
//! `tide_io` and std. Nothing is decided here.
#![tactic(auto)]

mod words;

use std::env;
use std::process::ExitCode;
use tide_io::{Gathered, RealSink, RealSource};
use tide_run::answer;
use words::words_of;

fn main(rt: HostRuntime) -> ExitCode {
    let alloc = rt.alloc();
    let words = words_of(alloc, env::args(&rt));
    let mut source = RealSource::new(rt.stdin());
    let mut out = Gathered::new(RealSink::new(rt.stdout()));
    let mut err = RealSink::new(rt.stderr());
    let ended = answer(&rt, alloc, words, &mut source, &mut out, &mut err);
    ExitCode::from(ended.status)
}
