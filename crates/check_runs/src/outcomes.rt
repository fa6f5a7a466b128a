//! The outcomes of runs, by `plain` and `run`.
ghost use Rattle.std.specs.Prelude.{◌≤◌};

use check_heap::{number_between, numbers_text, reply_text};
use std::alloc::{AllocError, Global};
use std::marker::Sync;
use std::thread::Threads;
use tide_model::{Memory, Turnstile};
use tide_run::{Answered, Outcome, Report, plain, run};
use tide_workload::Workload;

/// So many threads that each of 16 mutators and 8 visitors has one of its own: who is held then holds nobody else.
pub const ALL_APART: usize = 24;

/// Puts a number with a text before it and one behind it at the end of a text.
fn add_number(
    alloc: Global,
    all: &mut String,
    before: &str,
    number: u64,
    behind: &str,
) -> Result<(), AllocError> {
    let one = number_between(alloc, before, number, behind)?;
    all.push_str(one.as_str())
}

/// The text of a call with its reply.
fn call_text(alloc: Global, call: Answered) -> Result<String, AllocError> {
    let reply = reply_text(alloc, call.reply)?;
    format!(in alloc; "{:?} {}, ", call.op, reply.as_str())
}

/// Puts the calls of each mutator at the end of a text.
fn add_calls(alloc: Global, all: &mut String, outcome: &Outcome) -> Result<(), AllocError> {
    for m in 0..outcome.mutators() {
        for call in outcome.calls(m) {
            let call = call_text(alloc, *call)?;
            all.push_str(call.as_str())?;
        }
    }
    Ok(())
}

/// Puts the cycles of a run at the end of a text, and after them the cells that they freed.
fn add_report(alloc: Global, all: &mut String, report: &Report) -> Result<(), AllocError> {
    for line in report.cycles() {
        add_number(alloc, all, "cycle ", line.number, " ")?;
        add_number(alloc, all, "kept ", u64::from(line.kept), " ")?;
        add_number(alloc, all, "freed ", u64::from(line.freed), ", ")?;
    }
    let ids = numbers_text(alloc, report.ids())?;
    all.push_str(ids.as_str())
}

/// The calls of each mutator with their replies, the cycles, how many cells live then, and how many races were met.
fn outcome_text(alloc: Global, outcome: &Outcome) -> Result<String, AllocError> {
    let mut all = String::new(alloc);
    add_calls(alloc, &mut all, outcome)?;
    add_report(alloc, &mut all, outcome.report())?;
    add_number(alloc, &mut all, ", live ", u64::from(outcome.live()), "")?;
    add_number(alloc, &mut all, ", deferred ", outcome.deferred(), "")?;
    Ok(all)
}

/// The text of the outcome of a run, if memory was enough for it.
fn text_of(alloc: Global, ran: Result<Outcome, Memory>) -> Result<String, AllocError> {
    match ran {
        Ok(outcome) => outcome_text(alloc, &outcome),
        Err(_) => Err(AllocError),
    }
}

/// The outcome of a workload's run by `plain`.
pub fn in_turn(alloc: Global, load: &Workload) -> Result<String, AllocError> {
    text_of(alloc, plain(alloc, load))
}

/// The outcome of a workload's run by `run`, with so many visitors and this turnstile.
pub fn in_threads<R: Threads + Sync, T: Turnstile>(
    rt: &R,
    alloc: Global,
    load: &Workload,
    visitors: u8,
    turnstile: &T,
) -> Result<String, AllocError>
    requires { visitors ≤ 8 }
{
    text_of(alloc, run(rt, ALL_APART, alloc, load, visitors, turnstile))
}
