//! Runs of drawn workloads on threads, beside visitors, whose texts are judged.
ghost use Rattle.std.specs.Prelude.{◌≤◌};

use crate::facts::counts::Counts;
use crate::facts::doctored::{WAYS, Way};
use crate::facts::drawn::drawn;
use crate::facts::facts::Facts;
use crate::outcomes::ALL_APART;
use check_heap::{large_number, number_text, tell};
use std::alloc::{AllocError, Global};
use std::marker::Sync;
use std::thread::Threads;
use tide_model::FreePass;
use tide_run::{Outcome, run};
use tide_workload::{Workload, read};

/// Whether the facts don't hold of an outcome that is changed in this way. Where that leaves it as it was, there is
/// nothing to refuse.
fn is_refused(
    alloc: Global,
    load: &Workload,
    outcome: &Outcome,
    way: Way,
    counts: &mut Counts,
) -> Result<bool, AllocError> {
    let mut told = Facts::of(alloc, outcome)?;
    if !told.change(way) {
        return Ok(true);
    }
    counts.take_changed(way);
    Ok(!told.hold(alloc, load)?)
}

/// Whether the facts hold of a run's outcome.
fn is_held(
    alloc: Global,
    load: &Workload,
    outcome: &Outcome,
    counts: &mut Counts,
) -> Result<bool, AllocError> {
    let told = Facts::of(alloc, outcome)?;
    counts.take(&told);
    counts.take_races(outcome.deferred());
    told.hold(alloc, load)
}

/// Whether the facts hold of a run's outcome, and of no changed one.
fn is_judged_so(
    alloc: Global,
    load: &Workload,
    outcome: &Outcome,
    counts: &mut Counts,
) -> Result<bool, AllocError> {
    let mut is_so = is_held(alloc, load, outcome, counts)?;
    for way in &WAYS {
        is_so = is_refused(alloc, load, outcome, *way, counts)? && is_so;
    }
    Ok(is_so)
}

/// The workload that is drawn for a seed, if what is drawn is one.
fn load_of(alloc: Global, files: [&str; 2], seed: u64) -> Result<Option<Workload>, AllocError> {
    let [settings, meetings] = files;
    let document = drawn(alloc, settings, meetings, seed)?;
    match read(alloc, document.as_slice()) {
        Ok(load) => Ok(Some(load)),
        Err(_) => Ok(None),
    }
}

/// How many visitors the run of a seed has: 0 to 8, one more from each seed to the next.
fn visitors_of(seed: u64) -> u8
    ensures { result ≤ 8 }
{
    (seed % 9) as u8
}

/// Runs a workload beside so many visitors, and answers whether its text is judged as expected.
fn is_run_so<R: Threads + Sync>(
    rt: &R,
    alloc: Global,
    load: &Workload,
    visitors: u8,
    counts: &mut Counts,
) -> Result<bool, AllocError>
    requires { visitors ≤ 8 }
{
    match run(rt, ALL_APART, alloc, load, visitors, &FreePass) {
        Ok(outcome) => is_judged_so(alloc, load, &outcome, counts),
        Err(_) => Err(AllocError),
    }
}

/// Runs the workload of a seed, and answers whether its text is judged as expected.
fn is_seed_so<R: Threads + Sync>(
    rt: &R,
    alloc: Global,
    files: [&str; 2],
    seed: u64,
    counts: &mut Counts,
) -> Result<bool, AllocError> {
    match load_of(alloc, files, seed)? {
        Some(load) => is_run_so(rt, alloc, &load, visitors_of(seed), counts),
        None => Ok(false),
    }
}

/// Tells a seed whose text isn't judged as expected.
fn tell_seed(alloc: Global, findings: &mut String, seed: u64) -> Result<(), AllocError> {
    let seed = number_text(alloc, seed)?;
    tell(findings, &["the facts aren't so of seed ", seed.as_str()])
}

/// Runs the workloads of so many seeds from this one, and tells those whose text isn't judged as expected. Each way to
/// doctor a text has to be tried.
fn are_runs_so<R: Threads + Sync>(
    rt: &R,
    alloc: Global,
    findings: &mut String,
    files: [&str; 2],
    seeds: [u64; 2],
    counts: &mut Counts,
) -> Result<bool, AllocError> {
    let [first, count] = seeds;
    let mut all = true;
    for place in 0..count {
        let seed = first.wrapping_add(place);
        if !is_seed_so(rt, alloc, files, seed, counts)? {
            tell_seed(alloc, findings, seed)?;
            all = false;
        }
    }
    Ok(all && counts.has_each_way())
}

/// Judges the texts of the workloads that are drawn from two texts, for so many seeds from this one, and tells what
/// they had if it is asked to.
pub fn check_facts<R: Threads + Sync>(
    rt: &R,
    alloc: Global,
    findings: &mut String,
    files: [&str; 2],
    seeds: [&str; 2],
    tells: bool,
) -> Result<bool, AllocError> {
    let [first, count] = seeds;
    let (Some(first), Some(count)) = (large_number(first), large_number(count)) else {
        return Ok(false);
    };
    let mut counts = Counts::new();
    let all = are_runs_so(rt, alloc, findings, files, [first, count], &mut counts)?;
    if tells {
        counts.tell(alloc, findings)?;
    }
    Ok(all)
}
