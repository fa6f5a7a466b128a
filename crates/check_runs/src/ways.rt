//! The workloads of a list, each run on the plain store and on a heap where both come to one thing: no cycle begins by
//! itself, since none does on the plain store, and there is one mutator, so that no order of the threads' steps can
//! change what it comes to. What the others print is compared, or judged, by `.ci/workloads`.

use crate::outcomes::{in_threads, in_turn};
use crate::shelf::Shelf;
use check_heap::tell;
use std::alloc::{AllocError, Global};
use std::marker::Sync;
use std::thread::Threads;
use tide_model::FreePass;
use tide_workload::{Workload, read};

/// Whether a workload has one outcome, on whichever store it is run.
fn has_one_outcome(load: &Workload) -> bool {
    load.mutators() == 1 && load.settings().trigger == 0
}

/// Whether a workload comes to the same on the plain store and on a heap, if it has one outcome.
fn comes_to_one<R: Threads + Sync>(
    rt: &R,
    alloc: Global,
    load: &Workload,
) -> Result<bool, AllocError> {
    if !has_one_outcome(load) {
        return Ok(true);
    }
    let on_plain = in_turn(alloc, load)?;
    let on_heap = in_threads(rt, alloc, load, 0, &FreePass)?;
    Ok(on_plain.as_str() == on_heap.as_str())
}

/// Whether a document is a workload that comes to the same each way that it is run.
fn is_so<R: Threads + Sync>(rt: &R, alloc: Global, document: &[u8]) -> Result<bool, AllocError> {
    match read(alloc, document) {
        Ok(load) => comes_to_one(rt, alloc, &load),
        Err(_) => Ok(false),
    }
}

/// Runs each workload of some names each way, and tells those that are wanting or come to different things.
pub fn check_ways<R: Threads + Sync>(
    rt: &R,
    alloc: Global,
    findings: &mut String,
    shelf: &Shelf,
    names: &str,
) -> Result<bool, AllocError> {
    let mut all = true;
    for name in names.lines() {
        let is_one = match shelf.find(name) {
            Some(stored) => is_so(rt, alloc, stored.document())?,
            None => false,
        };
        if !is_one {
            tell(findings, &[name, ": not the same each way"])?;
            all = false;
        }
    }
    Ok(all)
}
