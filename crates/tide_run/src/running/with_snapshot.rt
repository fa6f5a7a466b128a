//! Running a workload on the heap that its mutators share, with a snapshot of what the heap holds at the end.
ghost use Rattle.std.specs.Prelude.{◌≡◌, ◌≤◌, IfOk, Some};
ghost use Rattle.tide_model.specs.History.{state_after};
ghost use Rattle.tide_run.specs.running.Runs.{IsRunOf, setting_of_work};
ghost use Rattle.tide_retained.specs.Contents.{HasKeysOf};
ghost use Rattle.tide_retained.specs.Holding.{IsSnapshotOf};
ghost use Rattle.tide_shape.specs.Shapes.{shapes_of_paths};

use crate::running::finishing::{kept_by_heap, outcome_of};
use crate::running::on_heap::heap_for;
use crate::running::outcome::Outcome;
use crate::running::starting::{names_of, pacing_with};
use std::alloc::Global;
use std::marker::Sync;
use std::thread::Threads;
use tide_model::{Memory, Turnstile};
use tide_snapshot::Snapshot;
use tide_threads::{HeapRun, run_with_snapshot as run_to_snapshot};
use tide_workload::Workload;

/// Runs a workload on one heap as `run` does, and takes a snapshot of the last state of its history. Lines of the
/// snapshot may be written under the names of this workload's keys.
pub fn run_with_snapshot<R: Threads + Sync, T: Turnstile>(
    rt: &R,
    threads: usize,
    alloc: Global,
    load: &Workload,
    visitors: u8,
    turnstile: &T,
) -> Result<(Outcome, Snapshot), Memory>
    requires { visitors ≤ 8 }
    ensures run { IfOk result (λ shown. IsRunOf load.now load.now.settings.trigger visitors shown.0) }
    ensures heap { IfOk result (λ shown. shown.0.heap ≡ Some (setting_of_work load.now visitors)) }
    ensures snapshot { IfOk result (λ shown.
        IsSnapshotOf shown.0.layout (state_after shown.0.layout shown.0.history) shown.1) }
    ensures keys { IfOk result (λ shown. HasKeysOf (shapes_of_paths load.now.paths) shown.1) }
{
    let settings = load.settings();
    let names = names_of(alloc, load)?;
    let pacing = pacing_with(settings, settings.trigger);
    let on = heap_for(alloc, load, visitors, pacing)?;
    let (left, snapshot) = run_to_snapshot(rt, threads, alloc, turnstile, on)?;
    let HeapRun {
        finished,
        log,
        deferred,
    } = left;
    let kept = kept_by_heap(finished);
    let outcome = outcome_of(load, visitors, names, kept, log, deferred);
    Ok((outcome, snapshot))
}
