//! A workload's heap that its mutators and visitors share, and running the workload on it, on threads.
ghost use Rattle.std.specs.Prelude.{◌≡◌, ◌≤◌, [], IfOk, Some};
ghost use Rattle.tide_run.specs.running.Runs.{AreScripts, IsRunOf, setting_of_work};
ghost use Rattle.tide_periods.specs.Asking.{scripts_of};
ghost use Rattle.tide_periods.specs.Part.{AreCursors};
ghost use Rattle.tide_threads.specs.OnThreads.{cursors_on, recorded_in, setting_in, MayOpenOn, Stands};

use crate::running::finishing::{kept_by_heap, outcome_of};
use crate::running::outcome::Outcome;
use crate::running::starting::{copied_scripts, layout_of, names_of, pacing_with, shapes_from};
use std::alloc::Global;
use std::marker::Sync;
use std::thread::Threads;
use tide_model::{Memory, Turnstile};
use tide_periods::{Pacing, room_for};
use tide_threads::{HeapRun, OnThreads, run_on_threads};
use tide_workload::Workload;

/// The heap that threads share, with a mutator for each of the workload's scripts and so many visitors, and its cycles
/// paced so.
pub(crate) fn heap_for(
    alloc: Global,
    load: &Workload,
    visitors: u8,
    pacing: Pacing,
) -> Result<OnThreads, Memory>
    requires { visitors ≤ 8 }
    ensures setting { IfOk result (λ on. setting_in on ≡ setting_of_work load.now visitors) }
    ensures nothing { IfOk result (λ on. (recorded_in on).history ≡ []) }
    ensures stands { IfOk result Stands }
    ensures cursors { IfOk result (λ on. AreCursors (recorded_in on) (cursors_on on)) }
    ensures scripts { IfOk result (λ on. AreScripts load.now (scripts_of (cursors_on on))) }
    ensures pacing { IfOk result (λ on. on.books.pacing ≡ pacing) }
    ensures opens { IfOk result (λ on. MayOpenOn on on.books.pacing.calls) }
{
    let shapes = shapes_from(alloc, load.paths())?;
    let scripts = copied_scripts(alloc, load)?;
    let room = room_for(scripts.as_slice());
    let on = OnThreads::new(
        alloc,
        layout_of(load, visitors),
        shapes,
        scripts,
        room,
        pacing,
    )?;
    Ok(on)
}

/// Runs a workload on one heap, with a thread for each mutator and each visitor in each part as far as so many threads
/// go, and else one for several, or for all where one of them alone has something to do. A cycle marks while calls go on
/// between its pauses, and begins by itself where the workload's trigger asks for it; there may be up to 8 visitors, who
/// mark beside the calls.
pub fn run<R: Threads + Sync, T: Turnstile>(
    rt: &R,
    threads: usize,
    alloc: Global,
    load: &Workload,
    visitors: u8,
    turnstile: &T,
) -> Result<Outcome, Memory>
    requires { visitors ≤ 8 }
    ensures run { IfOk result (IsRunOf load.now load.now.settings.trigger visitors) }
    ensures heap { IfOk result (λ ran. ran.heap ≡ Some (setting_of_work load.now visitors)) }
{
    let settings = load.settings();
    let names = names_of(alloc, load)?;
    let pacing = pacing_with(settings, settings.trigger);
    let on = heap_for(alloc, load, visitors, pacing)?;
    let left = run_on_threads(rt, threads, alloc, turnstile, on)?;
    let HeapRun {
        finished,
        log,
        deferred,
    } = left;
    let kept = kept_by_heap(finished);
    Ok(outcome_of(load, visitors, names, kept, log, deferred))
}
