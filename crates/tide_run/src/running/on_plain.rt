//! A workload's plain store, and running the workload on it. It knows no thread.
ghost use Rattle.std.specs.Prelude.{◌≡◌, false, map, IfOk};
ghost use Rattle.tide_run.specs.running.Runs.{AreScripts, IsNew, IsRunOf};

use crate::running::finishing::{kept_itself, outcome_of};
use crate::running::outcome::Outcome;
use crate::running::starting::{copied_scripts, layout_of, names_of, pacing_with, shapes_from};
use std::alloc::Global;
use tide_model::{Memory, Op};
use tide_periods::{InTurn, Pacing, Recorder, Recording, room_for, run_on};
use tide_plain::PlainStore;
use tide_threads::CycleLog;
use tide_workload::Workload;

/// The plain store of a workload's layout and shapes, on which nothing was run yet, with room for so many events beside
/// it.
fn plain_for(alloc: Global, load: &Workload, room: usize) -> Result<Recording<PlainStore>, Memory>
    ensures new { IfOk result (λ new. IsNew load.now (⟦<Recording<PlainStore> as Recorder>⟧.recorded new)) }
    ensures stands { IfOk result (λ new. ⟦<Recording<PlainStore> as Recorder>⟧.stands new) }
{
    let layout = layout_of(load, 0);
    let shapes = shapes_from(alloc, load.paths())?;
    let store = PlainStore::new(alloc, layout, shapes)?;
    let recorder = Recording::new(alloc, store, layout.block_count(), room)?;
    Ok(recorder)
}

/// Runs a workload's scripts on a store of its layout and shapes, on which nothing was run yet.
fn run_with<T: Recorder + Drop>(
    alloc: Global,
    load: &Workload,
    scripts: Vec<Vec<Op>>,
    recorder: T,
    pacing: Pacing,
) -> Result<Outcome, Memory>
    requires new { IsNew load.now (T.recorded recorder) }
    requires stands { T.stands recorder }
    requires scripts { AreScripts load.now (map (λ ops. ops.items) scripts.items) }
    requires calls { pacing.calls ≡ load.now.settings.period }
    requires visits { pacing.visits ≡ load.now.settings.period }
    requires headroom { pacing.headroom ≡ load.now.settings.headroom }
    requires paces { T.paces pacing }
    ensures run { IfOk result (IsRunOf load.now pacing.trigger 0) }
    ensures own { IfOk result (λ ran. ran.heap ≡ None) }
{
    let names = names_of(alloc, load)?;
    let parts = InTurn::new(alloc, recorder, scripts)?;
    let ran = run_on(alloc, parts, pacing)?;
    let nothing = CycleLog::new(alloc);
    Ok(outcome_of(load, 0, names, kept_itself(ran), nothing, 0))
}

/// Runs a workload on the plain store, in periods: in each running part the mutators make their calls one after
/// another, in the order of their numbers. No cycle begins by itself.
pub fn plain(alloc: Global, load: &Workload) -> Result<Outcome, Memory>
    ensures run { IfOk result (IsRunOf load.now 0 0) }
    ensures own { IfOk result (λ ran. ran.heap ≡ None) }
{
    let scripts = copied_scripts(alloc, load)?;
    let room = room_for(scripts.as_slice());
    let recorder = plain_for(alloc, load, room.events)?;
    let pacing = pacing_with(load.settings(), 0);
    let outcome = run_with(alloc, load, scripts, recorder, pacing)?;
    Ok(outcome)
}
