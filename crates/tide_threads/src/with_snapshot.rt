//! Runs that end with a snapshot.
ghost use Rattle.std.specs.Prelude.{◌≡◌, ◌≤◌, [], All, IfOk, length, map};
ghost use Rattle.tide_model.specs.History.{state_after};
ghost use Rattle.tide_periods.specs.Asking.{scripts_of};
ghost use Rattle.tide_periods.specs.Part.{AreCursors};
ghost use Rattle.tide_periods.specs.Run.{HasRun};
ghost use Rattle.tide_retained.specs.Contents.{HasKeysOf};
ghost use Rattle.tide_retained.specs.Holding.{IsSnapshotOf};
ghost use Rattle.tide_shape.specs.Lists.{lists_of};
ghost use Rattle.tide_table.specs.tide_statistics.Statistics.{statistics_in};
ghost use Rattle.tide_threads.specs.OnThreads.{cursors_on, pace_on, recorded_in, setting_in, setting_left};
ghost use Rattle.tide_threads.specs.OnThreads.{MayOpenOn, Stands};

use crate::on_threads::OnThreads;
use crate::periods::{HeapRun, close_run, run_periods};
use std::alloc::Global;
use std::marker::Sync;
use std::thread::Threads;
use tide_model::{Memory, Turnstile};
use tide_snapshot::Snapshot;
use tide_table::CycleLog;

/// Runs the scripts of a heap's mutators as `run_on_threads` does, and takes a snapshot of what the heap holds at the
/// end.
pub fn run_with_snapshot<R: Threads + Sync, T: Turnstile>(
    rt: &R,
    threads: usize,
    alloc: Global,
    turnstile: &T,
    on: OnThreads,
) -> Result<(HeapRun, Snapshot), Memory>
    requires stands { Stands on }
    requires nothing { (recorded_in on).history ≡ [] }
    requires cursors { AreCursors (recorded_in on) (cursors_on on) }
    requires few { length (cursors_on on) ≤ 16 }
    requires short { All (λ ops. length ops ≤ 65536) (scripts_of (cursors_on on)) }
    requires opens { MayOpenOn on on.books.pacing.calls }
    ensures ran { IfOk result (λ left. HasRun (setting_in on) (pace_on on) (scripts_of (cursors_on on))
        left.0.finished.kept.seat.me.0.seen left.0.finished.report
        (map (λ own. own.items) left.0.finished.calls.items) left.0.finished.live) }
    ensures heap { IfOk result (λ left. setting_left left.0.finished.kept ≡ setting_in on) }
    ensures told { IfOk result (λ left. left.0.log.ended ≡ statistics_in left.0.finished.kept.seat.me.0.seen) }
    ensures none_met { IfOk result (λ left. (setting_in on).layout.visitors ≡ 0 → left.0.deferred ≡ 0) }
    ensures snapshot { IfOk result (λ left. IsSnapshotOf (setting_in on).layout
        (state_after (setting_in on).layout left.0.finished.kept.seat.me.0.seen) left.1) }
    ensures keys { IfOk result (λ left. HasKeysOf (setting_in on).shapes left.1) }
{
    let mut on = on;
    let mut log = CycleLog::new(alloc);
    run_periods(rt, threads, turnstile, &mut on, &mut log)?;
    let snapshot = on.snapshot(alloc)?;
    let left = close_run(on, log)?;
    Ok((left, snapshot))
}
