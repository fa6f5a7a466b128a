//! A run on threads, in periods: a part is opened and run, a freeze follows, until each mutator has retired.
ghost use Rattle.std.specs.Prelude.{◌≡◌, ◌≤◌, ◌-◌, ◌<◌, ◌^◌, true, false, [], All, length, map, IfOk, OnOk};
ghost use Rattle.std.specs.List.{list_all};
ghost use Rattle.tide_model.specs.Cycle.{live_count};
ghost use Rattle.tide_model.specs.Periods.{is_over, next_run};
ghost use Rattle.tide_periods.specs.Asking.{scripts_of};
ghost use Rattle.tide_periods.specs.Left.{total_left};
ghost use Rattle.tide_periods.specs.Part.{AreCursors};
ghost use Rattle.tide_periods.specs.Periods.{RanAll, RanPeriod};
ghost use Rattle.tide_periods.specs.Recorded.{IsSettled};
ghost use Rattle.tide_periods.specs.Run.{HasRun};
ghost use Rattle.tide_report.specs.Ends.{TellsEnds};
ghost use Rattle.tide_table.specs.tide_statistics.Few.{AreFew};
ghost use Rattle.tide_table.specs.tide_statistics.Statistics.{HasLogged, nothing, statistics_in};
ghost use Rattle.tide_threads.specs.OnThreads.{cursors_on, pace_on, recorded_in, setting_in, setting_left};
ghost use Rattle.tide_threads.specs.OnThreads.{MayOpenOn, Stands};

use crate::on_threads::OnThreads;
use std::alloc::Global;
use std::marker::Sync;
use std::thread::Threads;
use tide_model::{Memory, Turnstile};
use tide_periods::Finished;
use tide_shape::Shapes;
use tide_table::{Closed, CycleLog};

/// Opens a part in which each mutator has so many calls, runs it, and freezes. Answers how many it has in the next one.
fn run_period<R: Threads + Sync, T: Turnstile>(
    rt: &R,
    threads: usize,
    turnstile: &T,
    on: &mut OnThreads,
    log: &mut CycleLog,
    run: u32,
) -> Result<u32, Memory>
    requires settled { IsSettled (recorded_in on.old) }
    requires stands { Stands on.old }
    requires cursors { AreCursors (recorded_in on.old) (cursors_on on.old) }
    requires goes_on { is_over (setting_in on.old).layout (recorded_in on.old).history ≡ false }
    requires room { (recorded_in on.old).cycles < 2 ^ 60 }
    requires few { (recorded_in on.old).parts < 2 ^ 32 - 1 }
    requires run { run ≡ next_run (pace_on on.old) (setting_in on.old).layout (recorded_in on.old).history }
    requires calls { 0 < run }
    requires opens { MayOpenOn on.old run }
    requires logged { HasLogged (recorded_in on.old).history log.old }
    requires told_few { AreFew (recorded_in on.old).parts log.old }
    ensures ran { IfOk result (RanPeriod (recorded_in on.old) (recorded_in on.new) (pace_on on.old)) }
    ensures pacing { OnOk result (on.new.books.pacing ≡ on.old.books.pacing) }
    ensures stands { OnOk result (Stands on.new) }
    ensures left { OnOk result (total_left (recorded_in on.new) (cursors_on on.new)
        < total_left (recorded_in on.old) (cursors_on on.old)) }
    ensures cursors { OnOk result (AreCursors (recorded_in on.new) (cursors_on on.new)) }
    ensures scripts { OnOk result (scripts_of (cursors_on on.new) ≡ scripts_of (cursors_on on.old)) }
    ensures opens { IfOk result (MayOpenOn on.new) }
    ensures logged { OnOk result (HasLogged (recorded_in on.new).history log.new) }
    ensures told_few { OnOk result (AreFew (recorded_in on.new).parts log.new) }
{
    let stopped = on.run_part(rt, threads, turnstile, run)?;
    let is_over = on.are_all_retired();
    log.open();
    let next = on.freeze_and_tell(log, stopped || is_over)?;
    Ok(next)
}

/// Runs periods until each mutator has retired.
pub(crate) fn run_periods<R: Threads + Sync, T: Turnstile>(
    rt: &R,
    threads: usize,
    turnstile: &T,
    on: &mut OnThreads,
    log: &mut CycleLog,
) -> Result<(), Memory>
    requires settled { IsSettled (recorded_in on.old) }
    requires stands { Stands on.old }
    requires cursors { AreCursors (recorded_in on.old) (cursors_on on.old) }
    requires nothing { (recorded_in on.old).history ≡ [] }
    requires cycles { (recorded_in on.old).cycles ≡ 0 }
    requires parts { (recorded_in on.old).parts ≡ 0 }
    requires room { total_left (recorded_in on.old) (cursors_on on.old) < 2 ^ 32 - 1 }
    requires opens { MayOpenOn on.old on.old.books.pacing.calls }
    requires logged { log.old ≡ nothing }
    ensures logged { OnOk result (HasLogged (recorded_in on.new).history log.new) }
    ensures ran { OnOk result (RanAll (recorded_in on.new) (pace_on on.old) (cursors_on on.new)) }
    ensures retired { OnOk result (list_all (λ cursor. cursor.retired) (cursors_on on.new) ≡ true) }
    ensures stands { OnOk result (Stands on.new) }
    ensures same { OnOk result (setting_in on.new ≡ setting_in on.old) }
    ensures scripts { OnOk result (scripts_of (cursors_on on.new) ≡ scripts_of (cursors_on on.old)) }
{
    let mut run = on.books.pacing.calls;
    while !on.are_all_retired() {
        run = run_period(rt, threads, turnstile, on, log, run)?;
    }
    Ok(())
}

/// What a run on a heap leaves, the log of its cycles, and how many races its visitors met, as far as 64 bits count
/// them.
#[derive(Drop)]
pub struct HeapRun {
    pub finished: Finished<Closed<Shapes>>,
    pub log: CycleLog,
    pub deferred: u64,
}

/// Closes a heap on which each mutator has retired: what the run leaves.
pub(crate) fn close_run(on: OnThreads, log: CycleLog) -> Result<HeapRun, Memory>
    requires stands { Stands on }
    requires retired { list_all (λ cursor. cursor.retired) (cursors_on on) ≡ true }
    ensures history { IfOk result (λ left. left.finished.kept.seat.me.0.seen ≡ (recorded_in on).history) }
    ensures heap { IfOk result (λ left. setting_left left.finished.kept ≡ setting_in on) }
    ensures report { IfOk result (λ left.
        TellsEnds (setting_in on).layout (recorded_in on).history left.finished.report) }
    ensures calls { IfOk result (λ left. map (λ own. own.items) left.finished.calls.items
        ≡ map (λ cursor. cursor.calls.items) (cursors_on on)) }
    ensures live { IfOk result (λ left.
        left.finished.live ≡ live_count (setting_in on).layout (recorded_in on).state) }
    ensures log { IfOk result (λ left. left.log ≡ log) }
    ensures none_met { IfOk result (λ left. (setting_in on).layout.visitors ≡ 0 → left.deferred ≡ 0) }
{
    let mut on = on;
    let live = on.live();
    let deferred = on.deferred();
    let (kept, report, calls) = on.finish()?;
    let finished = Finished {
        kept,
        report,
        calls,
        live,
    };
    Ok(HeapRun {
        finished,
        log,
        deferred,
    })
}

/// Runs the scripts of a heap's mutators, on which nothing was run yet: in each part each mutator makes its calls, and
/// each visitor its visits, on no more threads than `threads`, and where one alone has something to do on the caller's
/// own. As far as there are as many as participants, each else has one of its own; those that share one act in turn, so
/// that none of them may be held until another has acted.
///
/// In the freeze after a part the cycle that marks goes on, and a whole one is run after a part in which a mutator
/// asked for one, was first refused for room or, as the last, retired; else one begins where the trigger asks for it.
pub fn run_on_threads<R: Threads + Sync, T: Turnstile>(
    rt: &R,
    threads: usize,
    alloc: Global,
    turnstile: &T,
    on: OnThreads,
) -> Result<HeapRun, Memory>
    requires stands { Stands on }
    requires nothing { (recorded_in on).history ≡ [] }
    requires cursors { AreCursors (recorded_in on) (cursors_on on) }
    requires few { length (cursors_on on) ≤ 16 }
    requires short { All (λ ops. length ops ≤ 65536) (scripts_of (cursors_on on)) }
    requires opens { MayOpenOn on on.books.pacing.calls }
    ensures ran { IfOk result (λ left. HasRun (setting_in on) (pace_on on) (scripts_of (cursors_on on))
        left.finished.kept.seat.me.0.seen left.finished.report (map (λ own. own.items) left.finished.calls.items)
        left.finished.live) }
    ensures heap { IfOk result (λ left. setting_left left.finished.kept ≡ setting_in on) }
    ensures told { IfOk result (λ left. left.log.ended ≡ statistics_in left.finished.kept.seat.me.0.seen) }
    ensures none_met { IfOk result (λ left. (setting_in on).layout.visitors ≡ 0 → left.deferred ≡ 0) }
{
    let mut on = on;
    let mut log = CycleLog::new(alloc);
    run_periods(rt, threads, turnstile, &mut on, &mut log)?;
    let left = close_run(on, log)?;
    Ok(left)
}
