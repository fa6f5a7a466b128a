//! Periods: a part is opened and run, a freeze follows, until each mutator has retired.
ghost use Rattle.std.specs.Prelude.{◌≡◌, ◌-◌, ◌<◌, ◌^◌, false, [], length, IfOk, OnOk};
ghost use Rattle.tide_model.specs.Periods.{is_over, next_run};
ghost use Rattle.tide_periods.specs.Asking.{scripts_of};
ghost use Rattle.tide_periods.specs.Left.{total_left};
ghost use Rattle.tide_periods.specs.Part.{AreCursors};
ghost use Rattle.tide_periods.specs.Periods.{RanAll, RanPeriod};
ghost use Rattle.tide_sched.specs.Paces.{pace_of};
ghost use Rattle.tide_periods.specs.Recorded.{IsSettled};

use crate::parts::Parts;
use std::alloc::Global;
use tide_model::Memory;
use tide_sched::Pacing;

/// Opens a part in which each mutator has so many calls, runs it, and freezes. Answers how many it has in the next one.
pub(crate) fn run_period<T: Parts>(
    parts: &mut T,
    run: u32,
    pacing: Pacing,
    alloc: Global,
) -> Result<u32, Memory>
    requires settled { IsSettled (T.recorded parts.old) }
    requires stands { T.stands parts.old }
    requires cursors { AreCursors (T.recorded parts.old) (T.cursors parts.old) }
    requires goes_on { is_over (T.recorded parts.old).setting.layout (T.recorded parts.old).history ≡ false }
    requires room { (T.recorded parts.old).cycles < 2 ^ 60 }
    requires few { (T.recorded parts.old).parts < 2 ^ 32 - 1 }
    requires run { run ≡ next_run (pace_of pacing) (T.recorded parts.old).setting.layout
        (T.recorded parts.old).history }
    requires calls { 0 < run }
    requires paces { T.paces pacing }
    ensures ran { IfOk result (λ next.
        RanPeriod (T.recorded parts.old) (T.recorded parts.new) (pace_of pacing) next) }
    ensures stands { IfOk result (λ next. T.stands parts.new) }
    ensures left { IfOk result (λ next. total_left (T.recorded parts.new) (T.cursors parts.new)
        < total_left (T.recorded parts.old) (T.cursors parts.old)) }
    ensures cursors { IfOk result (λ next. AreCursors (T.recorded parts.new) (T.cursors parts.new)) }
    ensures scripts { IfOk result (λ next. scripts_of (T.cursors parts.new) ≡ scripts_of (T.cursors parts.old)) }
{
    let stopped = parts.run_part(run)?;
    let is_over = parts.are_all_retired();
    let next = parts.freeze(stopped || is_over, pacing, alloc)?;
    Ok(next)
}

/// Runs periods until each mutator has retired.
pub(crate) fn run_periods<T: Parts>(
    parts: &mut T,
    pacing: Pacing,
    alloc: Global,
) -> Result<(), Memory>
    requires settled { IsSettled (T.recorded parts.old) }
    requires stands { T.stands parts.old }
    requires cursors { AreCursors (T.recorded parts.old) (T.cursors parts.old) }
    requires nothing { (T.recorded parts.old).history ≡ [] }
    requires paces { T.paces pacing }
    requires cycles { (T.recorded parts.old).cycles ≡ 0 }
    requires parts { (T.recorded parts.old).parts ≡ 0 }
    requires room { total_left (T.recorded parts.old) (T.cursors parts.old) < 2 ^ 32 - 1 }
    requires some { 0 < length (T.cursors parts.old) }
    ensures ran { OnOk result (RanAll (T.recorded parts.new) (pace_of pacing) (T.cursors parts.new)) }
    ensures stands { OnOk result (T.stands parts.new) }
    ensures same { OnOk result ((T.recorded parts.new).setting ≡ (T.recorded parts.old).setting) }
    ensures scripts { OnOk result (scripts_of (T.cursors parts.new) ≡ scripts_of (T.cursors parts.old)) }
{
    let mut run = pacing.calls;
    while !parts.are_all_retired() {
        run = run_period(parts, run, pacing, alloc)?;
    }
    Ok(())
}
