//! A whole run: from a store on which nothing was run, with its mutators, to what it leaves.
ghost use Rattle.std.specs.Prelude.{◌≡◌, ◌≤◌, ◌<◌, [], All, length, map, IfOk};
ghost use Rattle.tide_periods.specs.Asking.{scripts_of};
ghost use Rattle.tide_periods.specs.Part.{AreCursors};
ghost use Rattle.tide_sched.specs.Paces.{pace_of};
ghost use Rattle.tide_periods.specs.Recorded.{IsSettled};
ghost use Rattle.tide_periods.specs.Run.{HasRun};

use crate::answered::Answered;
use crate::parts::Parts;
use crate::periods::run_periods;
use std::alloc::Global;
use tide_model::Memory;
use tide_report::Report;
use tide_sched::Pacing;

/// What a run leaves.
#[derive(Drop)]
pub struct Finished<K> {
    /// What keeps each event, in order.
    pub kept: K,
    /// The cycles that ended, and the cells that each freed.
    pub report: Report,
    /// Each mutator's calls, in the order of the mutators.
    pub calls: Vec<Vec<Answered>>,
    /// How many cells live at the end.
    pub live: u32,
}

/// Runs the scripts of a store's mutators, on which nothing was run yet.
///
/// In the freeze after a part the cycle that marks goes on, and a whole one is run after a part in which a mutator
/// asked for one, was first refused for room or, as the last, retired; else one begins where the trigger asks for it.
pub fn run_on<T: Parts + Drop>(
    alloc: Global,
    parts: T,
    pacing: Pacing,
) -> Result<Finished<T::Kept>, Memory>
    requires settled { IsSettled (T.recorded parts) }
    requires stands { T.stands parts }
    requires nothing { (T.recorded parts).history ≡ [] }
    requires cursors { AreCursors (T.recorded parts) (T.cursors parts) }
    requires some { 0 < length (T.cursors parts) }
    requires few { length (T.cursors parts) ≤ 16 }
    requires short { All (λ ops. length ops ≤ 65536) (scripts_of (T.cursors parts)) }
    requires paces { T.paces pacing }
    ensures { IfOk result (λ finished. HasRun (T.recorded parts).setting (pace_of pacing) (scripts_of (T.cursors parts))
        (T.history_of finished.kept) finished.report (map (λ own. own.items) finished.calls.items) finished.live) }
{
    let mut parts = parts;
    run_periods(&mut parts, pacing, alloc)?;
    let live = parts.live();
    let (kept, report, calls) = parts.finish()?;
    Ok(Finished {
        kept,
        report,
        calls,
        live,
    })
}
