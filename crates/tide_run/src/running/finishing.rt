//! What a run left, as the outcome of its workload.
ghost use Rattle.std.specs.Prelude.{ℕ, ◌≡◌, ◌≤◌, true, is_some, map};
ghost use Rattle.tide_run.specs.running.Outcome.{heap_of_kept, history_of, HasLeft};
ghost use Rattle.tide_run.specs.running.Runs.{IsRunOf};
ghost use Rattle.tide_threads.specs.tide_statistics.Statistics.{statistics_in};

use crate::running::outcome::{Kept, Outcome, OwnHistory};
use crate::running::starting::layout_of;
use tide_model::Event;
use tide_periods::Finished;
use tide_shape::Shapes;
use tide_table::Closed;
use tide_threads::CycleLog;
use tide_workload::Workload;

/// What a run left that kept its history itself.
pub(crate) fn kept_itself(ran: Finished<Vec<Event>>) -> Finished<Kept>
    ensures { result ≡ record {
      kept = Kept.Own (record { events = ran.kept });
      report = ran.report;
      calls = ran.calls;
      live = ran.live;
    } }
{
    let Finished {
        kept: events,
        report,
        calls,
        live,
    } = ran;
    Finished {
        kept: Kept::Own(OwnHistory { events }),
        report,
        calls,
        live,
    }
}

/// What a run left whose history a heap kept.
pub(crate) fn kept_by_heap(ran: Finished<Closed<Shapes>>) -> Finished<Kept>
    ensures { result ≡ record {
      kept = Kept.Heap ran.kept;
      report = ran.report;
      calls = ran.calls;
      live = ran.live;
    } }
{
    let Finished {
        kept: closed,
        report,
        calls,
        live,
    } = ran;
    Finished {
        kept: Kept::Heap(closed),
        report,
        calls,
        live,
    }
}

/// The outcome of a run of a workload with so many visitors that left this, with the names of the workload's keys.
pub(crate) fn outcome_of(
    load: &Workload,
    visitors: u8,
    names: Vec<Vec<u8>>,
    ran: Finished<Kept>,
    log: CycleLog,
    deferred: u64,
) -> Outcome
    requires names { map (λ name. name.items) names.items ≡ load.now.keys }
    requires few { visitors ≤ 8 }
    requires left { (trigger : ℕ) × HasLeft load.now trigger visitors ran }
    requires logged { is_some (heap_of_kept ran.kept) ≡ true → log.ended ≡ statistics_in (history_of ran.kept) }
    requires none_met { visitors ≡ 0 → deferred ≡ 0 }
    ensures run { (trigger : ℕ) → HasLeft load.now trigger visitors ran → IsRunOf load.now trigger visitors result }
    ensures heap { result.heap ≡ heap_of_kept ran.kept }
    ensures history { result.history ≡ history_of ran.kept }
{
    Outcome::new(layout_of(load, visitors), names, ran, log, deferred)
}
