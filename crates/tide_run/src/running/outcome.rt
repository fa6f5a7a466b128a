//! The outcome of a run.
ghost use Rattle.std.specs.Prelude.{◌≡◌, ◌≤◌, ◌<◌, [], ℕ, true, All, is_some, map};

use std::marker::Model;
use tide_layout::Layout;
use tide_model::Event;
use tide_periods::{Answered, Finished};
use tide_report::Report;
use tide_shape::Shapes;
use tide_table::Closed;
use tide_threads::{CycleLog, CycleStatistics};

/// A history that a run kept itself: its events, in order.
#[derive(Drop)]
pub struct OwnHistory {
    pub(crate) events: Vec<Event>,
}

/// Where a run's history was kept.
#[derive(Drop)]
pub enum Kept {
    /// By the run itself.
    Own(OwnHistory),
    /// By a heap that threads shared, and that is closed. Its history is for contracts alone.
    Heap(Closed<Shapes>),
}

/// A run's history, its replies, its cycles and what lives at its end.
#[derive(Drop)]
pub struct Outcome {
    layout: Layout,
    /// The names of the property keys by number.
    names: Vec<Vec<u8>>,
    kept: Kept,
    /// Each mutator's calls.
    calls: Vec<Vec<Answered>>,
    live: u32,
    report: Report,
    /// What is told of the cycles, on a heap that threads shared.
    log: CycleLog,
    /// How many races visitors met, as far as 64 bits count them.
    deferred: u64,
}

impl Model for Outcome {
    ghost use Rattle.std.specs.Prelude.{map};
    ghost use Rattle.tide_run.specs.running.Runs.{Ran};

    ghost Value = { Ran };

    ghost use Rattle.tide_run.specs.running.Outcome.{ran_of, IsOutcome};

    ghost view = { λ o. ran_of o.layout (map (λ name. name.items) o.names.items) o.kept };

    ghost invariant = { λ o. IsOutcome o.layout (map (λ name. name.items) o.names.items) o.kept
        (map (λ own. own.items) o.calls.items) o.live o.report o.log o.deferred };
}

impl Outcome {
    ghost use Rattle.tide_model.specs.declared.entry.Event.{Event};
    ghost use Rattle.tide_model.specs.Cycle.{live_count};
    ghost use Rattle.tide_model.specs.History.{state_after};
    ghost use Rattle.tide_model.specs.Script.{calls_of};
    ghost use Rattle.tide_periods.specs.Answered.{pair_of};
    ghost use Rattle.tide_report.specs.Ends.{all_freed, ends_in, ends_of};
    ghost use Rattle.tide_threads.specs.tide_statistics.Statistics.{statistics_in};
    ghost use Rattle.tide_workload.specs.Words.{HasText};
    ghost use Rattle.tide_run.specs.running.Outcome.{ran_of, IsOutcome};

    /// The outcome of a run that left this.
    pub(crate) fn new(
        layout: Layout,
        names: Vec<Vec<u8>>,
        ran: Finished<Kept>,
        log: CycleLog,
        deferred: u64,
    ) -> Outcome
        requires { IsOutcome layout (map (λ name. name.items) names.items) ran.kept
            (map (λ own. own.items) ran.calls.items) ran.live ran.report log deferred }
        ensures { result ≡ ran_of layout (map (λ name. name.items) names.items) ran.kept }
    {
        let Finished {
            kept,
            report,
            calls,
            live,
        } = ran;
        Outcome {
            layout,
            names,
            kept,
            calls,
            live,
            report,
            log,
            deferred,
        }
    }

    /// How many mutators ran. Nobody else made a call.
    pub fn mutators(&self) -> u32
        ensures count { result ≡ self.now.layout.mutators }
        ensures no_others { (who : ℕ) → self.now.layout.mutators ≤ who → calls_of who self.now.history ≡ [] }
    {
        u32::from(self.layout.mutators())
    }

    /// What a mutator asked for and was answered, in order.
    pub fn calls(&self, m: u32) -> &[Answered]
        requires { m < self.now.layout.mutators }
        ensures calls { map pair_of result.now ≡ calls_of m self.now.history }
        ensures texts { All (λ call. HasText self.now.keys call.op) result.now }
    {
        self.calls[m as usize].as_slice()
    }

    /// How many cells live at the end.
    pub fn live(&self) -> u32
        ensures { result ≡ live_count self.now.layout (state_after self.now.layout self.now.history) }
    {
        self.live
    }

    /// The cycles that ended, and the cells that each freed.
    pub fn report(&self) -> &Report
        ensures ends { ends_of result.now ≡ ends_in self.now.layout self.now.history }
        ensures ids { result.now.ids ≡ all_freed (ends_in self.now.layout self.now.history) }
    {
        &self.report
    }

    /// What is told of each cycle that ended, in order, of a run on a heap that threads shared. A run on the plain store
    /// tells nothing.
    pub fn statistics(&self) -> &[CycleStatistics]
        ensures { is_some self.now.heap ≡ true → result.now ≡ statistics_in self.now.history }
    {
        self.log.cycles()
    }

    /// How many races visitors met in all parts, as far as 64 bits count them, and so none without visitors.
    pub fn deferred(&self) -> u64
        ensures { self.now.layout.visitors ≡ 0 → result ≡ 0 }
    {
        self.deferred
    }
}
