//! What a run asks of a store with its mutators: that it runs parts, and freezes between them.
ghost use Rattle.std.specs.Prelude.{◌≡◌, ◌-◌, ◌^◌, ◌<◌, List, map, IfOk};
ghost use Rattle.std.specs.List.{list_all};
ghost use Rattle.tide_model.specs.Cycle.{live_count};
ghost use Rattle.tide_model.specs.declared.entry.Event.{Event};
ghost use Rattle.tide_periods.specs.declared.cursor.ScriptCursor.{ScriptCursor};
ghost use Rattle.tide_sched.specs.Paces.{pace_of};
ghost use Rattle.tide_sched.specs.declared.pacing.Pacing.{Pacing};
ghost use Rattle.tide_periods.specs.Part.{AreCursors, RanPartBy};
ghost use Rattle.tide_periods.specs.Periods.{RanFreeze};
ghost use Rattle.tide_periods.specs.Recorded.{IsSettled, Recorded};
ghost use Rattle.tide_report.specs.Ends.{TellsEnds};

use crate::answered::Answered;
use std::alloc::Global;
use tide_model::Memory;
use tide_report::Report;
use tide_sched::Pacing;

/// A store with its mutators, each of which has its script, and the history of what was run on it.
pub trait Parts {
    /// What keeps the history when all was run.
    type Kept;

    /// The history that is kept.
    ghost history_of: { Self.Kept → List Event };

    /// What is recorded.
    ghost recorded: { Self → Recorded };

    /// What holds of the store between two parts, beside what is recorded.
    ghost stands: { Self → Type 0 };

    /// Its mutators, in order, each by its own calls.
    ghost cursors: { Self → List ScriptCursor };

    /// With which numbers the store can be run.
    ghost paces: { Pacing → Type 0 };

    /// Opens a part, in which each mutator makes its share of at most `run` calls. Answers whether one of them stopped
    /// before its share was over.
    fn run_part(&mut self, run: u32) -> Result<bool, Memory>
        requires settled { IsSettled (recorded self.old) }
        requires stands { stands self.old }
        requires cursors { AreCursors (recorded self.old) (cursors self.old) }
        requires few { (recorded self.old).parts < 2 ^ 32 - 1 }
        ensures ran { IfOk result (RanPartBy (recorded self.old) (recorded self.new) run
            (cursors self.old) (cursors self.new)) }
        ensures stands { IfOk result (λ ended. stands self.new) };

    /// Whether each mutator has retired.
    fn are_all_retired(&self) -> bool
        ensures { result ≡ list_all (λ cursor. cursor.retired) (cursors self.now) };

    /// Freezes after a part, does what the schedule asks for, and records it. Answers how many calls each mutator has
    /// in the next part.
    fn freeze(&mut self, is_forced: bool, pacing: Pacing, alloc: Global) -> Result<u32, Memory>
        requires settled { IsSettled (recorded self.old) }
        requires stands { stands self.old }
        requires room { (recorded self.old).cycles < 2 ^ 60 }
        requires paces { paces pacing }
        ensures ran { IfOk result (λ run.
            RanFreeze (recorded self.old) (recorded self.new) (pace_of pacing) is_forced run) }
        ensures stands { IfOk result (λ run. stands self.new) }
        ensures cursors { IfOk result (λ run. cursors self.new ≡ cursors self.old) };

    /// How many cells live.
    fn live(&mut self) -> u32
        requires stands { stands self.old }
        ensures live { result ≡ live_count (recorded self.old).setting.layout (recorded self.old).state }
        ensures same { recorded self.new ≡ recorded self.old }
        ensures cursors { cursors self.new ≡ cursors self.old }
        ensures stands { stands self.new };

    /// What keeps the history, the report of the cycles that ended, and each mutator's calls.
    fn finish(self) -> Result<(Self::Kept, Report, Vec<Vec<Answered>>), Memory>
        requires settled { IsSettled (recorded self) }
        requires stands { stands self }
        ensures history { IfOk result (λ left. history_of left.0 ≡ (recorded self).history) }
        ensures report { IfOk result (λ left.
            TellsEnds (recorded self).setting.layout (recorded self).history left.1) }
        ensures calls { IfOk result (λ left.
            map (λ own. own.items) left.2.items ≡ map (λ cursor. cursor.calls.items) (cursors self)) };
}
