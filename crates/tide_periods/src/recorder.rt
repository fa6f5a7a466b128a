//! A store with the history of what was run on it, as a part and a freeze use it.
ghost use Rattle.std.specs.Prelude.{◌≡◌, ◌-◌, ◌^◌, ◌<◌, ◌++◌, ◌∷◌, [], length, IfOk, OnOk};
ghost use Rattle.tide_model.specs.Cycle.{live_count};
ghost use Rattle.tide_sched.specs.Paces.{pace_of};
ghost use Rattle.tide_sched.specs.declared.pacing.Pacing.{Pacing};
ghost use Rattle.tide_periods.specs.Periods.{RanFreeze};
ghost use Rattle.tide_periods.specs.Recorded.{IsSettled, MadeCall, MayAsk, OpenedPart, Recorded};
ghost use Rattle.tide_report.specs.Ends.{TellsEnds};

use std::alloc::Global;
use tide_model::{Event, Memory, Op, Reply};
use tide_report::Report;
use tide_sched::Pacing;

/// An empty list with room for so many.
pub(crate) fn with_room<T>(alloc: Global, room: usize) -> Result<Vec<T>, Memory>
    ensures { IfOk result (λ list. list.items ≡ []) }
{
    Ok(Vec::with_capacity(alloc, room)?)
}

/// One more at the end of a list.
pub(crate) fn append<T: Drop>(list: &mut Vec<T>, item: T) -> Result<(), Memory>
    ensures { OnOk result (list.new.items ≡ list.old.items ++ item ∷ []) }
{
    list.push(item)?;
    Ok(())
}

/// A store that keeps the history of what was run on it.
pub trait Recorder {
    /// What is recorded.
    ghost recorded: { Self → Recorded };

    /// What holds of the store between two entries of the history, beside what is recorded.
    ghost stands: { Self → Type 0 };

    /// Makes a call and records it.
    fn call(&mut self, who: u32, op: Op) -> Result<Reply, Memory>
        requires settled { IsSettled (recorded self.old) }
        requires stands { stands self.old }
        requires asks { MayAsk (recorded self.old) who op }
        ensures made { IfOk result (λ reply. MadeCall (recorded self.old) (recorded self.new) who op reply) }
        ensures stands { IfOk result (λ reply. stands self.new) };

    /// How many cells a mutator claims.
    fn claims(&self, who: u32) -> u32
        requires stands { stands self.now }
        requires mutator { who < (recorded self.now).setting.layout.mutators }
        ensures { result ≡ length ((recorded self.now).state.claims who) };

    /// Opens a part, in which each mutator makes at most `run` calls.
    fn open(&mut self, run: u32) -> Result<(), Memory>
        requires settled { IsSettled (recorded self.old) }
        requires stands { stands self.old }
        requires few { (recorded self.old).parts < 2 ^ 32 - 1 }
        ensures opened { OnOk result (OpenedPart (recorded self.old) (recorded self.new) run) }
        ensures stands { OnOk result (stands self.new) };

    /// With which numbers the store can be run.
    ghost paces: { Pacing → Type 0 };

    /// Freezes after a part, does what the schedule asks for, and records it. Answers how many calls each mutator has
    /// in the next part.
    fn freeze(&mut self, is_forced: bool, pacing: Pacing, alloc: Global) -> Result<u32, Memory>
        requires settled { IsSettled (recorded self.old) }
        requires stands { stands self.old }
        requires room { (recorded self.old).cycles < 2 ^ 60 }
        requires paces { paces pacing }
        ensures ran { IfOk result (λ run. RanFreeze (recorded self.old) (recorded self.new) (pace_of pacing) is_forced run) }
        ensures stands { IfOk result (λ run. stands self.new) };

    /// How many cells live.
    fn live(&mut self) -> u32
        requires stands { stands self.old }
        ensures live { result ≡ live_count (recorded self.old).setting.layout (recorded self.old).state }
        ensures same { recorded self.new ≡ recorded self.old }
        ensures stands { stands self.new };

    /// Each event that was recorded, in order, and the report of the cycles that ended.
    fn into_parts(self) -> (Vec<Event>, Report)
        requires settled { IsSettled (recorded self) }
        requires stands { stands self }
        ensures history { result.0.items ≡ (recorded self).history }
        ensures report { TellsEnds (recorded self).setting.layout (recorded self).history result.1 };
}
