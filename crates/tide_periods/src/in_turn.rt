//! A recorder with its mutators, which make their shares of a part one after another.
ghost use Rattle.std.specs.Prelude.{◌≡◌, ◌≤◌, [], All, length, map, IfOk};
ghost use Rattle.tide_periods.specs.Asking.{IsAskable, scripts_of};
ghost use Rattle.tide_periods.specs.Part.{AreCursors};
ghost use Rattle.tide_periods.specs.Recorded.{IsSettled};

use crate::answered::Answered;
use crate::cursor::{ScriptCursor, cursors_of};
use crate::part::make_shares;
use crate::parts::Parts;
use crate::recorder::{Recorder, append, with_room};
use std::alloc::Global;
use tide_model::{Event, Memory, Op};
use tide_report::Report;
use tide_sched::Pacing;

/// A recorder with its mutators.
#[derive(Drop)]
pub struct InTurn<T: Recorder> {
    recorder: T,
    cursors: Vec<ScriptCursor>,
    /// Room for each mutator's calls, of which none is in it yet.
    calls: Vec<Vec<Answered>>,
}

/// Each cursor's calls, in a list that is empty yet.
fn calls_of_each(
    list: Vec<Vec<Answered>>,
    cursors: Vec<ScriptCursor>,
) -> Result<Vec<Vec<Answered>>, Memory>
    requires { list.items ≡ [] }
    ensures { IfOk result (λ calls.
        map (λ own. own.items) calls.items ≡ map (λ cursor. cursor.calls.items) cursors.items) }
{
    let mut calls = list;
    for cursor in cursors {
        append(&mut calls, cursor.into_calls())?;
    }
    Ok(calls)
}

impl<T: Recorder + Drop> InTurn<T> {
    /// A recorder on which nothing was run yet, with mutators that ask for these scripts. Room for their calls is made
    /// before the first of them.
    pub fn new(alloc: Global, recorder: T, scripts: Vec<Vec<Op>>) -> Result<InTurn<T>, Memory>
        requires stands { T.stands recorder }
        requires nothing { (T.recorded recorder).history ≡ [] }
        requires mutators { length scripts.items ≡ (T.recorded recorder).setting.layout.mutators }
        requires few { length scripts.items ≤ 16 }
        requires askable { All (All (IsAskable (T.recorded recorder).setting.layout))
            (map (λ ops. ops.items) scripts.items) }
        ensures recorded { IfOk result (λ new. ⟦<InTurn<T> as Parts>⟧.recorded new ≡ T.recorded recorder) }
        ensures stands { IfOk result (λ new. ⟦<InTurn<T> as Parts>⟧.stands new) }
        ensures cursors { IfOk result (λ new.
            AreCursors (⟦<InTurn<T> as Parts>⟧.recorded new) (⟦<InTurn<T> as Parts>⟧.cursors new)) }
        ensures scripts { IfOk result (λ new.
            scripts_of (⟦<InTurn<T> as Parts>⟧.cursors new) ≡ map (λ ops. ops.items) scripts.items) }
    {
        let calls = with_room(alloc, scripts.len())?;
        let cursors = cursors_of(alloc, scripts)?;
        Ok(InTurn {
            recorder,
            cursors,
            calls,
        })
    }
}

impl<T: Recorder + Drop> Parts for InTurn<T> {
    type Kept = Vec<Event>;

    ghost history_of = { λ events. events.items };

    ghost recorded = { λ s. T.recorded s.recorder };

    ghost stands = { λ s. T.stands s.recorder × (s.calls.items ≡ []) };

    ghost cursors = { λ s. s.cursors.items };

    ghost paces = { T.paces };

    fn run_part(&mut self, run: u32) -> Result<bool, Memory> {
        self.recorder.open(run)?;
        let ended = make_shares(&mut self.recorder, self.cursors.as_mut_slice(), run)?;
        Ok(ended)
    }

    fn are_all_retired(&self) -> bool {
        self.cursors.iter().all(ScriptCursor::has_retired)
    }

    fn freeze(&mut self, is_forced: bool, pacing: Pacing, alloc: Global) -> Result<u32, Memory> {
        self.recorder.freeze(is_forced, pacing, alloc)
    }

    fn live(&mut self) -> u32 {
        self.recorder.live()
    }

    fn finish(self) -> Result<(Vec<Event>, Report, Vec<Vec<Answered>>), Memory> {
        let InTurn {
            recorder,
            cursors,
            calls,
        } = self;
        let (events, report) = recorder.into_parts();
        let calls = calls_of_each(calls, cursors)?;
        Ok((events, report, calls))
    }
}
