//! A freeze of a run, told to the log of its cycles.
ghost use Rattle.std.specs.Prelude.{◌≡◌, ◌<◌, ◌≤◌, ◌^◌, IfOk, OnOk};
ghost use Rattle.tide_periods.specs.Periods.{RanFreeze};
ghost use Rattle.tide_periods.specs.Recorded.{IsSettled};
ghost use Rattle.tide_sched.specs.Paces.{last_run};
ghost use Rattle.tide_table.specs.tide_statistics.Few.{AreFew, AreFewIn};
ghost use Rattle.tide_table.specs.tide_statistics.Statistics.{HasLogged};
ghost use Rattle.tide_threads.specs.OnThreads.{cursors_on, pace_on, recorded_in, MayEnterOn, MayOpenOn, Stands};

use crate::on_threads::OnThreads;
use tide_model::Memory;
use tide_table::{CycleLog, foresee, tell_freeze};

impl OnThreads {
    /// Freezes after a part as `freeze` does, and tells the log of it.
    pub(crate) fn freeze_and_tell(
        &mut self,
        log: &mut CycleLog,
        is_forced: bool,
    ) -> Result<u32, Memory>
        requires settled { IsSettled (recorded_in self.old) }
        requires stands { Stands self.old }
        requires opened { 0 < (recorded_in self.old).parts }
        requires room { (recorded_in self.old).cycles < 2 ^ 60 }
        requires visits { MayEnterOn self.old }
        requires run { last_run (recorded_in self.old).history ≤ 2 ^ 16 }
        requires logged { HasLogged (recorded_in self.old).history log.old }
        requires few { AreFewIn (recorded_in self.old).parts log.old }
        requires parts { (recorded_in self.old).parts < 2 ^ 32 }
        ensures ran { IfOk result (RanFreeze (recorded_in self.old) (recorded_in self.new) (pace_on self.old) is_forced) }
        ensures stands { OnOk result (Stands self.new) }
        ensures pacing { OnOk result (self.new.books.pacing ≡ self.old.books.pacing) }
        ensures cursors { OnOk result (cursors_on self.new ≡ cursors_on self.old) }
        ensures opens { IfOk result (MayOpenOn self.new) }
        ensures logged { OnOk result (HasLogged (recorded_in self.new).history log.new) }
        ensures few { OnOk result (AreFew (recorded_in self.new).parts log.new) }
    {
        let births = self.books.births;
        let foreseen = foresee(
            &mut self.collector,
            &self.heap,
            &self.books,
            log.begun(),
            is_forced,
        );
        let next = self.freeze(is_forced)?;
        let told = foreseen.told(&mut self.collector, &self.heap);
        tell_freeze(
            log,
            foreseen.visited,
            told,
            births.since_end,
            births.in_cycle,
        )?;
        Ok(next)
    }
}
