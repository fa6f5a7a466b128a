//! A keeper's turns and a helper's share of them. None waits for anybody.
ghost use Rattle.std.specs.Prelude.{◌≡◌, IfSome, None};
ghost use Rattle.std.specs.Arc.{arc_value};
ghost use Rattle.tide.specs.tide_report.Ends.{HasRoomForEnds};
ghost use Rattle.tide.specs.tide_server.Keepers.{KeeperStands};
ghost use Rattle.tide.specs.tide_server.Looked.{HasSnapshot};
ghost use Rattle.tide.specs.tide_server.Turned.{HasTurned, IsWaiting};
ghost use Rattle.tide.specs.tide_shape.Lists.{lists_of};
ghost use Rattle.tide_c.specs.Parties.{IsHelper, IsKeeper};
ghost use Rattle.tide_c.specs.Figures.{AddsTurn};
ghost use Rattle.tide_c.specs.Turns.{HasLooked, HasTurnedTo, HasVisited};

use crate::party::{Figures, HelperParty, KeeperParty, Phase};
use crate::status::Status;
use std::alloc::Global;
use tide::{FreePass, Report, Snapshot, Turn, Worked};

impl Figures {
    /// Adds a turn, and the cycles that ended in it.
    fn add(&mut self, report: &Report)
        ensures { AddsTurn report.now self.old self.new }
    {
        self.turns = self.turns.wrapping_add(1);
        for line in report.cycles() {
            self.cycles = self.cycles.wrapping_add(1);
            self.freed = self.freed.wrapping_add(u64::from(line.freed));
            self.kept = u64::from(line.kept);
        }
    }
}

impl KeeperParty {
    /// Makes a turn, where no note is due any more, and takes a snapshot in it, where one is wanted and there is memory.
    fn try_turn(&mut self, alloc: Global, looks: bool) -> Option<(Turn, Option<Snapshot>)>
        requires stands { KeeperStands (arc_value self.old.shared).heap.key.layout
            (arc_value self.old.shared).heap.table.shared.table_id (arc_value self.old.shared).hands.shared.table_id
            self.old.keeper }
        requires ends { HasRoomForEnds (arc_value self.old.shared).heap.key.layout self.old.report 2 }
        ensures same { (self.new.shared ≡ self.old.shared) × (self.new.figures ≡ self.old.figures)
            × (self.new.phase ≡ self.old.phase) }
        ensures turned { IfSome result (λ answer. HasTurned (arc_value self.old.shared).heap.key.layout
            (lists_of (arc_value self.old.shared).heap.key.shapes) (arc_value self.old.shared).heap.table.shared.table_id
            (arc_value self.old.shared).hands.shared.table_id self.old.keeper self.new.keeper self.old.report
            self.new.report answer.0) }
        ensures looked { IfSome result (λ answer. IfSome answer.1 (HasSnapshot
            (arc_value self.old.shared).heap.key.layout self.old.keeper self.new.keeper answer.0)) }
        ensures waits { result ≡ None → IsWaiting (arc_value self.old.shared).heap.key.layout
            (arc_value self.old.shared).heap.table.shared.table_id (arc_value self.old.shared).hands.shared.table_id
            self.old.keeper self.new.keeper }
        ensures untold { result ≡ None → self.new.report ≡ self.old.report }
    {
        if !looks {
            let turn = self.keeper.turn_with_room(&self.shared, &mut self.report)?;
            return Some((turn, None));
        }
        let (turn, taken) = self
            .keeper
            .turn_and_snapshot(alloc, &self.shared, &mut self.report)?;
        Some((turn, taken.ok()))
    }

    /// Freezes the open part and opens the next one, where no note of it is due any more, and takes a snapshot of what
    /// was frozen, where one is wanted and there is memory for it.
    pub fn turn(&mut self, alloc: Global, looks: bool) -> (Status, Option<Snapshot>)
        requires is { IsKeeper self.old }
        ensures is { IsKeeper self.new }
        ensures turned { HasTurnedTo self.old self.new result.0 }
        ensures looked { IfSome result.1 (λ taken. HasLooked taken self.old self.new result.0) }
    {
        match self.phase {
            Phase::Open => {}
            Phase::Over => return (Status::Over, None),
            Phase::Spent => return (Status::Spent, None),
        }
        let cells = self.shared.layout().cells();
        let Ok(()) = self.report.make_room(2, 2 * cells) else {
            return (Status::Memory, None);
        };
        let Some((turn, taken)) = self.try_turn(alloc, looks) else {
            return (Status::Wait, None);
        };
        self.figures.add(&self.report);
        self.report.forget();
        match turn {
            Turn::Opened => (Status::Done, taken),
            Turn::Over => {
                self.phase = Phase::Over;
                (Status::Over, taken)
            }
            Turn::Spent => {
                self.phase = Phase::Spent;
                (Status::Spent, taken)
            }
        }
    }
}

impl HelperParty {
    /// Takes part in the open part, where its ticket lies there: it makes as many visits as a member has calls.
    pub fn visit(&mut self) -> Status
        requires is { IsHelper self.old }
        ensures is { IsHelper self.new }
        ensures shared { self.new.shared ≡ self.old.shared }
        ensures visited { HasVisited self.old self.new result }
    {
        match self.helper.try_work(&self.shared, &FreePass) {
            None => Status::Wait,
            Some(Worked::Again) => Status::Done,
            Some(Worked::Over) => Status::Over,
        }
    }
}
