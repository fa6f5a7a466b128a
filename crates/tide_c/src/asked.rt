//! What is asked of a party of any kind: who is of another kind refuses, and stays as it is.
ghost use Rattle.std.specs.Prelude.{◌≡◌, ◌≢◌, IfSome, Some};
ghost use Rattle.tide_c.specs.Calls.{HasAnswered, HasLeft, HasPopped, HasPushed, HasRested};
ghost use Rattle.tide_c.specs.Parties.{PartyStands};
ghost use Rattle.tide_c.specs.Looks.{HasFound};
ghost use Rattle.tide_c.specs.Statuses.{AsHelper, AsKeeper, AsMember, AsSnapshot, is_keeper};
ghost use Rattle.tide_c.specs.Turns.{HasLooked, HasTold, HasTurnedTo, HasVisited};
ghost use Rattle.tide_c.specs.declared.status.Status.TheVariants.{Again, Done};

use crate::looking::Found;
use crate::operation::{Answer, Operation};
use crate::party::{Figures, Party};
use crate::status::Status;
use std::alloc::Global;
use tide::{Reply, Snapshot};

impl Party {
    /// A member makes a call.
    pub fn call(&mut self, operation: Operation, answer: &mut Answer) -> Status
        requires stands { PartyStands self.old }
        ensures stands { PartyStands self.new }
        ensures called { AsMember (HasAnswered operation answer.old answer.new) self.old self.new result }
        ensures untold { result ≢ Done → result ≢ Again → answer.new ≡ answer.old }
    {
        let Party::Member(member) = self else {
            return Status::Kind;
        };
        let Some(op) = operation.read() else {
            return Status::Operation;
        };
        let mut reply = Reply::Done;
        let status = member.call(op, &mut reply);
        if status == Status::Done || status == Status::Again {
            *answer = Answer::of(reply);
        }
        status
    }

    /// A member puts what a register holds on its root stack.
    pub fn push(&mut self, src: u8, at: &mut u8) -> Status
        requires stands { PartyStands self.old }
        ensures stands { PartyStands self.new }
        ensures pushed { AsMember (HasPushed src at.old at.new) self.old self.new result }
        ensures untold { result ≢ Done → at.new ≡ at.old }
    {
        match self {
            Party::Member(member) => member.push(src, at),
            _ => Status::Kind,
        }
    }

    /// A member takes the last value off its root stack.
    pub fn pop(&mut self) -> Status
        requires stands { PartyStands self.old }
        ensures stands { PartyStands self.new }
        ensures popped { AsMember HasPopped self.old self.new result }
    {
        match self {
            Party::Member(member) => member.pop(),
            _ => Status::Kind,
        }
    }

    /// A member rests.
    pub fn rest(&mut self) -> Status
        requires stands { PartyStands self.old }
        ensures stands { PartyStands self.new }
        ensures rested { AsMember HasRested self.old self.new result }
    {
        match self {
            Party::Member(member) => member.rest(),
            _ => Status::Kind,
        }
    }

    /// A member leaves for good.
    pub fn leave(&mut self) -> Status
        requires stands { PartyStands self.old }
        ensures stands { PartyStands self.new }
        ensures left { AsMember HasLeft self.old self.new result }
    {
        match self {
            Party::Member(member) => member.leave(),
            _ => Status::Kind,
        }
    }

    /// Whether it is a keeper.
    pub fn is_keeper(&self) -> bool
        ensures { result ≡ is_keeper (Some self.now) }
    {
        matches!(self, Party::Keeper(_))
    }

    /// A keeper turns, and takes a snapshot, where one is wanted and there is memory for it.
    pub fn turn(&mut self, alloc: Global, looks: bool) -> (Status, Option<Snapshot>)
        requires stands { PartyStands self.old }
        ensures stands { PartyStands self.new }
        ensures turned { AsKeeper HasTurnedTo self.old self.new result.0 }
        ensures looked { IfSome result.1 (λ taken. AsKeeper (HasLooked taken) self.old self.new result.0) }
    {
        match self {
            Party::Keeper(keeper) => keeper.turn(alloc, looks),
            _ => (Status::Kind, None),
        }
    }

    /// A helper visits.
    pub fn visit(&mut self) -> Status
        requires stands { PartyStands self.old }
        ensures stands { PartyStands self.new }
        ensures visited { AsHelper HasVisited self.old self.new result }
    {
        match self {
            Party::Helper(helper) => helper.visit(),
            _ => Status::Kind,
        }
    }

    /// What a keeper's turns came to.
    pub fn figures(&self, figures: &mut Figures) -> Status
        ensures told { AsKeeper (HasTold figures.new) self.now self.now result }
        ensures untold { result ≢ Done → figures.new ≡ figures.old }
    {
        let Party::Keeper(keeper) = self else {
            return Status::Kind;
        };
        *figures = keeper.figures;
        Status::Done
    }

    /// What a snapshot tells of a cell.
    pub fn find(&self, cell: u32, found: &mut Found) -> Status
        ensures found { AsSnapshot (HasFound cell found.new) self.now self.now result }
        ensures untold { result ≢ Done → found.new ≡ found.old }
    {
        let Party::Snapshot(snapshot) = self else {
            return Status::Kind;
        };
        *found = Found::of(snapshot, cell);
        Status::Done
    }
}
