//! A member's calls. None waits for anybody.
ghost use Rattle.std.specs.Prelude.{◌≡◌, ◌≢◌, false, true};
ghost use Rattle.std.specs.Arc.{arc_value};
ghost use Rattle.tide.specs.tide_model.Lawful.{FitsLayout};
ghost use Rattle.tide.specs.tide_model.declared.op.Op.TheVariants.{Retire};
ghost use Rattle.tide.specs.tide_mutator.calls.Viewed.{view_of};
ghost use Rattle.tide.specs.tide_server.Members.{Retries};
ghost use Rattle.tide_c.specs.Calls.{HasCalled, HasLeft, HasPopped, HasPushed, HasRested, KeepsStack, Makes, MakesNone, TriesOther};
ghost use Rattle.tide_c.specs.Parties.{IsMember};

use crate::party::MemberParty;
use crate::status::Status;
use tide::{FreePass, Offered, Op, Reply, fits};

impl MemberParty {
    /// Goes on with its part, or begins the next one, where its ticket lies there. Says whether it may make a call.
    fn begin(&mut self) -> bool
        requires is { IsMember self.old }
        requires stays { self.old.has_left ≡ false }
        ensures is { IsMember self.new }
        ensures none { MakesNone self.old self.new }
        ensures stays { self.new.has_left ≡ false }
        ensures works { result ≡ self.new.member.works }
        ensures waits { result ≡ false → self.old.member.works ≡ false }
    {
        self.member.works() || self.member.offer(&self.shared) == Offered::Begun
    }

    /// Begins the part whose ticket lies there, if one does, and hands its note in: so a turn needn't wait for it.
    pub fn rest(&mut self) -> Status
        requires is { IsMember self.old }
        ensures is { IsMember self.new }
        ensures rested { HasRested self.old self.new result }
    {
        if self.has_left {
            return Status::Left;
        }
        if self.begin() {
            self.member.break_off(&self.shared);
        }
        Status::Done
    }

    /// Whether an operation is the one that is to be tried again, if one is.
    fn may_try(&self, op: Op) -> bool
        ensures may { result ≡ true → Retries (view_of self.now.member.mutator) op }
        ensures may_not { result ≡ false → TriesOther self.now op }
    {
        match self.member.retry() {
            None => true,
            Some(other) => op == other,
        }
    }

    /// Makes a call of its part, and hands its note in, where its share of that is over, or a freeze is wanted.
    fn make(&mut self, op: Op) -> Reply
        requires is { IsMember self.old }
        requires stays { self.old.has_left ≡ false }
        requires works { self.old.member.works ≡ true }
        requires fits { FitsLayout (arc_value self.old.shared).heap.key.layout op }
        requires goes_on { op ≢ Retire }
        requires retries { Retries (view_of self.old.member.mutator) op }
        ensures is { IsMember self.new }
        ensures makes { Makes self.old self.new op result }
        ensures stack { KeepsStack self.old self.new }
        ensures stays { self.new.has_left ≡ false }
    {
        let reply = self.member.make(&self.shared, op, &FreePass);
        if self.member.is_over() || self.member.poll(&self.shared) {
            self.member.break_off(&self.shared);
        }
        reply
    }

    /// Makes a call, where the operation is one of its heap and a part is open for it, and says what the reply is.
    #[tactic(auto, using(crate::proofs::Began::retries_still, crate::proofs::Began::keeps_stack, crate::proofs::Began::makes_later, crate::proofs::Began::comes_again))]
    pub fn call(&mut self, op: Op, reply: &mut Reply) -> Status
        requires is { IsMember self.old }
        requires goes_on { op ≢ Retire }
        ensures is { IsMember self.new }
        ensures called { HasCalled self.old self.new op reply.new result }
    {
        if self.has_left {
            return Status::Left;
        }
        if !fits(self.shared.layout(), op) {
            return Status::Operation;
        }
        if !self.may_try(op) {
            return Status::Retry;
        }
        if !self.begin() {
            return Status::Wait;
        }
        *reply = self.make(op);
        if self.member.retries() {
            Status::Again
        } else {
            Status::Done
        }
    }

    /// Puts what a register holds at the first free place of its root stack, and says which register that is.
    pub fn push(&mut self, src: u8, at: &mut u8) -> Status
        requires is { IsMember self.old }
        ensures is { IsMember self.new }
        ensures pushed { HasPushed src at.old at.new self.old self.new result }
    {
        let dst = self.top;
        if dst >= self.shared.layout().registers() {
            return Status::Deep;
        }
        let mut reply = Reply::Done;
        let status = self.call(Op::Move { dst, src }, &mut reply);
        if status == Status::Done {
            *at = dst;
            self.top = dst + 1;
        }
        status
    }

    /// Takes the value on top of its root stack off, whose register is empty then.
    pub fn pop(&mut self) -> Status
        requires is { IsMember self.old }
        ensures is { IsMember self.new }
        ensures popped { HasPopped self.old self.new result }
    {
        if self.top <= self.base {
            return Status::Deep;
        }
        let dst = self.top - 1;
        let mut reply = Reply::Done;
        let status = self.call(Op::Drop { dst }, &mut reply);
        if status == Status::Done {
            self.top = dst;
        }
        status
    }

    /// Leaves for good, where it claims nothing and a part is open for it.
    pub fn leave(&mut self) -> Status
        requires is { IsMember self.old }
        ensures is { IsMember self.new }
        ensures left { HasLeft self.old self.new result }
    {
        if self.has_left {
            return Status::Left;
        }
        if self.member.claims() > 0 {
            return Status::Claims;
        }
        if self.member.retries() {
            return Status::Retry;
        }
        if !self.begin() {
            return Status::Wait;
        }
        self.member.retire(&self.shared, &FreePass);
        self.has_left = true;
        Status::Done
    }
}
