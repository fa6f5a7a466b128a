//! Changes of a mutator: a register, the claims, and its end.
ghost use Rattle.std.specs.Prelude.{◌<◌, ◌==◌, ◌++◌, ◌∷◌, [], drop, false, filter, length, not};

use crate::stored::contents::Contents;
use tide_model::Val;

impl Contents {
    ghost use Rattle.tide_model.specs.Applied.{put_claims, put_register};
    ghost use Rattle.tide_model.specs.Numbers.{put_at};
    ghost use Rattle.tide_model.specs.Refused.{claims_most};
    ghost use Rattle.tide_plain.specs.stored.Contents.{state_of, Leaves};

    /// A mutator's register gets another value.
    pub fn fill(&mut self, who: u32, register: u8, value: Val)
        requires mutator { who < self.old.layout.mutators }
        requires register { register < self.old.layout.registers }
        ensures { Leaves self.old self.new (put_register (state_of self.old) who register value) }
    {
        self.mutators.fill(who, register, value);
    }

    /// A mutator claims one cell more.
    pub fn claim(&mut self, who: u32, cell: u32)
        requires mutator { who < self.old.layout.mutators }
        requires room { length ((state_of self.old).claims who) < claims_most }
        ensures { Leaves self.old self.new (put_claims (state_of self.old) who
            ((state_of self.old).claims who ++ cell ∷ [])) }
    {
        self.mutators.claim(who, cell);
    }

    /// A mutator's claim on a cell ends.
    pub fn release(&mut self, who: u32, cell: u32)
        requires { who < self.old.layout.mutators }
        ensures { Leaves self.old self.new (put_claims (state_of self.old) who
            (filter (λ claimed. not (claimed == cell)) ((state_of self.old).claims who))) }
    {
        self.mutators.release(who, cell);
    }

    /// A mutator's oldest claim ends.
    pub fn unclaim(&mut self, who: u32)
        requires mutator { who < self.old.layout.mutators }
        requires some { 0 < length ((state_of self.old).claims who) }
        ensures { Leaves self.old self.new (put_claims (state_of self.old) who (drop 1
            ((state_of self.old).claims who))) }
    {
        self.mutators.unclaim(who);
    }

    /// A mutator is active no more.
    pub fn retire(&mut self, who: u32)
        requires { who < self.old.layout.mutators }
        ensures { Leaves self.old self.new (record (state_of self.old) {
          active = put_at (state_of self.old).active who false;
        }) }
    {
        self.mutators.retire(who);
    }
}
