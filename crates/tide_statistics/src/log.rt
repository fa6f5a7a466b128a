//! A log of the cycles that ended. It knows no store.
ghost use Rattle.std.specs.Prelude.{◌≡◌, ◌+◌, ◌-◌, ◌<◌, ◌^◌, ◌++◌, ◌∷◌, [], false, OnOk};

use std::alloc::Global;
use std::marker::Model;
use tide_model::Memory;

/// A cycle that ended.
#[derive(Clone, Copy, Debug, PartialEq, Eq)]
pub struct CycleStatistics {
    pub number: u64,
    /// Whether it was a full one, and no Eden cycle.
    pub full: bool,
    /// How many freezes it went through, from the one in which it began to the one in which it ended.
    pub freezes: u64,
    /// How many cells were born since the end before it until it began.
    pub before: u32,
    /// How many cells were born while it marked.
    pub marking: u32,
    /// How many cells its pauses made black.
    pub paused: u64,
    /// How many cells visitors told to have made black for it.
    pub visited: u64,
}

/// The cycles that ended, and what is known of the one that began last.
#[derive(Drop)]
pub struct CycleLog {
    ended: Vec<CycleStatistics>,
    begun: u64,
    full: bool,
    /// How many parts were opened since it began.
    parts: u64,
    before: u32,
    paused: u64,
    visited: u64,
}

impl Model for CycleLog {
    ghost use Rattle.tide_statistics.specs.Statistics.{Logged};

    ghost Value = { Logged };

    ghost view = { λ l. record {
      ended = l.ended.items;
      begun = l.begun;
      full = l.full;
      parts = l.parts;
      before = l.before;
      paused = l.paused;
      visited = l.visited;
    } };
}

impl CycleLog {
    ghost use Rattle.tide_statistics.specs.Statistics.{nothing, told_by};

    /// A log of a run of which nothing has happened yet. It takes no memory.
    pub fn new(alloc: Global) -> CycleLog
        ensures { result ≡ nothing }
    {
        CycleLog {
            ended: Vec::new(alloc),
            begun: 0,
            full: false,
            parts: 0,
            before: 0,
            paused: 0,
            visited: 0,
        }
    }

    /// A part was opened.
    pub fn open(&mut self)
        requires few { self.old.parts < 2 ^ 64 - 1 }
        ensures { self.new ≡ record self.old { parts = self.old.parts + 1 } }
    {
        self.parts += 1;
    }

    /// A cycle began, once so many cells were born since the last end.
    pub fn begin(&mut self, full: bool, born: u32)
        requires few { self.old.begun < 2 ^ 64 - 1 }
        ensures { self.new ≡ record self.old {
          begun = self.old.begun + 1;
          full = full;
          parts = 0;
          before = born;
          paused = 0;
          visited = 0;
        } }
    {
        self.begun += 1;
        self.full = full;
        self.parts = 0;
        self.before = born;
        self.paused = 0;
        self.visited = 0;
    }

    /// A pause of the cycle that began last made so many cells black.
    pub fn pause(&mut self, visits: u32)
        requires few { self.old.paused + visits < 2 ^ 64 }
        ensures { self.new ≡ record self.old { paused = self.old.paused + visits } }
    {
        self.paused += u64::from(visits);
    }

    /// A visitor told that it made so many cells black for the cycle that began last.
    pub fn visit(&mut self, visits: u64)
        requires few { self.old.visited + visits < 2 ^ 64 }
        ensures { self.new ≡ record self.old { visited = self.old.visited + visits } }
    {
        self.visited += visits;
    }

    /// The cycle that began last ended, once so many cells were born in it.
    pub fn end(&mut self, born: u32) -> Result<(), Memory>
        requires few { self.old.parts < 2 ^ 64 - 1 }
        ensures { OnOk result (self.new ≡ record self.old { ended = self.old.ended ++ told_by self.old born ∷ [] }) }
    {
        let told = CycleStatistics {
            number: self.begun,
            full: self.full,
            freezes: self.parts + 1,
            before: self.before,
            marking: born,
            paused: self.paused,
            visited: self.visited,
        };
        self.ended.push(told)?;
        Ok(())
    }

    /// How many cycles began.
    pub fn begun(&self) -> u64
        ensures { result ≡ self.now.begun }
    {
        self.begun
    }

    /// The cycles that ended, in order.
    pub fn cycles(&self) -> &[CycleStatistics]
        ensures { result.now ≡ self.now.ended }
    {
        self.ended.as_slice()
    }
}
