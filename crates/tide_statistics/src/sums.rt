//! Sums over all cycles, in room that doesn't grow. They know no store.
ghost use Rattle.std.specs.Prelude.{◌≡◌, ◌-◌, ◌<◌, ◌^◌};

use crate::told::{FreezeTold, PauseTold};

/// What happened in a whole history. Each public count goes as far as 64 bits do.
#[derive(Clone, Copy, Debug, PartialEq, Eq)]
pub struct CycleSums {
    /// How many full cycles ended.
    pub full_cycles: u64,
    /// How many Eden cycles ended.
    pub eden_cycles: u64,
    /// How many cells pauses made black.
    pub paused: u64,
    /// How many cells visitors told to have made black.
    pub visited: u64,
    /// How many cells were born.
    pub born: u64,
    /// How many cycles began.
    begun: u64,
    /// Whether the one that began last is a full one.
    is_full: bool,
}

impl CycleSums {
    ghost use Rattle.tide_statistics.specs.Sums.{begun_by, no_sums, sums_with_pause, with_part, with_told};

    /// The sums of a history of which nothing has happened yet.
    pub fn new() -> CycleSums
        ensures { result ≡ no_sums }
    {
        CycleSums {
            full_cycles: 0,
            eden_cycles: 0,
            paused: 0,
            visited: 0,
            born: 0,
            begun: 0,
            is_full: false,
        }
    }

    /// A part ran, in which so many cells were born.
    pub fn add_part(&mut self, born: u32)
        ensures { self.new ≡ with_part self.old born }
    {
        self.born = self.born.saturating_add(u64::from(born));
    }

    /// A pause of the cycle that began last, and the end behind it, if that ended.
    fn add_pause(&mut self, told: PauseTold)
        ensures { self.new ≡ sums_with_pause self.old told }
    {
        self.paused = self.paused.saturating_add(u64::from(told.visits));
        if told.ended && self.is_full {
            self.full_cycles = self.full_cycles.saturating_add(1);
        } else if told.ended {
            self.eden_cycles = self.eden_cycles.saturating_add(1);
        }
    }

    /// A freeze: how many cells visitors made black for it, all together, and what it did.
    pub fn add_freeze(&mut self, visited: u64, told: FreezeTold)
        requires few { begun_by self.old < 2 ^ 64 - 1 }
        ensures { self.new ≡ with_told self.old visited told }
    {
        self.visited = self.visited.saturating_add(visited);
        if let Some(pause) = told.went_on {
            self.add_pause(pause);
        }
        if let Some(begun) = told.begun {
            self.begun += 1;
            self.is_full = begun.full;
            self.add_pause(begun.pause);
        }
    }

    /// How many cycles began.
    pub fn begun(&self) -> u64
        ensures { result ≡ begun_by self.now }
    {
        self.begun
    }
}
