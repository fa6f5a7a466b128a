//! The calls that a source or a sink in memory was made, and which of them fail.
ghost use Rattle.std.specs.Prelude.{◌≡◌, ◌≤◌, ◌↔◌, IsTrue};

use std::marker::Model;

/// The calls of a fake: which of them fail, how many came, and how many of these failed.
#[derive(Drop)]
pub(crate) struct Calls {
    fails: Vec<u64>,
    count: u64,
    faults: u64,
}

impl Model for Calls {
    ghost use Rattle.tide_io.specs.CallLog.{CallLog};

    ghost Value = { CallLog };

    ghost view = { λ c. record { fails = c.fails.items; count = c.count; faults = c.faults } };
}

impl Calls {
    ghost use Rattle.tide_io.specs.CallLog.{FailsNext, no_calls, with_fault, with_pass};

    /// No call so far. Those with these numbers will fail.
    pub(crate) fn new(fails: Vec<u64>) -> Self
        ensures { result ≡ no_calls fails.items }
    {
        Calls {
            fails,
            count: 0,
            faults: 0,
        }
    }

    pub(crate) fn fails_next(&self) -> bool
        ensures { IsTrue result ↔ FailsNext self.now }
    {
        self.fails.contains(&self.count)
    }

    pub(crate) fn pass(&mut self)
        ensures { self.new ≡ with_pass self.old }
    {
        self.count = self.count.saturating_add(1);
    }

    pub(crate) fn fail(&mut self)
        ensures after { self.new ≡ with_fault self.old }
        ensures later { self.old.faults ≤ self.new.faults }
    {
        self.count = self.count.saturating_add(1);
        self.faults = self.faults.saturating_add(1);
    }
}
