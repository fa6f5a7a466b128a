//! A history's entries: data that code passes about, whose meaning stands in `specs/`.
ghost use Rattle.std.specs.Prelude.{◌≡◌, List, ℕ};

use crate::op::{Op, Reply};
use std::marker::Model;

/// Some ids in order, which contracts see as a list.
#[derive(Drop)]
pub struct Ids {
    ids: Vec<u32>,
}

impl Model for Ids {
    ghost Value = { List ℕ };

    ghost view = { λ s. s.ids.items };
}

impl Ids {
    /// These ids. It takes no memory.
    pub fn new(ids: Vec<u32>) -> Self
        ensures { result ≡ ids.items }
    {
        Ids { ids }
    }

    pub fn as_slice(&self) -> &[u32]
        ensures { result.now ≡ self.now }
    {
        self.ids.as_slice()
    }
}

/// One entry of a history.
#[derive(Drop)]
pub enum Entry {
    /// Mutator `who` asked for `op` and was answered `reply`.
    Call { who: u32, op: Op, reply: Reply },
    /// A cycle begins to mark: a full one, or an Eden cycle, which keeps each old cell.
    Begin { cycle: u64, full: bool },
    /// A pause made so many cells black.
    Pause { visits: u32 },
    /// Visitor `who` made so many cells black in the part that ended.
    Visits { who: u32, visits: u32 },
    /// A cycle ends, and these cells are dead.
    End { cycle: u64, freed: Ids },
    /// A block is taken to be swept in a running part: nobody else takes it before the next cycle has ended.
    Taken { block: u32 },
    /// The dead cells or arrays of a block become free. Array blocks follow the cell blocks.
    Sweep { block: u32 },
    /// A running part begins, in which each mutator makes at most `run` calls.
    Open { number: u32, run: u32 },
}

/// An entry, with the array that it took where it is an `add` that grew its cell's array.
#[derive(Drop)]
pub struct Event {
    pub entry: Entry,
    pub took: Option<u32>,
}
