//! `Row`: how many actors a heap has, and what they do.
ghost use Rattle.std.specs.Prelude.{◌≤◌, ◌<◌};

use crate::script::Script;
use tide::Pacing;

/// How members rest.
#[derive(Clone, Copy, PartialEq, Eq)]
pub enum Rests {
    /// None does.
    Never,
    /// The last one makes a cell, rests in the keeper's hands for so many turns, and wakes on another thread.
    InTheKeepersHands(u64),
    /// The last one makes a cell and rests, and once the keeper has gone round the beds so often, it lies in its bed
    /// until the others have left.
    UntilTheOthersLeft(u64),
    /// The last one makes a cell and lies down on one thread, and wakes on another.
    FromThreadToThread,
    /// Each makes cells, and lies in its bed for a while after each.
    ByTurns,
    /// None does, but the second one comes early to a freeze that is wanted, after each of its calls.
    ComesEarly,
}

/// How many actors a heap has, how its parts and cycles are paced, and what the actors do.
#[derive(Clone, Copy)]
pub struct Row {
    pub members: u8,
    pub helpers: u8,
    pub pacing: Pacing,
    pub script: Script,
    /// How many calls each member makes before it leaves, but the second one; where all rest by turns, how many cells.
    pub calls: u32,
    /// How many the second one makes.
    pub second_calls: u32,
    /// The first calls of two members are held until both have come.
    pub meets: bool,
    pub rests: Rests,
    /// All actors wait in their own way: each tries again, and leaves the processor to others meanwhile.
    pub polls: bool,
    ghost some: { 0 < members },
    ghost few: { members ≤ 16 },
    ghost few_helpers: { helpers ≤ 8 },
}

impl Row {
    /// How many calls the member with this number makes before it leaves.
    pub fn calls_of(&self, who: usize) -> u32 {
        if who == 1 {
            self.second_calls
        } else {
            self.calls
        }
    }

    /// Whether this is the number of the last member.
    pub fn is_last(&self, who: usize) -> bool {
        who == usize::from(self.members).saturating_sub(1)
    }
}
