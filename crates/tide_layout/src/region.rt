//! `Region`: the parts of a heap's words, in their order. It knows no layout.
ghost use Rattle.std.specs.Prelude.{◌<◌, ◌≡◌};
ghost use Rattle.tide_layout.specs.Region.{tag};

/// A part of a heap's words. The regions stand one after another in this order.
#[derive(Clone, Copy, Debug, PartialEq, Eq)]
pub enum Region {
    /// One word: the number of the last period.
    Period,
    /// One word: the running cycle, and whether it marks.
    Phase,
    /// One word: the number of the last full cycle's beginning, from which on a colour counts, or 1 before the first.
    Base,
    /// Per mutator 1, or 0 once it has retired.
    Active,
    /// Per mutator the number of its calls, modulo 2^64.
    Call,
    /// Per participant, mutators first and then visitors, the period of its last stop.
    Stopped,
    /// Per mutator its registers.
    Registers,
    /// The strong handles.
    Strong,
    /// The weak handles.
    Weak,
    /// Per cell its colour.
    Colour,
    /// Per cell its structure.
    Structure,
    /// Per cell a reference to its array.
    Array,
    /// Per cell its claim.
    Claim,
    /// Per cell the number of its group.
    Group,
    /// Per cell its slots, or a table's pairs.
    Slots,
    /// Per array its elements.
    Elements,
    /// Per block, cell blocks first and then array blocks, a bit for each cell or array that is free.
    Free,
    /// Per block a bit for each cell or array that is dead.
    Dead,
    /// Per cell block a bit for each grey cell that is there for the visitors.
    GreyShared,
    /// Per cell block a bit for each cell that a barrier made grey again.
    GreyMutator,
    /// Per cell block a bit for each cell deferred after a race.
    GreyRace,
    /// Per block the cycle whose sweep of it was taken.
    Swept,
}

impl Region {
    /// How many regions stand before this one.
    pub(crate) fn tag(self) -> u8
        ensures tag { result ≡ tag self }
        ensures few { result < 22 }
    {
        self as u8
    }
}
