//! `Status`: what an export answers.
ghost use Rattle.std.specs.Prelude.{◌≡◌};
ghost use Rattle.tide_c.specs.Statuses.{code_of};

/// What became of what an export was asked for.
#[derive(Clone, Copy, PartialEq, Eq)]
pub enum Status {
    /// It was made.
    Done,
    /// Nothing was made: a turn comes first.
    Wait,
    /// The call found no room a first time: a turn comes first, and then the same operation.
    Again,
    /// All members have left, or no part comes any more.
    Over,
    /// No more part can be numbered.
    Spent,
    /// There was no memory.
    Memory,
    /// A size, or a number of handles, is beyond its limit.
    Size,
    /// A handle that was to be filled isn't empty.
    Filled,
    /// The handle is empty.
    Vacant,
    /// The handle is of another kind of party.
    Kind,
    /// It is no operation of this heap.
    Operation,
    /// Another operation is to be tried again first.
    Retry,
    /// It claims cells.
    Claims,
    /// It has left for good.
    Left,
    /// The root stack is full, or empty.
    Deep,
}

impl Status {
    /// The number by which C knows it.
    pub fn code(self) -> u32
        ensures { result ≡ code_of self }
    {
        match self {
            Status::Done => 0,
            Status::Wait => 1,
            Status::Again => 2,
            Status::Over => 3,
            Status::Spent => 4,
            Status::Memory => 5,
            Status::Size => 6,
            Status::Filled => 7,
            Status::Vacant => 8,
            Status::Kind => 9,
            Status::Operation => 10,
            Status::Retry => 11,
            Status::Claims => 12,
            Status::Left => 13,
            Status::Deep => 14,
        }
    }
}
