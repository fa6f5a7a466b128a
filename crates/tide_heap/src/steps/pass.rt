//! `Pass`: one participant's right to take steps, and the numbers that it carries. It makes no step.
ghost use Rattle.std.specs.Prelude.{◌≡◌};
ghost use Rattle.tide_core.specs.machine.Frozen.{newcomer};
ghost use Rattle.tide_core.specs.declared.machine.view.Role.TheVariants.{Member};
ghost use Rattle.tide_heap.specs.steps.Numbers.{AreOf};

use atomic_table::Seat;
use tide_core::View;

/// What a participant knows of its part in numbers.
#[derive(Clone, Copy)]
pub struct Numbers {
    /// A mutator's number, or 16 plus a visitor's.
    pub who: u32,
    /// The number of the part whose ticket it heard last, and what that ticket said.
    pub part: u32,
    pub run: u32,
    pub marking: bool,
    pub cycle: u64,
    /// The cycle from which on colours count, as that ticket said.
    pub base: u64,
    /// The number of the part in which it first began last.
    pub begun: u32,
    /// How many cells were born to it in that part, and how many it made black.
    pub born: u32,
    pub visits: u32,
    /// It has retired.
    pub left: bool,
}

/// One participant's right to take steps on the words of a heap.
#[derive(Drop)]
pub struct Pass {
    pub(crate) seat: Seat<(), View>,
    pub(crate) numbers: Numbers,
    ghost member: { seat.me.0.role ≡ Member },
    ghost tied: { AreOf numbers seat.me.0 },
}

impl Pass {
    /// The pass of a participant that got this seat, and knows nothing yet.
    pub fn newcomer(seat: Seat<(), View>, who: u32) -> Pass
        requires { seat.me.0 ≡ newcomer who }
        ensures { result.seat ≡ seat }
    {
        let numbers = Numbers {
            who,
            part: 0,
            run: 0,
            marking: false,
            cycle: 0,
            base: 0,
            begun: 0,
            born: 0,
            visits: 0,
            left: false,
        };
        Pass { seat, numbers }
    }

    /// What it knows of its part in numbers.
    pub fn numbers(&self) -> Numbers
        ensures { AreOf result self.now.seat.me.0 }
    {
        self.numbers
    }

    /// A mutator's number, or 16 plus a visitor's.
    pub fn who(&self) -> u32
        ensures { result ≡ self.now.seat.me.0.who }
    {
        self.numbers.who
    }
}
