//! `Note` and `Ticket`: what a participant hands in at a stop, and what it begins a part with.
ghost use Rattle.std.specs.Prelude.{◌≡◌, ◌<◌, ◌^◌, []};
ghost use Rattle.tide_core.specs.declared.machine.view.Role.TheVariants as role;
ghost use Rattle.tide_heap.specs.steps.Numbers.{AreOf};

use crate::steps::pass::Numbers;
use atomic_table::Seat;
use tide_core::View;

/// What a participant hands in at a stop.
#[derive(Drop)]
pub struct Note {
    pub(crate) seat: Seat<(), View>,
    pub(crate) numbers: Numbers,
    pub(crate) done: bool,
    ghost kind: { seat.me.0.role ≡ role.Note },
    ghost slotless: { seat.me.1 ≡ [] },
    ghost tied: { AreOf numbers seat.me.0 },
    ghost done_is: { done ≡ seat.me.0.done },
}

/// What a participant begins a part with: the number of the part, how many calls each mutator has in it, whether a
/// cycle marks, and which, and from which cycle on colours count.
#[derive(Drop)]
pub struct Ticket {
    pub(crate) seat: Seat<(), View>,
    pub(crate) period: u32,
    pub(crate) run: u32,
    pub(crate) marking: bool,
    pub(crate) cycle: u64,
    pub(crate) base: u64,
    ghost kind: { seat.me.0.role ≡ role.Ticket },
    ghost slotless: { seat.me.1 ≡ [] },
    ghost period_is: { period ≡ seat.me.0.period },
    ghost run_is: { run ≡ seat.me.0.run },
    ghost marking_is: { marking ≡ seat.me.0.marks },
    ghost cycle_is: { cycle ≡ seat.me.0.cycle },
    ghost base_is: { base ≡ seat.me.0.mark_version },
    ghost few_cycles: { cycle < 2 ^ 62 },
}

impl Note {
    /// Hands its seat over.
    pub fn into_seat(self) -> Seat<(), View>
        ensures { result ≡ self.seat }
    {
        let Note { seat, .. } = self;
        seat
    }

    /// What the participant knew of its part in numbers: `part` is the part that it stopped in.
    pub fn numbers(&self) -> Numbers
        ensures { AreOf result self.now.seat.me.0 }
    {
        self.numbers
    }

    /// Whether the participant has done its part. Of a note of `Pass::split` or `Pass::stop` that is true exactly where
    /// the participant is no visitor, its ticket doesn't mark, it made as many cells black as it was to run for, or it
    /// found each grey word 0 since it last held a cell.
    pub fn done(&self) -> bool
        ensures { result ≡ self.now.seat.me.0.done }
    {
        self.done
    }
}

impl Ticket {
    /// The ticket with this seat and its numbers.
    pub fn new(
        seat: Seat<(), View>,
        period: u32,
        run: u32,
        marking: bool,
        cycle: u64,
        base: u64,
    ) -> Ticket
        requires kind { seat.me.0.role ≡ role.Ticket }
        requires slotless { seat.me.1 ≡ [] }
        requires period { period ≡ seat.me.0.period }
        requires run { run ≡ seat.me.0.run }
        requires marking { marking ≡ seat.me.0.marks }
        requires cycle { cycle ≡ seat.me.0.cycle }
        requires base { base ≡ seat.me.0.mark_version }
        requires few_cycles { cycle < 2 ^ 62 }
        ensures { result.seat ≡ seat }
    {
        Ticket {
            seat,
            period,
            run,
            marking,
            cycle,
            base,
        }
    }

    /// The number of the open part, from 1 on.
    pub fn period(&self) -> u32
        ensures { result ≡ self.now.seat.me.0.period }
    {
        self.period
    }

    /// How many calls each mutator has in it.
    pub fn run(&self) -> u32
        ensures { result ≡ self.now.seat.me.0.run }
    {
        self.run
    }

    /// Whether a cycle marks.
    pub fn marking(&self) -> bool
        ensures { result ≡ self.now.seat.me.0.marks }
    {
        self.marking
    }

    /// The number of the last cycle that began.
    pub fn cycle(&self) -> u64
        ensures { result ≡ self.now.seat.me.0.cycle }
    {
        self.cycle
    }

    /// The cycle from which on colours count: the last full one that began, or 1 before the first.
    pub fn mark_version(&self) -> u64
        ensures { result ≡ self.now.seat.me.0.mark_version }
    {
        self.base
    }
}
