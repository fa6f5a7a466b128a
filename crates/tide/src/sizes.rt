//! `Sizes`: how large a heap is to be, and which sizes are refused. It makes no heap.
ghost use Rattle.std.specs.Prelude.{◌≡◌, ◌↔◌, ◌<◌, IfSome, None, position};
ghost use Rattle.tide.specs.Sizes.{is_outside, is_too_large};
ghost use Rattle.tide_server.specs.tide_sched.Paces.{pace_of};

use tide_server::{Layout, Memory, Pacing};

/// How large a heap is to be, who takes part, and when its cycles begin.
#[derive(Clone, Copy, Debug, PartialEq, Eq)]
pub struct Sizes {
    /// How many blocks of 64 cells each class has: those with 2, 4, 8 and 16 slots, and tables.
    pub cells: [u32; 5],
    /// How many blocks of 64 arrays of properties each class has.
    pub arrays: [u32; 5],
    /// How many registers of each thread the runtime names itself.
    pub registers: u8,
    /// How many values lie on the root stack of each thread at most.
    pub stack: u8,
    /// How many strong handles all threads share, and how many weak ones.
    pub strong: u16,
    pub weak: u16,
    /// How many threads a run has, and how many helpers mark beside them.
    pub members: u8,
    pub helpers: u8,
    /// How many calls each thread has in a part.
    pub calls: u32,
    /// How many cells a pause marks at most, but for the last of a cycle.
    pub visits: u32,
    /// How many cells may be born while a cycle marks.
    pub headroom: u32,
    /// After how many births a cycle begins by itself: with 0 none does.
    pub trigger: u32,
}

/// Why no host was opened: the first of these that holds.
#[derive(Clone, Copy, Debug, PartialEq, Eq)]
pub enum Refused {
    /// A class has more than 262,144 blocks: from 0 to 4 one of cells, from 5 to 9 one of arrays.
    Blocks { class: u8 },
    /// The registers and the root stack are more than 249 together.
    Registers,
    /// There are no members, or more than 16.
    Members,
    /// There are more than 8 helpers.
    Helpers,
    /// A part has fewer than 4 calls, or more than 65,536.
    Calls,
    /// A pause has fewer than 4 visits, or more than 65,536.
    Visits,
    /// The headroom isn't between 1 and 1,000,000.
    Headroom,
    /// The trigger is more than 1,000,000.
    Trigger,
    /// The path with this number is the first with no key, or with more than 64.
    Path { path: u32 },
    /// The path with this number is the first that names a key twice.
    DoubleKey { path: u32 },
    /// Nothing else is wrong, but memory was wanting.
    Memory,
}

impl From<Memory> for Refused {
    ghost use Rattle.tide.specs.declared.sizes.Refused.TheVariants as refused;

    ghost from_gives = { λ _ why. why ≡ refused.Memory };

    fn from(_: Memory) -> Refused {
        Refused::Memory
    }
}

/// The first class that has more blocks than a class may have.
fn large_class(blocks: &[u32; 5]) -> Option<usize>
    ensures first { result ≡ position is_too_large blocks.now }
    ensures within { IfSome result (λ class. class < 5) }
{
    blocks.iter().position(|count| *count > 262_144)
}

/// Whether a number is less than `least`, or more than `most`.
fn is_outside(least: u32, most: u32, number: u32) -> bool
    ensures { result ≡ is_outside least most number }
{
    number < least || number > most
}

impl Sizes {
    ghost use Rattle.tide.specs.Sizes.{AreWithin, layout_of, pace_of_sizes, refusal_of_numbers, refusal_of_sizes};

    /// Which of the numbers beside the blocks is beyond its limits, if one is.
    fn number_refusal(&self) -> Option<Refused>
        ensures { result ≡ refusal_of_numbers self.now }
    {
        if is_outside(0, 249, u32::from(self.registers) + u32::from(self.stack)) {
            return Some(Refused::Registers);
        }
        if is_outside(1, 16, u32::from(self.members)) {
            return Some(Refused::Members);
        }
        if is_outside(0, 8, u32::from(self.helpers)) {
            return Some(Refused::Helpers);
        }
        if is_outside(4, 65_536, self.calls) {
            return Some(Refused::Calls);
        }
        if is_outside(4, 65_536, self.visits) {
            return Some(Refused::Visits);
        }
        if is_outside(1, 1_000_000, self.headroom) {
            return Some(Refused::Headroom);
        }
        if is_outside(0, 1_000_000, self.trigger) {
            return Some(Refused::Trigger);
        }
        None
    }

    /// Which of all numbers is beyond its limits, if one is.
    fn any_refusal(&self) -> Option<Refused>
        ensures { result ≡ refusal_of_sizes self.now }
    {
        if let Some(class) = large_class(&self.cells) {
            return Some(Refused::Blocks { class: class as u8 });
        }
        if let Some(class) = large_class(&self.arrays) {
            return Some(Refused::Blocks {
                class: 5 + class as u8,
            });
        }
        self.number_refusal()
    }

    /// Why these sizes are refused, where they are.
    pub fn refusal(&self) -> Option<Refused>
        ensures first { result ≡ refusal_of_sizes self.now }
        ensures within { (result ≡ None) ↔ AreWithin self.now }
    {
        self.any_refusal()
    }

    pub(crate) fn layout(&self) -> Layout
        requires within { AreWithin self.now }
        ensures { result ≡ layout_of self.now }
    {
        Layout::large(
            self.cells,
            self.arrays,
            self.registers + 1 + self.stack,
            self.strong,
            self.weak,
            self.members,
            self.helpers,
        )
    }

    /// The numbers of the schedule.
    pub(crate) fn pacing(&self) -> Pacing
        requires within { AreWithin self.now }
        ensures pace { pace_of result ≡ pace_of_sizes self.now }
    {
        Pacing {
            calls: self.calls,
            visits: self.visits,
            headroom: self.headroom,
            trigger: self.trigger,
        }
    }
}
