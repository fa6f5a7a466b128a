//! A heap is opened for a host: its sizes are tested, and each party gets a box.
ghost use Rattle.std.specs.Prelude.{◌≡◌, ◌↔◌, IfOk, map, true};
ghost use Rattle.std.specs.Arc.{arc_value};
ghost use Rattle.std.specs.List.{AllZip};
ghost use Rattle.tide.specs.tide_layout.Limits.{HasFewBlocks};
ghost use Rattle.tide.specs.tide_sched.Paces.{pace_of};
ghost use Rattle.tide_c.specs.Opened.{AreWithin, HasOpened, HasPlace, HasSeat, IsPaced, layout_of, limits, pace_of_sizes, parties_in};

use crate::party::{Figures, HelperParty, KeeperParty, MemberParty, Party, Phase, Shared};
use std::alloc::Global;
use std::sync::Arc;
use tide::{Helper, Layout, Member, Memory, Opened, Pacing, Paths, Report, Shapes, Start, open};

/// How large a heap is, and how its cycles are paced.
#[repr(C)]
#[derive(Clone, Copy)]
pub struct Sizes {
    /// Blocks of 64 cells with 2, 4, 8 and 16 slots, and of tables.
    pub cells: [u32; 5],
    /// Blocks of 64 arrays of 4, 8, 16, 32 and 64 properties.
    pub arrays: [u32; 5],
    /// Registers of each member, and how many of them, the last ones, are its root stack.
    pub registers: u32,
    pub stack: u32,
    /// Strong and weak handles.
    pub strong: u32,
    pub weak: u32,
    /// Calls of each member in a part, and visits of a pause at most, but for the last of a cycle.
    pub calls: u32,
    pub visits: u32,
    /// Cells that may be born while a cycle marks.
    pub headroom: u32,
    /// Births after which a cycle begins by itself; 0 where none does.
    pub trigger: u32,
}

/// The most of each size, and the least of calls and of visits.
#[repr(C)]
#[derive(Clone, Copy)]
pub struct Bounds {
    pub members: u32,
    pub helpers: u32,
    pub blocks: u32,
    pub registers: u32,
    pub strong: u32,
    pub weak: u32,
    pub least_calls: u32,
    pub calls: u32,
    pub least_visits: u32,
    pub visits: u32,
    pub headroom: u32,
    pub trigger: u32,
}

/// A heap's parties, each in a box.
#[derive(Drop)]
pub struct Parties {
    pub keeper: Box<Party, Global>,
    pub members: Vec<Box<Party, Global>>,
    pub helpers: Vec<Box<Party, Global>>,
}

impl Bounds {
    /// Those of a heap.
    pub fn of_heaps() -> Bounds
        ensures { result ≡ limits }
    {
        Bounds {
            members: 16,
            helpers: 8,
            blocks: 262_144,
            registers: 250,
            strong: 65_535,
            weak: 65_535,
            least_calls: 4,
            calls: 65_536,
            least_visits: 4,
            visits: 65_536,
            headroom: 1_000_000,
            trigger: 1_000_000,
        }
    }
}

/// Whether each of five numbers of blocks is within its limit.
fn are_few(blocks: [u32; 5]) -> bool
    ensures { (result ≡ true) ↔ HasFewBlocks blocks }
{
    for class in 0..5 {
        if blocks[class] > 262_144 {
            return false;
        }
    }
    true
}

impl Sizes {
    /// Whether the numbers of the schedule are within their limits.
    fn is_paced(&self) -> bool
        ensures { (result ≡ true) ↔ IsPaced self.now }
    {
        self.calls >= 4
            && self.calls <= 65_536
            && self.visits >= 4
            && self.visits <= 65_536
            && self.headroom >= 1
            && self.headroom <= 1_000_000
            && self.trigger <= 1_000_000
    }

    /// Whether all sizes are within their limits, with so many members and helpers.
    pub fn are_within(&self, members: usize, helpers: usize) -> bool
        ensures { (result ≡ true) ↔ AreWithin self.now members helpers }
    {
        are_few(self.cells)
            && are_few(self.arrays)
            && self.registers <= 250
            && self.stack <= self.registers
            && self.strong <= 65_535
            && self.weak <= 65_535
            && members >= 1
            && members <= 16
            && helpers <= 8
            && self.is_paced()
    }

    /// The layout of these sizes, for so many members and helpers.
    fn layout(&self, members: usize, helpers: usize) -> Layout
        requires within { AreWithin self.now members helpers }
        ensures { result ≡ layout_of self.now members helpers }
    {
        Layout::large(
            self.cells,
            self.arrays,
            self.registers as u8,
            self.strong as u16,
            self.weak as u16,
            members as u8,
            helpers as u8,
        )
    }

    /// The numbers of the schedule.
    fn pacing(&self) -> Pacing
        requires paced { IsPaced self.now }
        ensures pace { pace_of result ≡ pace_of_sizes self.now }
    {
        Pacing {
            calls: self.calls,
            visits: self.visits,
            headroom: self.headroom,
            trigger: self.trigger,
        }
    }
}

/// A box for each member.
fn box_members(
    alloc: Global,
    shared: &Shared,
    base: u8,
    members: Vec<Member>,
) -> Result<Vec<Box<Party, Global>>, Memory>
    ensures boxed { IfOk result (λ boxes. AllZip (HasSeat (arc_value shared.now).heap.key.layout
        (arc_value shared.now).heap.table.shared.table_id (arc_value shared.now).hands.shared.table_id base) members.items
        (parties_in boxes.items)) }
{
    let mut boxes = Vec::new(alloc);
    for member in members {
        let party = MemberParty {
            shared: Arc::try_clone(shared)?,
            member,
            has_left: false,
            base,
            top: base,
        };
        boxes.push(Box::new(alloc, Party::Member(party))?)?;
    }
    Ok(boxes)
}

/// A box for each helper.
fn box_helpers(
    alloc: Global,
    shared: &Shared,
    helpers: Vec<Helper>,
) -> Result<Vec<Box<Party, Global>>, Memory>
    ensures boxed { IfOk result (λ boxes. AllZip (HasPlace (arc_value shared.now).heap.key.layout
        (arc_value shared.now).heap.table.shared.table_id (arc_value shared.now).hands.shared.table_id) helpers.items
        (parties_in boxes.items)) }
{
    let mut boxes = Vec::new(alloc);
    for helper in helpers {
        let party = HelperParty {
            shared: Arc::try_clone(shared)?,
            helper,
        };
        boxes.push(Box::new(alloc, Party::Helper(party))?)?;
    }
    Ok(boxes)
}

/// Opens a heap of these sizes, and puts each of its parties into a box.
pub fn open_parties(
    alloc: Global,
    sizes: &Sizes,
    members: usize,
    helpers: usize,
) -> Result<Parties, Memory>
    requires within { AreWithin sizes.now members helpers }
    ensures opened { IfOk result (λ made. HasOpened sizes.now members helpers made.keeper.value
        (parties_in made.members.items) (parties_in made.helpers.items)) }
{
    let Ok(shapes) = Shapes::new(alloc, &Paths::new(alloc)) else {
        return Err(Memory);
    };
    let start = Start::new(alloc, sizes.layout(members, helpers), shapes)?;
    let Opened {
        standing,
        keeper,
        members,
        helpers,
    } = open(alloc, start, sizes.pacing())?;
    let shared = Arc::new(alloc, standing)?;
    let base = (sizes.registers - sizes.stack) as u8;
    let members = box_members(alloc, &shared, base, members)?;
    let helpers = box_helpers(alloc, &shared, helpers)?;
    let party = KeeperParty {
        shared,
        keeper,
        report: Report::new(alloc, 0, 0)?,
        figures: Figures::new(),
        phase: Phase::Open,
    };
    Ok(Parties {
        keeper: Box::new(alloc, Party::Keeper(party))?,
        members,
        helpers,
    })
}
