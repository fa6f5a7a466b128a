//! Three parts of a mutator and a visitor, with a freeze after each.
ghost use Rattle.embed_heap.specs.visitor.Shares.{HasOpened, HasStarted, HaveStopped};
ghost use Rattle.std.specs.Prelude.{◌≡◌};

use crate::visitor::beside::work_and_visit;
use crate::visitor::shared::Shared;
use std::marker::Sync;
use std::thread::Threads;
use tide::{Op, Reply};

/// The mutator links four cells, each of which holds the one before it, and has the last one in two registers. To a
/// fifth one only a weak handle leads then.
const LINKS: [Op; 13] = [
    Op::Alloc { dst: 0, class: 0 },
    Op::Alloc { dst: 1, class: 0 },
    Op::Put {
        src: 1,
        slot: 0,
        val: 0,
    },
    Op::Move { dst: 0, src: 1 },
    Op::Alloc { dst: 1, class: 0 },
    Op::Put {
        src: 1,
        slot: 0,
        val: 0,
    },
    Op::Move { dst: 0, src: 1 },
    Op::Alloc { dst: 1, class: 0 },
    Op::Put {
        src: 1,
        slot: 0,
        val: 0,
    },
    Op::Move { dst: 0, src: 1 },
    Op::Alloc { dst: 2, class: 0 },
    Op::WeakSet { at: 0, val: 2 },
    Op::Drop { dst: 2 },
];

/// It follows the chain from its last cell for two cells, and stores that one in the last one's second slot: so there
/// is a second way to a cell that the visitor may just be marking.
const STORES: [Op; 3] = [
    Op::Get {
        dst: 1,
        src: 0,
        slot: 0,
    },
    Op::Get {
        dst: 1,
        src: 1,
        slot: 0,
    },
    Op::Put {
        src: 0,
        slot: 1,
        val: 1,
    },
];

/// It looks where the weak handle leads.
const LOOKS: [Op; 1] = [Op::WeakGet { dst: 1, at: 0 }];

/// What was seen of a cycle that marked beside the mutator.
#[derive(Clone, Copy)]
pub struct Seen {
    /// The number of the cycle that marked in the second part, and from which cycle on colours counted there.
    pub cycle: u64,
    pub mark_version: u64,
    /// How many cells the visitor made black in the second part.
    pub visits: u32,
    /// How many the cycle kept that ended after it, if one did.
    pub kept: Option<u32>,
    /// What the mutator was answered in the third part, about the weak handle.
    pub weak: Option<Reply>,
}

/// A heap after a part of both.
#[derive(Drop)]
pub struct PartDone {
    pub shared: Shared,
    /// The number of the last cycle that had begun, and from which cycle on colours count, as the tickets said.
    pub cycle: u64,
    pub mark_version: u64,
    /// How many visits the visitor's note tells.
    pub visits: u32,
    /// What the mutator's last call was answered, if it made one.
    pub last: Option<Reply>,
}

impl Shared {
    /// Both make the open part, in a thread each, and their notes are taken in.
    pub fn run_part<R: Threads + Sync>(self, rt: &R, ops: &[Op]) -> PartDone
        requires opened { HasOpened self }
        ensures stopped { HaveStopped result.shared }
        ensures visits { result.shared.collector.seat.me.0.visits_told ≡ result.visits }
    {
        let Shared {
            heap,
            mut collector,
            mutator,
            visitor,
            books,
        } = self;
        let first = collector.ticket(&heap);
        let second = collector.ticket(&heap);
        let (cycle, mark_version) = (first.cycle(), first.mark_version());
        let (worked, visited) = work_and_visit(rt, &heap, mutator, first, ops, visitor, second);
        let visits = visited.note.numbers().visits;
        collector.take(&heap, worked.note);
        collector.take(&heap, visited.note);
        let shared = Shared {
            heap,
            collector,
            mutator: worked.mutator,
            visitor: visited.visitor,
            books,
        };
        PartDone {
            shared,
            cycle,
            mark_version,
            visits,
            last: worked.last,
        }
    }
}

/// The mutator links a chain, a cycle begins, the visitor marks what its first pause left, beside the mutator, and the
/// cycle ends.
pub fn run_cycle<R: Threads + Sync>(rt: &R, mut shared: Shared) -> Option<Seen>
    requires started { HasStarted shared }
{
    shared.open();
    let mut linked = shared.run_part(rt, &LINKS);
    linked.shared.next(false)?;
    let mut stored = linked.shared.run_part(rt, &STORES);
    stored.shared.next(false)?;
    let (cycle, mark_version) = (stored.cycle, stored.mark_version);
    let visits = stored.visits;
    let kept = stored
        .shared
        .books
        .report
        .cycles()
        .first()
        .map(|line| line.kept);
    let looked = stored.shared.run_part(rt, &LOOKS);
    Some(Seen {
        cycle,
        mark_version,
        visits,
        kept,
        weak: looked.last,
    })
}
