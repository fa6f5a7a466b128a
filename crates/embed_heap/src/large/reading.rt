//! What the mutator of a large heap is answered: the ids of its last cells, what they hold, and what cycles leave.
ghost use Rattle.embed_heap.specs.visitor.Shares.{HasOpened, HasStarted};
ghost use Rattle.std.specs.Prelude.{◌≡◌, ◌≤◌, IfSome};

use crate::large::filling::fill;
use crate::visitor::{Shared, start_over};
use std::alloc::Global;
use std::marker::Sync;
use std::thread::Threads;
use tide::{Layout, Op, Pacing, Paths, Refusal, Reply, Shapes, Val};

/// A cycle begins by itself once 4,000 cells were born since the last one ended: three of four are Eden cycles.
const PACING: Pacing = Pacing {
    calls: 4_000,
    visits: 4_000,
    headroom: 1_000_000,
    trigger: 4_000,
};

/// How many cells a block has.
const BLOCK_CELLS: u32 = 64;

/// The last cell that was linked, by way of the last weak handle, and the one that it holds.
const LAST: [Op; 2] = [
    Op::WeakSet { at: 999, val: 0 },
    Op::WeakGet { dst: 2, at: 999 },
];

const BEFORE_LAST: [Op; 1] = [Op::Get {
    dst: 2,
    src: 2,
    slot: 0,
}];

/// One more cell than its class has.
const ONE_MORE: [Op; 1] = [Op::Alloc { dst: 2, class: 0 }];

/// A key of the third class, in the last register.
const KEY: [Op; 1] = [Op::Alloc { dst: 249, class: 2 }];

/// A cell of the fourth class, which a weak handle names.
const VALUE: [Op; 3] = [
    Op::Alloc { dst: 3, class: 3 },
    Op::WeakSet { at: 0, val: 3 },
    Op::WeakGet { dst: 3, at: 0 },
];

/// A table that the last strong handle holds: under the key it has the value, which nothing else holds then. Its pairs
/// are for the mutator that claims it.
const TABLE: [Op; 8] = [
    Op::Table { dst: 4 },
    Op::Claim { src: 4 },
    Op::PairSet {
        src: 4,
        key: 249,
        val: 3,
    },
    Op::Release { src: 4 },
    Op::StrongSet { at: 999, val: 4 },
    Op::Drop { dst: 3 },
    Op::Drop { dst: 2 },
    Op::StrongGet { dst: 4, at: 999 },
];

/// The value under the key.
const PAIR: [Op; 2] = [
    Op::Claim { src: 4 },
    Op::PairGet {
        dst: 3,
        src: 4,
        key: 249,
    },
];

/// The claim, the key and the value are let go.
const LET_GO: [Op; 3] = [
    Op::Release { src: 4 },
    Op::Drop { dst: 249 },
    Op::Drop { dst: 3 },
];

/// Where the weak handle leads.
const LOOK: [Op; 1] = [Op::WeakGet { dst: 3, at: 0 }];

/// The layout of its heap: so many blocks of each class of cells.
fn layout(blocks: u32) -> Layout
    requires few { blocks ≤ 262144 }
    ensures mutators { result.mutators ≡ 1 }
    ensures visitors { result.visitors ≡ 1 }
{
    Layout::large([blocks; 5], [1, 0, 0, 0, 0], 250, 1_000, 1_000, 1, 1)
}

/// The heap after a part, in which the next part is open, and what the mutator's last call was answered.
#[derive(Drop)]
struct Asked {
    shared: Shared,
    last: Option<Reply>,
}

impl Asked {
    /// Whether the answer is this cell, as one that was born or one that was seen.
    fn is_cell(&self, cell: u32) -> bool {
        match self.last {
            Some(Reply::Born(id) | Reply::Seen(Val::Cell(id))) => id == cell,
            _ => false,
        }
    }
}

/// Makes these calls in a part, and opens the next one: after a whole full cycle where that is forced.
fn ask<R: Threads + Sync>(rt: &R, shared: Shared, ops: &[Op], is_forced: bool) -> Option<Asked>
    requires opened { HasOpened shared }
    ensures opened { IfSome result (λ asked. HasOpened asked.shared) }
{
    let mut done = shared.run_part(rt, ops);
    done.shared.next(is_forced)?;
    Some(Asked {
        shared: done.shared,
        last: done.last,
    })
}

/// How many cells the last cycle that ended kept, and the report forgets those that ended.
fn last_kept(shared: &mut Shared) -> Option<u32>
    requires opened { HasOpened shared.old }
    ensures opened { HasOpened shared.new }
{
    let kept = shared.books.report.cycles().last().map(|line| line.kept);
    shared.books.report.forget();
    kept
}

/// Whether the class is full, and its last two cells are read back.
fn is_filled<R: Threads + Sync>(rt: &R, shared: Shared, cells: u32) -> Option<(Shared, bool)>
    requires opened { HasOpened shared }
    requires few { cells ≤ 16777216 }
    ensures opened { IfSome result (λ told. HasOpened told.0) }
{
    let last = ask(rt, shared, &LAST, false)?;
    let is_last = cells > 1 && last.is_cell(cells - 1);
    let before = ask(rt, last.shared, &BEFORE_LAST, false)?;
    let is_before = cells > 1 && before.is_cell(cells - 2);
    let more = ask(rt, before.shared, &ONE_MORE, true)?;
    let is_full = matches!(more.last, Some(Reply::Refused(Refusal::Full { class: 0 })));
    Some((more.shared, is_last && is_before && is_full))
}

/// Whether a value that only an ephemeron holds is there as long as its key, and the cycles keep what they are to keep.
fn is_paired<R: Threads + Sync>(rt: &R, shared: Shared, cells: u32) -> Option<bool>
    requires opened { HasOpened shared }
    requires few { cells ≤ 16777216 }
{
    let key = ask(rt, shared, &KEY, false)?;
    let is_key = key.is_cell(2 * cells);
    let value = ask(rt, key.shared, &VALUE, false)?;
    let is_value = value.is_cell(3 * cells);
    let table = ask(rt, value.shared, &TABLE, true)?;
    let are_born = is_key && is_value && table.is_cell(4 * cells);
    let mut shared = table.shared;
    let kept = last_kept(&mut shared);
    let pair = ask(rt, shared, &PAIR, false)?;
    let is_paired = pair.is_cell(3 * cells);
    let mut gone = ask(rt, pair.shared, &LET_GO, true)?;
    let left = last_kept(&mut gone.shared);
    let look = ask(rt, gone.shared, &LOOK, false)?;
    let is_emptied = matches!(look.last, Some(Reply::Seen(Val::Empty)));
    let are_kept = kept == Some(cells + 3) && left == Some(cells + 1);
    Some(are_born && is_paired && are_kept && is_emptied)
}

/// Fills a heap with so many blocks of each class, and tells whether all is read back.
fn run<R: Threads + Sync>(rt: &R, alloc: Global, mut shared: Shared, cells: u32) -> Option<bool>
    requires started { HasStarted shared }
    requires few { cells ≤ 16777216 }
{
    shared.open();
    let filled = fill(rt, alloc, shared, cells)?;
    let (filled, is_filled) = is_filled(rt, filled, cells)?;
    let is_paired = is_paired(rt, filled, cells)?;
    Some(is_filled && is_paired)
}

/// A mutator fills a class of so many blocks with a chain, beside a visitor, while cycles begin by themselves, Eden and
/// full ones. It reads the last cells back, and an ephemeron whose key, value and table have the larger ids. Answers
/// whether all was as it should be.
pub fn is_read_back<R: Threads + Sync>(rt: &R, alloc: Global, blocks: u32) -> bool
    requires few { blocks ≤ 262144 }
{
    let Ok(shapes) = Shapes::new(alloc, &Paths::new(alloc)) else {
        return false;
    };
    match start_over(alloc, layout(blocks), PACING, shapes) {
        Ok(Some(shared)) => run(rt, alloc, shared, BLOCK_CELLS * blocks).unwrap_or(false),
        _ => false,
    }
}
