//! The steps of a cycle over a heap of words, each done where its conditions hold, and all of them. Each leaves what
//! the laws of `tide_core` ask of the heaps before and after it.
ghost use Rattle.std.specs.Prelude.{◌≡◌, ◌<◌, ◌≤◌, [], true, IfSome};
ghost use Rattle.tide_core.specs.wave.Entered.{CycleHasBegun, HasEnded, HasPaused, HasSwept};
ghost use Rattle.tide_layout.specs.Region.{block_count};
ghost use Rattle.tide_solver.specs.Outcome.{visits_of};
ghost use Rattle.tide_words.specs.heap.Heap.{heap_of};

use crate::marking::bench::cycle_marks;
use check_heap::{Heap, MOST_CELLS};
use std::alloc::{AllocError, Global};
use tide_cycle::{Report, begin, end, has_room_to_end, pause};
use tide_solver::Solved;
use tide_sweep::{has_dead, sweep};
use tide_words::{GreyList, Region, Words, word_phase};

/// No cycle begins from this one on.
const LAST_CYCLE: u64 = 1 << 60;

/// How many blocks of cells a heap has at most.
const BLOCKS: usize = 320;

/// What cycles use: the list of grey cells, which is empty between pauses, and the report.
#[derive(Drop)]
pub struct Room {
    pub list: GreyList,
    pub report: Report,
    ghost empty: { list.cells ≡ [] },
    ghost room: { list.cap ≡ 20480 },
}

impl Room {
    /// Room for so many cycles of any heap, which free so many cells.
    pub fn new(alloc: Global, cycles: u32, freed: u32) -> Result<Self, AllocError> {
        let Ok(list) = GreyList::new(alloc, MOST_CELLS) else {
            return Err(AllocError);
        };
        let Ok(report) = Report::new(alloc, cycles, freed) else {
            return Err(AllocError);
        };
        Ok(Room { list, report })
    }
}

/// Begins a cycle where none marks, a full one or an Eden one, and answers whether it did.
pub fn begin_in(heap: &mut Heap, full: bool) -> bool
    ensures begun { result ≡ true → CycleHasBegun heap.old.layout full (heap_of heap.old.layout heap.old.words)
        (heap_of heap.old.layout heap.new.words) }
{
    let (cycle, marks) = word_phase(heap.words.load(heap.layout.place(Region::Phase, 0)));
    if marks || cycle >= LAST_CYCLE {
        return false;
    }
    begin(&mut heap.words, &heap.layout, full);
    true
}

/// Pauses where a cycle marks, and tells how that ended.
pub fn pause_in(heap: &mut Heap, list: &mut GreyList, budget: u32) -> Option<Solved>
    requires empty { list.old.cells ≡ [] }
    requires room { 20480 ≤ list.old.cap }
    ensures same_list { list.new ≡ list.old }
    ensures paused { IfSome result (λ solved. HasPaused heap.old.layout (heap_of heap.old.layout heap.old.words)
        (heap_of heap.old.layout heap.new.words) (visits_of solved)) }
{
    let cells = heap.layout.cells();
    if !cycle_marks(heap) || cells > MOST_CELLS {
        return None;
    }
    Some(pause(&mut heap.words, &heap.layout, list, budget))
}

/// Ends the cycle where one marks and the report has room, and tells how many cells it freed.
pub fn end_in(heap: &mut Heap, report: &mut Report) -> Option<u32>
    ensures ended { IfSome result (λ _. HasEnded heap.old.layout (heap_of heap.old.layout heap.old.words)
        (heap_of heap.old.layout heap.new.words)) }
{
    if !cycle_marks(heap) || !has_room_to_end(report, &heap.layout) {
        return None;
    }
    let mut marks = [0; BLOCKS];
    Some(end(&mut heap.words, &heap.layout, &mut marks, report))
}

/// Sweeps a block where something is dead in it, and answers whether it did.
fn sweep_in(heap: &mut Heap, block: u32) -> bool
    requires { block < block_count heap.old.layout }
    ensures layout { heap.new.layout ≡ heap.old.layout }
    ensures swept { result ≡ true → HasSwept heap.old.layout (heap_of heap.old.layout heap.old.words)
        (heap_of heap.old.layout heap.new.words) block }
{
    if !has_dead(&mut heap.words, &heap.layout, block) {
        return false;
    }
    sweep(&mut heap.words, &heap.layout, block);
    true
}

/// Sweeps each block in which something is dead, and answers which these are.
pub fn sweep_all(alloc: Global, heap: &mut Heap) -> Result<Vec<u32>, AllocError> {
    let mut blocks = Vec::new(alloc);
    for block in 0..heap.layout.block_count() {
        if sweep_in(heap, block) {
            blocks.push(block)?;
        }
    }
    Ok(blocks)
}

/// Runs a whole cycle, a full one or an Eden one, whose pauses have this budget and of which the last one converges.
/// Answers whether it did.
pub fn collect(
    alloc: Global,
    heap: &mut Heap,
    room: &mut Room,
    full: bool,
    budget: u32,
) -> Result<bool, AllocError> {
    if !begin_in(heap, full) {
        return Ok(false);
    }
    let mut solved = pause_in(heap, &mut room.list, budget);
    for _pause in 0..heap.layout.cells() {
        let Some(Solved::More { visits: _ }) = solved else {
            break;
        };
        solved = pause_in(heap, &mut room.list, budget);
    }
    let Some(Solved::Converged { visits: _ }) = solved else {
        return Ok(false);
    };
    let is_ended = end_in(heap, &mut room.report).is_some();
    sweep_all(alloc, heap)?;
    Ok(is_ended)
}
