//! Heaps that are told by facts and then collected, step by step or a whole cycle at a time.
//!
//! The lines of a row: `layout ..`, and the facts of `Heap::say`, which may come between cycles too. Then
//!
//! - `begin` begins a full cycle, and `begin eden` an Eden one; `pause BUDGET` is answered with `converged` or `more`
//!   and the number of visits, `end` with how many cells it freed, and `sweep` with the blocks in which something was
//!   dead;
//! - `cycle BUDGET` does all of that, with pauses of this budget until one converges, and is answered with what it
//!   `kept` and the cells that it `freed`; `eden BUDGET` does the same in an Eden cycle;
//! - `report` tells that of all cycles, and `shared` the cells that have their bit in a shared grey word;
//! - `REGION NUMBER`, `slot CELL.SLOT` and `pair TABLE.PLACE` are answered with what is there.
ghost use Rattle.std.specs.Prelude.{◌+◌, ◌≤◌, length};

use crate::marking::collecting::{Room, begin_in, collect, end_in, pause_in, sweep_all};
use crate::marking::heaps::{answered, answered_numbers, nothing_if, solved_text, tell};
use check_heap::{Answers, Heap, joined, number, number_between, number_text, numbers_text};
use std::alloc::{AllocError, Global};
use tide_block::{bit_of, block_of_cell, has_bit};
use tide_cycle::{CycleLine, Report};
use tide_layout::Region;

/// A heap, once its layout is given, and room for as many cycles as a row has.
#[derive(Drop)]
pub struct Cycles {
    heap: Option<Heap>,
    room: Room,
}

/// What a cycle kept and freed.
fn line_text(alloc: Global, report: &Report, line: CycleLine) -> Result<String, AllocError>
    requires { line.first + line.freed ≤ length report.now.ids }
{
    let kept = number_between(alloc, "kept ", u64::from(line.kept), " freed ")?;
    let freed = numbers_text(alloc, report.ids_of(line))?;
    joined(alloc, &[kept.as_str(), freed.as_str()])
}

/// What the last cycle kept and freed.
fn last_text(alloc: Global, report: &Report) -> Result<Option<String>, AllocError> {
    match report.cycles().last() {
        Some(line) => answered(line_text(alloc, report, *line)),
        None => Ok(None),
    }
}

/// What all cycles kept and freed, each behind its number.
fn report_text(alloc: Global, report: &Report) -> Result<String, AllocError> {
    let mut all = String::new(alloc);
    for line in report.cycles() {
        let before = if all.as_str().is_empty() { "" } else { ", " };
        let number = number_between(alloc, before, line.number, ": ")?;
        let told = line_text(alloc, report, *line)?;
        all.push_str(number.as_str())?;
        all.push_str(told.as_str())?;
    }
    Ok(all)
}

/// The cells that have their bit in a shared grey word.
fn shared_cells(alloc: Global, heap: &mut Heap) -> Result<Vec<u32>, AllocError> {
    let mut cells = Vec::new(alloc);
    for cell in 0..heap.layout.cells() {
        let word = heap.get(Region::GreyShared, block_of_cell(cell));
        if has_bit(word, bit_of(cell)) {
            cells.push(cell)?;
        }
    }
    Ok(cells)
}

/// Does what has a budget, and answers it.
fn answer_within(
    alloc: Global,
    heap: &mut Heap,
    room: &mut Room,
    what: &str,
    budget: u32,
) -> Result<Option<String>, AllocError> {
    if what == "pause" {
        return match pause_in(heap, &mut room.list, budget) {
            Some(solved) => answered(solved_text(alloc, solved)),
            None => Ok(None),
        };
    }
    if collect(alloc, heap, room, what == "cycle", budget)? {
        last_text(alloc, &room.report)
    } else {
        Ok(None)
    }
}

/// Does a step of a cycle, or tells of cycles.
fn answer_step(
    alloc: Global,
    heap: &mut Heap,
    room: &mut Room,
    what: &str,
) -> Result<Option<String>, AllocError> {
    match what {
        "begin" => nothing_if(alloc, begin_in(heap, true)),
        "end" => match end_in(heap, &mut room.report) {
            Some(freed) => answered(number_text(alloc, u64::from(freed))),
            None => Ok(None),
        },
        "sweep" => answered_numbers(alloc, sweep_all(alloc, heap)),
        "report" => answered(report_text(alloc, &room.report)),
        "shared" => answered_numbers(alloc, shared_cells(alloc, heap)),
        _ => Ok(None),
    }
}

impl Answers for Cycles {
    fn begin(alloc: Global) -> Result<Self, AllocError> {
        Ok(Cycles {
            heap: None,
            room: Room::new(alloc, 4_096, 1_310_720)?,
        })
    }

    fn answer(&mut self, alloc: Global, words: &[&str]) -> Result<Option<String>, AllocError> {
        if let Some(told) = tell(alloc, &mut self.heap, words)? {
            return Ok(Some(told));
        }
        match (&mut self.heap, words) {
            (Some(heap), [what]) => answer_step(alloc, heap, &mut self.room, what),
            (Some(heap), ["begin", "eden"]) => nothing_if(alloc, begin_in(heap, false)),
            (Some(heap), [what @ ("pause" | "cycle" | "eden"), budget]) => match number(budget) {
                Some(budget) => answer_within(alloc, heap, &mut self.room, what, budget),
                None => Ok(None),
            },
            (Some(heap), [what, at]) => heap.word_text(alloc, what, at),
            _ => Ok(None),
        }
    }
}
