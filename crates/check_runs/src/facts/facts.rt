//! What a run's text tells, and the three facts that hold of it in whatever order the mutators made their calls:
//!
//! - **What each mutator did.** Its calls are its script, in order, and each reply is one that may be given after its
//!   own calls (`held.rt`).
//! - **What became of each cell.** It was freed as often as it was born, or once less, where it lives at the end.
//! - **What the cycles tell.** They have their numbers, one after another, and the cells that each freed stand in
//!   rising order; what each kept and freed is no less than what the one before it kept, and no fewer live at the end
//!   than the last one kept.
//!
//! They are weaker than that some order of the calls gives the text, and take no search for one.

use crate::facts::held::{CELLS, Held};
use std::alloc::{AllocError, Global};
use tide_model::{Op, Refusal, Reply};
use tide_run::{Answered, CycleLine, Outcome};
use tide_workload::Workload;

/// What a run's text tells: each mutator's calls with their replies, a line for each cycle, the cells that they freed
/// one after another, and how many cells live at the end.
#[derive(Drop)]
pub struct Facts {
    pub calls: Vec<Vec<Answered>>,
    pub cycles: Vec<CycleLine>,
    pub freed: Vec<u32>,
    pub live: u32,
}

/// How often a cell is among these.
fn count_of(cells: &[u32], cell: u32) -> u32 {
    let mut count = 0u32;
    for one in cells {
        if *one == cell {
            count = count.saturating_add(1);
        }
    }
    count
}

/// Whether cells stand in rising order, each once.
fn is_rising(cells: &[u32]) -> bool {
    let mut least = 0u32;
    for cell in cells {
        if *cell < least {
            return false;
        }
        least = cell.saturating_add(1);
    }
    true
}

/// Whether a call was refused for room.
fn is_full(reply: Reply) -> bool {
    match reply {
        Reply::Refused(Refusal::Full { .. }) => true,
        _ => false,
    }
}

/// Whether calls are a script, with replies that may be given: an operation that is refused for room is asked for once
/// more, and after the last one the mutator gives up its claims and retires.
fn is_script(alloc: Global, who: u32, ops: &[Op], calls: &[Answered]) -> Result<bool, AllocError> {
    let mut held = Held::new(alloc, who);
    let mut left = ops;
    let (mut is_again, mut has_retired) = (false, false);
    for call in calls {
        let op = match left {
            [op, ..] => *op,
            [] if held.has_claims() => Op::Unclaim,
            [] => Op::Retire,
        };
        if has_retired || call.op != op || !held.allows(op, call.reply) {
            return Ok(false);
        }
        held.take(op, call.reply)?;
        is_again = is_full(call.reply) && !is_again;
        has_retired = op == Op::Retire;
        if let [_, rest @ ..] = left {
            if !is_again {
                left = rest;
            }
        }
    }
    Ok(has_retired)
}

impl Facts {
    /// What the text of an outcome tells.
    pub fn of(alloc: Global, outcome: &Outcome) -> Result<Self, AllocError> {
        let mut calls = Vec::new(alloc);
        for m in 0..outcome.mutators() {
            calls.push(outcome.calls(m).to_vec(alloc)?)?;
        }
        Ok(Facts {
            calls,
            cycles: outcome.report().cycles().to_vec(alloc)?,
            freed: outcome.report().ids().to_vec(alloc)?,
            live: outcome.live(),
        })
    }

    /// Whether each mutator's calls are its script, with replies that may be given.
    fn are_scripts(&self, alloc: Global, load: &Workload) -> Result<bool, AllocError> {
        let mut all = load.mutators() as usize == self.calls.len();
        for m in 0..load.mutators() {
            if let Some(calls) = self.calls.get(m as usize) {
                all = is_script(alloc, m, load.ops(m), calls.as_slice())? && all;
            }
        }
        Ok(all)
    }

    /// How often each cell was born. None where a number was born that no cell has.
    fn births(&self) -> Option<[u32; 320]> {
        let mut counts = [0u32; 320];
        for calls in self.calls.as_slice() {
            for call in calls.as_slice() {
                if let Reply::Born(cell) = call.reply {
                    if cell >= CELLS {
                        return None;
                    }
                    counts[cell as usize] = counts[cell as usize].saturating_add(1);
                }
            }
        }
        Some(counts)
    }

    /// How many cells are left, where each was freed as often as it was born, or once less.
    fn left(&self) -> Option<u32> {
        let births = self.births()?;
        let mut left = 0u32;
        for cell in 0..CELLS {
            let freed = count_of(self.freed.as_slice(), cell);
            if births[cell as usize] == freed.saturating_add(1) {
                left = left.saturating_add(1);
            } else if births[cell as usize] != freed {
                return None;
            }
        }
        Some(left)
    }

    /// Whether the cycles have their numbers and their cells in rising order, and what they kept and freed adds up.
    fn cycles_add_up(&self) -> bool {
        let (mut number, mut kept, mut first) = (0u64, 0u32, 0usize);
        for line in self.cycles.as_slice() {
            let next = first.saturating_add(line.freed as usize);
            if next > self.freed.len() || next < first {
                return false;
            }
            number = number.saturating_add(1);
            let lived = line.kept.saturating_add(line.freed);
            if line.number != number || lived < kept || !is_rising(&self.freed[first..next]) {
                return false;
            }
            (kept, first) = (line.kept, next);
        }
        first == self.freed.len() && kept <= self.live
    }

    /// Whether the facts hold of what a workload's text tells.
    pub fn hold(&self, alloc: Global, load: &Workload) -> Result<bool, AllocError> {
        let adds_up = self.cycles_add_up() && self.left() == Some(self.live);
        Ok(adds_up && self.are_scripts(alloc, load)?)
    }
}
