//! A cycle that a visitor marks beside a mutator, which is told and asked one line after another.
//!
//! The lines of a row: `path KEYS` declares the path of these keys, numbers from 0; `before OPERATION` is a call of the
//! mutator while no cycle marks, in the texts of a workload, with `k` and its number for a key. `begin BUDGET` says how
//! many cells the pause makes black with which the cycle begins. `beside OPERATION` is a call of the part after it, in
//! which `drain BUDGET` is a drain of the visitor; `hold POINT until POINT` holds one until the other has come to a
//! point, as the README of `check_heap` says; the visitor's number is 16, and it is at `call 1` once it has stopped.
//! `look POINT WORD` looks at a word when one comes to a point for the first time, as `look 0 nuked 2 structure 2` or
//! `look 0 linked 1 slot 1.0`. Then
//!
//! - `apart CALLS` and `together CALLS` run all this, with so many calls of that part: one after the other, the mutator
//!   first, or in two threads. They are answered with how each drain ended, and how many visits there were then;
//! - `note` is answered with the visits that the visitor's note tells, whether it tells that the part is done, and how
//!   many races the visitor told; `held` with the numbers of the holds that were kept, from 0;
//! - `seen NUMBER` is answered with what that look found, from 0, or `not met`;
//! - `colour CELL` is answered with the colour of a cell once both have stopped, `cells REGION` with the cells whose
//!   bits are set in a region that has a word for each block, and any other word as `check_heap` names it with what it
//!   is then;
//! - `pause BUDGET` pauses over a copy of the words, as the freeze does that follows, and is answered with how that
//!   ended. The words that are asked for behind it are those after it.

use crate::drains::copying::{cells_in, colour_in, cycle_in, pause_copy};
use crate::drains::parts::Drain;
use crate::drains::plan::Plan;
use crate::drains::running::{DrainRun, run};
use crate::drains::seen::colour_text as text_of_colour;
use check_heap::{joined, number, number_between, numbers_text, region_of, text};
use std::alloc::{AllocError, Global};
use std::marker::Sync;
use std::thread::Threads;
use tide_heap::Solved;
use tide_visitor::Drained;

/// What is to be run, and what was left once it was.
#[derive(Drop)]
pub struct Trial {
    plan: Plan,
    ran: Option<DrainRun>,
}

/// How drains ended.
fn drains_text(alloc: Global, drains: &[Drain]) -> Result<String, AllocError> {
    let mut all = String::new(alloc);
    for drain in drains {
        if !all.as_str().is_empty() {
            all.push_str(", ")?;
        }
        let ended = match drain.ended {
            Drained::Empty => "empty ",
            Drained::Budget => "budget ",
        };
        let one = number_between(alloc, ended, u64::from(drain.visits), "")?;
        all.push_str(one.as_str())?;
    }
    Ok(all)
}

/// What the note of the visitor told, and how many races it met.
fn note_text(alloc: Global, ran: &DrainRun) -> Result<String, AllocError> {
    let done = if ran.told.is_done {
        " visits, done, "
    } else {
        " visits, not done, "
    };
    let visits = number_between(alloc, "", u64::from(ran.told.visits), done)?;
    let deferred = number_between(alloc, "", u64::from(ran.told.deferred), " deferred")?;
    joined(alloc, &[visits.as_str(), deferred.as_str()])
}

/// How a pause ended.
fn solved_text(alloc: Global, solved: Solved) -> Result<String, AllocError> {
    match solved {
        Solved::Converged { visits } => number_between(alloc, "converged ", u64::from(visits), ""),
        Solved::More { visits } => number_between(alloc, "more ", u64::from(visits), ""),
    }
}

/// Pauses over what was left, and answers how that ended.
fn pause_text(
    alloc: Global,
    ran: &mut DrainRun,
    budget: &str,
) -> Result<Option<String>, AllocError> {
    let Some(budget) = number(budget) else {
        return Ok(None);
    };
    match pause_copy(alloc, &mut ran.words, budget)? {
        Some(solved) => Ok(Some(solved_text(alloc, solved)?)),
        None => Ok(None),
    }
}

/// How a cell is marked.
fn colour_text(
    alloc: Global,
    ran: &mut DrainRun,
    cell: &str,
) -> Result<Option<String>, AllocError> {
    let Some(cell) = number(cell) else {
        return Ok(None);
    };
    let colour = colour_in(&mut ran.words, cell);
    Ok(Some(text_of_colour(alloc, colour)?))
}

/// The cells whose bits are set in a region.
fn cells_text(
    alloc: Global,
    ran: &mut DrainRun,
    region: &str,
) -> Result<Option<String>, AllocError> {
    let Some(region) = region_of(region) else {
        return Ok(None);
    };
    let cells = cells_in(alloc, &mut ran.words, region)?;
    Ok(Some(numbers_text(alloc, cells.as_slice())?))
}

/// What is asked of what was left.
fn told_of(
    alloc: Global,
    ran: &mut DrainRun,
    words: &[&str],
) -> Result<Option<String>, AllocError> {
    match words {
        ["note"] => Ok(Some(note_text(alloc, ran)?)),
        ["pause", budget] => pause_text(alloc, ran, budget),
        ["colour", cell] => colour_text(alloc, ran, cell),
        ["cells", region] => cells_text(alloc, ran, region),
        [what, at] => ran.words.word_text(alloc, what, at),
        _ => Ok(None),
    }
}

impl Trial {
    /// Before the first line of a row.
    pub fn begin(alloc: Global) -> Result<Trial, AllocError> {
        Ok(Trial {
            plan: Plan::new(alloc)?,
            ran: None,
        })
    }

    /// Runs the plan, and answers how each drain ended.
    fn run<R: Threads + Sync>(
        &mut self,
        rt: &R,
        alloc: Global,
        calls: &str,
        is_together: bool,
    ) -> Result<Option<String>, AllocError> {
        let Some(calls) = number(calls) else {
            return Ok(None);
        };
        let Some(ran) = run(rt, alloc, &self.plan, calls, is_together)? else {
            return Ok(None);
        };
        let answer = match &ran.told.drains {
            Ok(drains) => drains_text(alloc, drains.as_slice())?,
            Err(_) => return Err(AllocError),
        };
        self.ran = Some(ran);
        Ok(Some(self.plan.holds.answered(alloc, answer)?))
    }

    /// What the look of a number found.
    fn seen(&mut self, alloc: Global, which: &str) -> Result<Option<String>, AllocError> {
        let (Some(ran), Some(which)) = (&mut self.ran, number(which)) else {
            return Ok(None);
        };
        let cycle = cycle_in(&mut ran.words);
        self.plan.looks.found_text(alloc, which, cycle)
    }

    /// What is asked once the plan was run.
    fn told(&mut self, alloc: Global, words: &[&str]) -> Result<Option<String>, AllocError> {
        match &mut self.ran {
            Some(ran) => told_of(alloc, ran, words),
            None => Ok(None),
        }
    }

    /// Does what the words of a line say, and answers it.
    pub fn answer<R: Threads + Sync>(
        &mut self,
        rt: &R,
        alloc: Global,
        words: &[&str],
    ) -> Result<Option<String>, AllocError> {
        if self.plan.take(alloc, words)?.is_some() {
            return Ok(Some(text(alloc, "")?));
        }
        match words {
            ["apart", calls] => self.run(rt, alloc, calls, false),
            ["together", calls] => self.run(rt, alloc, calls, true),
            ["held"] => Ok(Some(self.plan.holds.kept_text(alloc)?)),
            ["seen", which] => self.seen(alloc, which),
            _ => self.told(alloc, words),
        }
    }
}
