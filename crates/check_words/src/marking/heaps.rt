//! Heaps that are told by facts, and then marked.
//!
//! The lines of a row: `layout ..` and the facts of `Heap::say`; then `solve BUDGET` is answered with `converged` or
//! `more` and the number of visits, and `black` and `grey` with the cells of that colour.

use crate::marking::marking::Marking;
use check_heap::{Answers, Heap, layout_of, number, number_between, numbers_text, text};
use std::alloc::{AllocError, Global};
use tide_solver::Solved;
use tide_words::Colour;

/// A heap until it is marked, and then its marking.
#[derive(Default, Drop)]
pub struct Marked {
    heap: Option<Heap>,
    marking: Option<Marking>,
}

/// What is answered of a line, or `None` where its words ask nothing that can be answered.
pub type Answer = Result<Option<String>, AllocError>;

/// A text as the answer of what was asked.
pub fn answered(text: Result<String, AllocError>) -> Answer {
    Ok(Some(text?))
}

/// Numbers as the answer of what was asked.
pub fn answered_numbers(alloc: Global, numbers: Result<Vec<u32>, AllocError>) -> Answer {
    answered(numbers_text(alloc, numbers?.as_slice()))
}

/// An empty text as the answer where something was done, and `None` where it wasn't.
pub fn nothing_if(alloc: Global, is_done: bool) -> Answer {
    if is_done {
        answered(text(alloc, ""))
    } else {
        Ok(None)
    }
}

/// Tells a heap what the words say: a layout, with which a new one begins, or a fact of it.
pub fn tell(alloc: Global, heap: &mut Option<Heap>, words: &[&str]) -> Answer {
    if let ["layout", layout @ ..] = words {
        let Some(layout) = layout_of(layout) else {
            return Ok(None);
        };
        *heap = Some(Heap::new(alloc, layout)?);
        return nothing_if(alloc, true);
    }
    match heap {
        Some(heap) => nothing_if(alloc, heap.say(words).is_some()),
        None => Ok(None),
    }
}

/// How marking ended.
pub fn solved_text(alloc: Global, solved: Solved) -> Result<String, AllocError> {
    match solved {
        Solved::Converged { visits } => number_between(alloc, "converged ", u64::from(visits), ""),
        Solved::More { visits } => number_between(alloc, "more ", u64::from(visits), ""),
    }
}

/// Marks within a budget, and tells how that ended.
fn solve(alloc: Global, marking: &mut Marking, budget: &str) -> Answer {
    match number(budget) {
        Some(budget) => answered(solved_text(alloc, marking.solve(budget))),
        None => Ok(None),
    }
}

/// What a marking tells.
fn told(alloc: Global, marking: &mut Marking, words: &[&str]) -> Answer {
    match words {
        ["solve", budget] => solve(alloc, marking, budget),
        ["black"] => answered_numbers(alloc, marking.cells_of(alloc, Colour::Black)),
        ["grey"] => answered_numbers(alloc, marking.cells_of(alloc, Colour::Grey)),
        _ => Ok(None),
    }
}

impl Marked {
    /// Begins the marking of the heap, and marks within a budget.
    fn begin_marking(&mut self, alloc: Global, budget: &str) -> Answer {
        let Some(heap) = self.heap.take() else {
            return Ok(None);
        };
        let mut marking = Marking::begin(alloc, heap)?;
        let answer = solve(alloc, &mut marking, budget)?;
        self.marking = Some(marking);
        Ok(answer)
    }
}

impl Answers for Marked {
    fn begin(_alloc: Global) -> Result<Self, AllocError> {
        Ok(Marked::default())
    }

    fn answer(&mut self, alloc: Global, words: &[&str]) -> Result<Option<String>, AllocError> {
        match (&mut self.marking, words) {
            (Some(marking), _) => told(alloc, marking, words),
            (None, ["solve", budget]) => self.begin_marking(alloc, budget),
            _ => tell(alloc, &mut self.heap, words),
        }
    }
}
