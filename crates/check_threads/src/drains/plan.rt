//! What a row says is to be run. It runs nothing.

use crate::drains::looks::{Looks, Watch};
use check_heap::{Holds, number, numbers};
use check_words::{numbered_keys, op_in};
use embed_heap::layout;
use std::alloc::{AllocError, Global};
use tide_model::Op;
use tide_shape::Shapes;
use tide_table::Heap;
use tide_text::Keys;

/// What a mutator and a visitor are to do.
#[derive(Drop)]
pub struct Plan {
    keys: Keys,
    /// The keys of each declared path.
    pub paths: Vec<Vec<u32>>,
    /// The mutator's calls in the first part, in which no cycle marks.
    pub before: Vec<Op>,
    /// Its calls in the second part, in which the visitor drains.
    pub beside: Vec<Op>,
    /// How many cells the pause makes black with which the cycle begins.
    pub budget: u32,
    /// How many visits each drain makes at most.
    pub drains: Vec<u32>,
    pub holds: Holds,
    pub looks: Looks,
}

impl Plan {
    /// Nothing to do.
    pub fn new(alloc: Global) -> Result<Plan, AllocError> {
        Ok(Plan {
            keys: numbered_keys(alloc)?,
            paths: Vec::new(alloc),
            before: Vec::new(alloc),
            beside: Vec::new(alloc),
            budget: 0,
            drains: Vec::new(alloc),
            holds: Holds::none(alloc),
            looks: Looks::none(alloc),
        })
    }

    /// The operation that words say.
    fn op(&self, alloc: Global, words: &[&str]) -> Result<Option<Op>, AllocError> {
        op_in(alloc, &layout(), &self.keys, words)
    }

    /// Takes a call of the first part.
    fn add_before(&mut self, alloc: Global, words: &[&str]) -> Result<Option<()>, AllocError> {
        match self.op(alloc, words)? {
            Some(op) => Ok(Some(self.before.push(op)?)),
            None => Ok(None),
        }
    }

    /// Takes a call of the second part.
    fn add_beside(&mut self, alloc: Global, words: &[&str]) -> Result<Option<()>, AllocError> {
        match self.op(alloc, words)? {
            Some(op) => Ok(Some(self.beside.push(op)?)),
            None => Ok(None),
        }
    }

    /// Takes a declared path.
    fn add_path(&mut self, alloc: Global, keys: &[&str]) -> Result<Option<()>, AllocError> {
        match numbers(alloc, keys)? {
            Some(keys) => Ok(Some(self.paths.push(keys)?)),
            None => Ok(None),
        }
    }

    /// Takes the budget of a drain.
    fn add_drain(&mut self, budget: &str) -> Result<Option<()>, AllocError> {
        match number(budget) {
            Some(budget) => Ok(Some(self.drains.push(budget)?)),
            None => Ok(None),
        }
    }

    /// Takes the budget of the first pause.
    fn set_budget(&mut self, budget: &str) -> Option<()> {
        self.budget = number(budget)?;
        Some(())
    }

    /// The turnstile of the second part.
    pub fn turnstile<'a>(&'a self, heap: &'a Heap<Shapes>) -> Watch<'a> {
        Watch {
            heap,
            looks: &self.looks,
            holds: &self.holds,
        }
    }

    /// Takes what the words of a line say. `None` where they say nothing of a plan.
    pub fn take(&mut self, alloc: Global, words: &[&str]) -> Result<Option<()>, AllocError> {
        match words {
            ["path", keys @ ..] => self.add_path(alloc, keys),
            ["before", op @ ..] => self.add_before(alloc, op),
            ["beside", op @ ..] => self.add_beside(alloc, op),
            ["begin", budget] => Ok(self.set_budget(budget)),
            ["drain", budget] => self.add_drain(budget),
            ["hold", hold @ ..] => self.holds.add(hold),
            ["look", look @ ..] => self.looks.add(look),
            _ => Ok(None),
        }
    }
}
