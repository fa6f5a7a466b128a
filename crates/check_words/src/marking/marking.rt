//! A heap while a cycle marks.
ghost use Rattle.std.specs.Prelude.{◌≡◌, ◌<◌};
ghost use Rattle.tide_model.specs.Layout.{cell_count};

use check_heap::Heap;
use std::alloc::{AllocError, Global};
use std::marker::Model;
use tide_ephemeron::Ephemerons;
use tide_groups::Groups;
use tide_layout::{Layout, Region};
use tide_roots::{Registers, Strong};
use tide_solver::{ConstraintSet, Solved, solve};
use tide_words::{Colour, GreyList, VecWords, Words, colour, is_marked, phase_word};

/// The cycle that marks.
const CYCLE: u64 = 1;

/// What marks beyond the links of marked cells.
const CONSTRAINTS: ConstraintSet<Registers, Strong, Ephemerons, Groups> = ConstraintSet {
    a: Registers,
    b: Strong,
    c: Ephemerons,
    d: Groups,
};

/// A heap in which a cycle marks, with the list of its grey cells.
#[derive(Drop)]
pub struct Marking {
    layout: Layout,
    words: VecWords,
    list: GreyList,
}

impl Model for Marking {
    ghost use Rattle.tide_solver.specs.Traced.{IsUnderway};

    ghost Value = { Unit {0} };

    ghost view = { λ _. tt };

    ghost invariant = { λ m. IsUnderway m.layout m.words m.list };
}

impl Marking {
    /// Begins to mark: no cell is grey yet.
    pub fn begin(alloc: Global, heap: Heap) -> Result<Self, AllocError> {
        let Heap { layout, mut words } = heap;
        words.store(layout.place(Region::Phase, 0), phase_word(CYCLE, true));
        match GreyList::new(alloc, layout.cells()) {
            Ok(list) => Ok(Marking {
                layout,
                words,
                list,
            }),
            Err(_) => Err(AllocError),
        }
    }

    /// How many cells there are.
    pub fn cells(&self) -> u32 {
        self.layout.cells()
    }

    /// Marks with the four constraints, within a budget of visits.
    pub fn solve(&mut self, budget: u32) -> Solved {
        solve(
            &mut self.words,
            &self.layout,
            &CONSTRAINTS,
            &mut self.list,
            budget,
        )
    }

    /// The colour of a cell, which is white where it is none of the layout.
    fn colour(&mut self, cell: u32) -> Colour {
        if cell >= self.layout.cells() || !is_marked(&mut self.words, &self.layout, cell) {
            return Colour::White;
        }
        let word = self.words.load(self.layout.place(Region::Colour, cell));
        colour(word, CYCLE)
    }

    /// The cells of a colour, in rising order.
    pub fn cells_of(&mut self, alloc: Global, colour: Colour) -> Result<Vec<u32>, AllocError> {
        let mut cells = Vec::new(alloc);
        for cell in 0..self.cells() {
            if self.colour(cell) == colour {
                cells.push(cell)?;
            }
        }
        Ok(cells)
    }
}
