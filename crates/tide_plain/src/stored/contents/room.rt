//! Room: the free cells and arrays of a class, and how many things are live and free.
ghost use Rattle.std.specs.Prelude.{◌≡◌, ◌<◌, ◌≤◌, ℕ, IfSome, IfNone};

use crate::statuses::ArrayStatus;
use crate::stored::contents::Contents;
use tide_block::{class_of, class_of_array, first_array_of, first_of};
use tide_layout::BLOCK_SIZE;

impl Contents {
    ghost use Rattle.tide_model.specs.Answer.{IsFreeArrayOf, IsFreeCellOf};
    ghost use Rattle.tide_model.specs.Cycle.{live_count};
    ghost use Rattle.tide_model.specs.Layout.{array_count, cell_count, IsBlockOf};
    ghost use Rattle.tide_model.specs.Room.{IsFullBlock};
    ghost use Rattle.tide_plain.specs.stored.Contents.{state_of};
    ghost use Rattle.tide_plain.specs.stored.Counting.{free_arrays, free_cells, free_count};

    /// The free cell of a class from 0 to 4 with the lowest id.
    pub fn free_cell_of(&self, class: u8) -> Option<u32>
        requires { class < 5 }
        ensures free { IfSome result (λ cell. IsFreeCellOf self.now.layout (state_of self.now) class cell) }
        ensures within { IfSome result (λ cell. cell < cell_count self.now.layout) }
        ensures lowest { IfSome result (λ cell. (other : ℕ) →
            IsFreeCellOf self.now.layout (state_of self.now) class other → cell ≤ other) }
        ensures full { IfNone result ((block : ℕ) → IsBlockOf self.now.layout class block →
            IsFullBlock self.now.layout (state_of self.now) block) }
    {
        let first = first_of(&self.layout, class);
        let end = first + BLOCK_SIZE * self.layout.blocks(class);
        self.cells.lowest_free(first, end)
    }

    /// The free array of a class from 5 to 9 with the lowest id.
    pub fn free_array_of(&self, class: u8) -> Option<u32>
        requires smallest { 5 ≤ class }
        requires largest { class < 10 }
        ensures free { IfSome result (λ array. IsFreeArrayOf self.now.layout (state_of self.now) class array) }
        ensures within { IfSome result (λ array. array < array_count self.now.layout) }
        ensures lowest { IfSome result (λ array. (other : ℕ) →
            IsFreeArrayOf self.now.layout (state_of self.now) class other → array ≤ other) }
        ensures full { IfNone result ((block : ℕ) → IsBlockOf self.now.layout class block →
            IsFullBlock self.now.layout (state_of self.now) block) }
    {
        let first = first_array_of(&self.layout, class);
        let end = first + BLOCK_SIZE * self.layout.blocks(class);
        (first..end).find(|array| self.arrays.status(*array) == ArrayStatus::Free)
    }

    /// How many cells are live.
    pub fn live(&self) -> u32
        ensures { result ≡ live_count self.now.layout (state_of self.now) }
    {
        let mut count = 0;
        for cell in 0..self.layout.cells() {
            if self.cells.is_live(cell) {
                count += 1;
            }
        }
        count
    }

    /// How many cells of a class from 0 to 4, or arrays of a class from 5 to 9, are free.
    pub fn free(&self, class: u8) -> u32
        requires { class < 10 }
        ensures { result ≡ free_count self.now.layout (state_of self.now) class }
    {
        if class < 5 {
            self.free_cells(class)
        } else {
            self.free_arrays(class)
        }
    }

    /// How many cells of a class are free.
    fn free_cells(&self, class: u8) -> u32
        ensures { result ≡ free_cells self.now.layout (state_of self.now) class }
    {
        let mut count = 0;
        for cell in 0..self.layout.cells() {
            if class_of(&self.layout, cell) == class && !self.cells.is_live(cell) {
                count += 1;
            }
        }
        count
    }

    /// How many arrays of a class are free.
    fn free_arrays(&self, class: u8) -> u32
        ensures { result ≡ free_arrays self.now.layout (state_of self.now) class }
    {
        let mut count = 0;
        for array in 0..self.layout.arrays() {
            let status = self.arrays.status(array);
            if class_of_array(&self.layout, array) == class && status == ArrayStatus::Free {
                count += 1;
            }
        }
        count
    }
}
