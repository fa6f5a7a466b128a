//! The words of a heap, each of which can be written wherever the layout has one. Nothing is written elsewhere.
ghost use Rattle.std.specs.Prelude.{◌≡◌, ◌<◌, length};
ghost use Rattle.tide_words.specs.tide_layout.Region.{word_count};

use crate::places::{place_of_element, place_of_slot, place_of_word};
use std::alloc::{AllocError, Global};
use tide_words::{
    Layout, Region, Structure, VecWords, Words, bit_of, block_of_array, block_of_cell,
    structure_word,
};

/// No check says a heap that has more cells, nor a key of a pair from there on: as many as a workload's heap has.
pub const MOST_CELLS: u32 = 20_480;

/// The words of a heap, and where they lie.
#[derive(Drop)]
pub struct Heap {
    pub layout: Layout,
    pub words: VecWords,
    ghost all_words: { length words ≡ word_count layout },
}

impl Heap {
    /// The empty heap of a layout.
    pub fn new(alloc: Global, layout: Layout) -> Result<Self, AllocError> {
        match VecWords::new(alloc, &layout) {
            Ok(words) => Ok(Heap { layout, words }),
            Err(_) => Err(AllocError),
        }
    }

    /// Puts a word into a region.
    pub fn set(&mut self, region: Region, index: u32, word: u64) {
        if let Some(at) = place_of_word(&self.layout, region, index) {
            self.words.store(at, word);
        }
    }

    /// A word of a region, and 0 where there is none.
    pub fn get(&mut self, region: Region, index: u32) -> u64 {
        match place_of_word(&self.layout, region, index) {
            Some(at) => self.words.load(at),
            None => 0,
        }
    }

    /// Puts a word into a slot of a cell, or into a place of a table.
    pub fn set_slot(&mut self, cell: u32, slot: u8, word: u64) {
        if let Some(at) = place_of_slot(&self.layout, cell, slot) {
            self.words.store(at, word);
        }
    }

    /// The word in a slot of a cell or in a place of a table, and 0 where there is none.
    pub fn slot(&mut self, cell: u32, slot: u8) -> u64 {
        match place_of_slot(&self.layout, cell, slot) {
            Some(at) => self.words.load(at),
            None => 0,
        }
    }

    /// Puts a word into an element of an array.
    pub fn set_element(&mut self, array: u32, place: u8, word: u64) {
        if let Some(at) = place_of_element(&self.layout, array, place) {
            self.words.store(at, word);
        }
    }

    /// The word in an element of an array, and 0 where there is none.
    pub fn element(&mut self, array: u32, place: u8) -> u64 {
        match place_of_element(&self.layout, array, place) {
            Some(at) => self.words.load(at),
            None => 0,
        }
    }

    /// Puts a word into a register of a mutator.
    pub fn set_register(&mut self, who: u32, register: u8, word: u64) {
        let registers = self.layout.registers();
        if who < u32::from(self.layout.mutators()) && register < registers {
            let index = who * u32::from(registers) + u32::from(register);
            self.set(Region::Registers, index, word);
        }
    }

    /// Takes a bit out of the free word of a block.
    fn take(&mut self, block: u32, bit: u32)
        requires { bit < 64 }
    {
        let free = self.get(Region::Free, block);
        self.set(Region::Free, block, free & !(1 << bit));
    }

    /// Takes a cell.
    pub fn take_cell(&mut self, cell: u32) {
        if cell < self.layout.cells() {
            self.take(block_of_cell(cell), bit_of(cell));
        }
    }

    /// Takes a cell, and lets it be dead.
    pub fn kill_cell(&mut self, cell: u32) {
        self.take_cell(cell);
        if cell < self.layout.cells() {
            let dead = self.get(Region::Dead, block_of_cell(cell));
            let bit = 1 << bit_of(cell);
            self.set(Region::Dead, block_of_cell(cell), dead | bit);
        }
    }

    /// Takes an array, gives it to a cell, and writes the shape and the number of properties, which are the same where
    /// the shapes are those of one path.
    pub fn set_properties(&mut self, cell: u32, array: u32, count: u32) {
        if array < self.layout.arrays() {
            let block = block_of_array(&self.layout, array);
            self.take(block, bit_of(array));
        }
        let structure = Structure {
            shape: count,
            count: count.min(64),
            nuked: false,
        };
        self.set(Region::Structure, cell, structure_word(structure));
        self.set(Region::Array, cell, u64::from(array) + 1);
    }
}
