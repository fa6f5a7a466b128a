//! `Layout`: how large a heap is, and the place of each of its words. It knows no word.
ghost use Rattle.std.specs.Prelude.{◌≡◌, ◌≤◌, ℕ, slice_index, sum, take};
ghost use Rattle.tide_layout.specs.Limits.{most_words};

use crate::firsts::{Firsts, firsts_of};
use crate::numbers::Numbers;
use crate::region::Region;
use crate::sizes::{GAP, width};
use std::marker::Model;

/// How large a heap is: its blocks of each class, its registers and handles, and who takes part.
#[derive(Clone, Copy, Debug, PartialEq, Eq)]
pub struct Layout {
    numbers: Numbers,
    /// Where each region begins, and last where all of them end.
    starts: [u32; 23],
    /// How many cells there are, and how many arrays: both are asked for often.
    cells: u32,
    arrays: u32,
    /// Where each class begins, of cells and of arrays.
    cell_firsts: Firsts,
    array_firsts: Firsts,
}

impl Model for Layout {
    ghost use Rattle.tide_model.specs.Layout.{array_count, cell_count, Layout as PlainLayout};

    ghost Value = { PlainLayout };

    ghost use Rattle.tide_layout.specs.Firsts.{firsts_of};
    ghost use Rattle.tide_layout.specs.Layout.{layout_of, starts_of, IsLaidOut};

    ghost view = { λ l. layout_of l.numbers };

    ghost invariant = { λ l. IsLaidOut (layout_of l.numbers) l.starts l.cells l.arrays l.cell_firsts l.array_firsts };

    ghost inverse = { λ v. record {
      numbers = record {
        cell_blocks = v.cell_blocks;
        array_blocks = v.array_blocks;
        registers = v.registers;
        strong = v.strong;
        weak = v.weak;
        mutators = v.mutators;
        visitors = v.visitors;
      };
      starts = starts_of v;
      cells = cell_count v;
      arrays = array_count v;
      cell_firsts = firsts_of v.cell_blocks 0;
      array_firsts = firsts_of v.array_blocks 5;
    } };

    ghost use Rattle.std.proofs.Common.{sym};

    ghost inverse_ok = { λ a h i. record {
      numbers = a.numbers;
      starts = sym h.begins i;
      cells = sym h.all_cells i;
      arrays = sym h.all_arrays i;
      cell_firsts = sym h.of_cells i;
      array_firsts = sym h.of_arrays i;
    } };
}

/// The same numbers, with room for larger ones.
fn wide(blocks: [u8; 5]) -> [u32; 5]
    ensures { result ≡ blocks }
{
    [
        u32::from(blocks[0]),
        u32::from(blocks[1]),
        u32::from(blocks[2]),
        u32::from(blocks[3]),
        u32::from(blocks[4]),
    ]
}

/// Where each of some regions begins that take so many words, and last where all of them end.
fn starts_of(rooms: &[u32; 22]) -> [u32; 23]
    requires { sum rooms.now ≤ most_words }
    ensures { (k : ℕ) → k ≤ 22 → slice_index result k ≡ sum (take k rooms.now) }
{
    let mut starts = [0; 23];
    for tag in 0..22 {
        starts[tag + 1] = starts[tag] + rooms[tag];
    }
    starts
}

impl Layout {
    ghost use Rattle.std.specs.Prelude.{◌≡◌, ◌≢◌, ◌<◌, ◌≤◌, All, ℕ};
    ghost use Rattle.tide_model.specs.Layout.{array_count, blocks_of, cell_count, class_of, class_of_array};
    ghost use Rattle.tide_layout.specs.Limits.{most_blocks, most_cells, most_words, HasFewBlocks, IsWithinLimits};
    ghost use Rattle.tide_layout.specs.Region.{AreApart, block_count, index_of_register, owner_of, place_in};
    ghost use Rattle.tide_layout.specs.Region.{place_of_element, place_of_slot, size_of, word_count};
    ghost use Rattle.tide_layout.specs.Slots.{index_of_element, index_of_slot, width_of_array, width_of_cell, HasElement, HasSlot};
    ghost use Rattle.tide_layout.specs.declared.region.Region.{Region};
    ghost use Rattle.tide_layout.specs.declared.region.Region.TheVariants.{Registers};

    /// A layout of these numbers: at most 64 blocks of each class, 16 registers, 256 strong and 256 weak handles, 16
    /// mutators and 8 visitors.
    ///
    /// `blocks` are those of cells, of the classes 0 to 4, and `arrays` those of arrays, of the classes 5 to 9.
    pub fn new(
        blocks: [u8; 5],
        arrays: [u8; 5],
        registers: u8,
        strong: u16,
        weak: u16,
        mutators: u8,
        visitors: u8,
    ) -> Layout
        requires few_blocks { All (λ count. count ≤ 64) blocks }
        requires few_arrays { All (λ count. count ≤ 64) arrays }
        requires few_registers { registers ≤ 16 }
        requires few_strong { strong ≤ 256 }
        requires few_weak { weak ≤ 256 }
        requires few_mutators { mutators ≤ 16 }
        requires few_visitors { visitors ≤ 8 }
        ensures layout { result ≡ record {
          cell_blocks = blocks;
          array_blocks = arrays;
          registers = registers;
          strong = strong;
          weak = weak;
          mutators = mutators;
          visitors = visitors;
        } }
        ensures limits { IsWithinLimits result }
    {
        Layout::large(
            wide(blocks),
            wide(arrays),
            registers,
            strong,
            weak,
            mutators,
            visitors,
        )
    }

    /// A layout of these numbers: at most 262,144 blocks of each class, 250 registers, 65,535 strong and as many weak
    /// handles, 16 mutators and 8 visitors. `blocks` and `arrays` are those of `new`.
    pub fn large(
        blocks: [u32; 5],
        arrays: [u32; 5],
        registers: u8,
        strong: u16,
        weak: u16,
        mutators: u8,
        visitors: u8,
    ) -> Layout
        requires few_blocks { HasFewBlocks blocks }
        requires few_arrays { HasFewBlocks arrays }
        requires few_registers { registers ≤ 250 }
        requires few_mutators { mutators ≤ 16 }
        requires few_visitors { visitors ≤ 8 }
        ensures layout { result ≡ record {
          cell_blocks = blocks;
          array_blocks = arrays;
          registers = registers;
          strong = strong;
          weak = weak;
          mutators = mutators;
          visitors = visitors;
        } }
        ensures limits { IsWithinLimits result }
    {
        let numbers = Numbers {
            cell_blocks: blocks,
            array_blocks: arrays,
            registers,
            strong,
            weak,
            mutators,
            visitors,
        };
        let starts = starts_of(&numbers.rooms());
        Layout {
            numbers,
            starts,
            cells: numbers.cells(),
            arrays: numbers.arrays(),
            cell_firsts: firsts_of(&blocks, 0),
            array_firsts: firsts_of(&arrays, 5),
        }
    }

    /// How many cells there are.
    pub fn cells(&self) -> u32
        ensures count { result ≡ cell_count self.now }
        ensures few { result ≤ most_cells }
        ensures limits { IsWithinLimits self.now }
    {
        self.cells
    }

    /// How many arrays there are.
    pub fn arrays(&self) -> u32
        ensures count { result ≡ array_count self.now }
        ensures few { result ≤ most_cells }
        ensures limits { IsWithinLimits self.now }
    {
        self.arrays
    }

    /// How many blocks there are: those of cells, and then those of arrays.
    pub fn block_count(&self) -> u32
        ensures count { result ≡ block_count self.now }
        ensures few { result ≤ 2621440 }
        ensures limits { IsWithinLimits self.now }
    {
        self.numbers.block_count()
    }

    /// How many blocks a class has, the classes 0 to 4 being those of cells and 5 to 9 those of arrays.
    pub fn blocks(&self, class: u8) -> u32
        requires { class < 10 }
        ensures count { result ≡ blocks_of self.now class }
        ensures few { result ≤ most_blocks }
        ensures limits { IsWithinLimits self.now }
    {
        if class < 5 {
            self.numbers.cell_blocks[usize::from(class)]
        } else {
            self.numbers.array_blocks[usize::from(class - 5)]
        }
    }

    /// How many registers each mutator has.
    pub fn registers(&self) -> u8
        ensures count { result ≡ self.now.registers }
        ensures limits { IsWithinLimits self.now }
    {
        self.numbers.registers
    }

    /// How many strong handles there are.
    pub fn strong(&self) -> u16
        ensures count { result ≡ self.now.strong }
        ensures limits { IsWithinLimits self.now }
    {
        self.numbers.strong
    }

    /// How many weak handles there are.
    pub fn weak(&self) -> u16
        ensures count { result ≡ self.now.weak }
        ensures limits { IsWithinLimits self.now }
    {
        self.numbers.weak
    }

    /// How many mutators take part.
    pub fn mutators(&self) -> u8
        ensures count { result ≡ self.now.mutators }
        ensures limits { IsWithinLimits self.now }
    {
        self.numbers.mutators
    }

    /// How many visitors take part.
    pub fn visitors(&self) -> u8
        ensures count { result ≡ self.now.visitors }
        ensures limits { IsWithinLimits self.now }
    {
        self.numbers.visitors
    }

    /// How many words there are, with those in the gaps.
    pub fn words(&self) -> usize
        ensures words { result ≡ word_count self.now }
        ensures few { result ≤ most_words }
    {
        self.starts[22] as usize
    }

    /// The place of a region's word. No other word has it, and no 64 bytes hold it and a word of another owner.
    pub fn place(&self, region: Region, index: u32) -> usize
        requires { index < size_of self.now region }
        ensures place { result ≡ place_in self.now region index }
        ensures within { result < word_count self.now }
        ensures alone { (other : Region) (at : ℕ) → at < size_of self.now other →
            place_in self.now other at ≡ result → (other ≡ region) × (at ≡ index) }
        ensures apart { (other : Region) (at : ℕ) → at < size_of self.now other →
            owner_of self.now other at ≢ owner_of self.now region index → AreApart (place_in self.now other at) result }
    {
        let gaps = self.numbers.gaps_before(region, index);
        self.starts[usize::from(region.tag())] as usize + (index + GAP * gaps) as usize
    }

    /// The place of a mutator's register.
    pub fn register(&self, mutator: u32, register: u8) -> usize
        requires in_mutators { mutator < self.now.mutators }
        requires in_registers { register < self.now.registers }
        ensures place { result ≡ place_in self.now Registers (index_of_register self.now mutator register) }
        ensures within { result < word_count self.now }
    {
        let row = u32::from(self.numbers.registers) + GAP;
        self.starts[usize::from(Region::Registers.tag())] as usize
            + (mutator * row + u32::from(register)) as usize
    }

    /// The class of a cell, from 0 to 4.
    pub fn class_of(&self, cell: u32) -> u8
        requires { cell < cell_count self.now }
        ensures class { result ≡ class_of self.now cell }
        ensures small { result < 5 }
    {
        self.cell_firsts.class_of(cell)
    }

    /// The class of an array, from 5 to 9.
    pub fn class_of_array(&self, array: u32) -> u8
        requires { array < array_count self.now }
        ensures class { result ≡ class_of_array self.now array }
        ensures large { 5 ≤ result }
        ensures small { result < 10 }
    {
        5 + self.array_firsts.class_of(array)
    }

    /// Where among the words of all cells a slot lies.
    fn index_of_slot(&self, cell: u32, k: u8) -> u32
        requires { HasSlot self.now cell k }
        ensures { result ≡ index_of_slot self.now cell k }
    {
        let class = self.cell_firsts.class_of(cell);
        let at = usize::from(class);
        let before = (cell - self.cell_firsts.ids[at]) * u32::from(width(class));
        self.cell_firsts.words[at] + before + u32::from(k)
    }

    /// Where among the words of all arrays an element lies.
    fn index_of_element(&self, array: u32, k: u8) -> u32
        requires { HasElement self.now array k }
        ensures { result ≡ index_of_element self.now array k }
    {
        let class = self.array_firsts.class_of(array);
        let at = usize::from(class);
        let before = (array - self.array_firsts.ids[at]) * u32::from(width(5 + class));
        self.array_firsts.words[at] + before + u32::from(k)
    }

    /// The place of a cell's slot, or of a table's pair. No other slot or pair has it.
    pub fn slot(&self, cell: u32, k: u8) -> usize
        requires { HasSlot self.now cell k }
        ensures place { result ≡ place_of_slot self.now cell k }
        ensures within { result < word_count self.now }
        ensures alone { (other at : ℕ) → at < width_of_cell self.now other →
            place_of_slot self.now other at ≡ result → (other ≡ cell) × (at ≡ k) }
    {
        self.place(Region::Slots, self.index_of_slot(cell, k))
    }

    /// The place of an array's element. No other element has it.
    pub fn element(&self, array: u32, k: u8) -> usize
        requires { HasElement self.now array k }
        ensures place { result ≡ place_of_element self.now array k }
        ensures within { result < word_count self.now }
        ensures alone { (other at : ℕ) → at < width_of_array self.now other →
            place_of_element self.now other at ≡ result → (other ≡ array) × (at ≡ k) }
    {
        self.place(Region::Elements, self.index_of_element(array, k))
    }
}
