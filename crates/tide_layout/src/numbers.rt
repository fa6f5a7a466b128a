//! The numbers that a layout is made of, and the sizes that follow from them. It knows no place of a word.
ghost use Rattle.std.specs.Prelude.{◌≡◌, ◌*◌, ◌+◌, ◌<◌, ◌≤◌, map, sum};
ghost use Rattle.tide_model.specs.Layout.{array_count, cell_count};
ghost use Rattle.tide_layout.specs.Layout.{layout_of};
ghost use Rattle.tide_layout.specs.Limits.{HasFewBlocks};
ghost use Rattle.tide_layout.specs.Region.{block_count, gap, gaps_before, regions, room_of, size_of};
ghost use Rattle.tide_layout.specs.Slots.{words_among, words_before_array, words_before_cell};

use crate::region::Region;
use crate::sizes::{BLOCK_SIZE, GAP, width};

/// The numbers that a layout is made of.
#[derive(Clone, Copy, Debug, PartialEq, Eq)]
pub(crate) struct Numbers {
    pub(crate) cell_blocks: [u32; 5],
    pub(crate) array_blocks: [u32; 5],
    pub(crate) registers: u8,
    pub(crate) strong: u16,
    pub(crate) weak: u16,
    pub(crate) mutators: u8,
    pub(crate) visitors: u8,
}

/// How many blocks five classes have together.
fn blocks_of_all(blocks: &[u32; 5]) -> u32
    requires few { HasFewBlocks blocks.now }
    ensures count { result ≡ sum blocks.now }
    ensures small { result ≤ 1310720 }
{
    let mut count = 0;
    for of_class in blocks {
        count += *of_class;
    }
    count
}

/// How many words the first ids of five classes from `first` on have together.
pub(crate) fn words_among(blocks: &[u32; 5], first: u8, ids: u32) -> u32
    requires few_blocks { HasFewBlocks blocks.now }
    requires few { first ≤ 5 }
    requires within { ids ≤ 64 * sum blocks.now }
    ensures words { result ≡ words_among blocks.now first ids }
    ensures small { result ≤ 2080374784 }
{
    let mut rest = ids;
    let mut words = 0;
    for class in 0u8..5 {
        let of_class = rest.min(BLOCK_SIZE * blocks[usize::from(class)]);
        words += of_class * u32::from(width(first + class));
        rest -= of_class;
    }
    words
}

/// How many words a region takes that has so many, in rows of so many participants: a gap lies behind each row, and one
/// behind the region.
fn room(words: u32, owners: u32) -> u32
    requires few_words { words ≤ 2080374784 }
    requires few_owners { owners ≤ 510 }
    ensures { result ≡ words + gap * (owners + 1) }
{
    words + GAP * (owners + 1)
}

impl Numbers {
    /// How many cells there are.
    pub(crate) fn cells(&self) -> u32
        requires { HasFewBlocks self.now.cell_blocks }
        ensures count { result ≡ cell_count (layout_of self.now) }
        ensures small { result ≤ 83886080 }
    {
        BLOCK_SIZE * blocks_of_all(&self.cell_blocks)
    }

    /// How many arrays there are.
    pub(crate) fn arrays(&self) -> u32
        requires { HasFewBlocks self.now.array_blocks }
        ensures count { result ≡ array_count (layout_of self.now) }
        ensures small { result ≤ 83886080 }
    {
        BLOCK_SIZE * blocks_of_all(&self.array_blocks)
    }

    /// How many blocks there are.
    pub(crate) fn block_count(&self) -> u32
        requires few_cells { HasFewBlocks self.now.cell_blocks }
        requires few_arrays { HasFewBlocks self.now.array_blocks }
        ensures count { result ≡ block_count (layout_of self.now) }
        ensures small { result ≤ 2621440 }
    {
        blocks_of_all(&self.cell_blocks) + blocks_of_all(&self.array_blocks)
    }

    /// How many words the slots and pairs of the cells before this one take.
    pub(crate) fn words_before_cell(&self, cell: u32) -> u32
        requires within { cell ≤ cell_count (layout_of self.now) }
        requires few { HasFewBlocks self.now.cell_blocks }
        ensures words { result ≡ words_before_cell (layout_of self.now) cell }
        ensures small { result ≤ 2080374784 }
    {
        words_among(&self.cell_blocks, 0, cell)
    }

    /// How many words the elements of the arrays before this one take.
    pub(crate) fn words_before_array(&self, array: u32) -> u32
        requires within { array ≤ array_count (layout_of self.now) }
        requires few { HasFewBlocks self.now.array_blocks }
        ensures words { result ≡ words_before_array (layout_of self.now) array }
        ensures small { result ≤ 2080374784 }
    {
        words_among(&self.array_blocks, 5, array)
    }

    /// How many gaps lie before a region's word: as many as there are participants before its owner.
    pub(crate) fn gaps_before(&self, region: Region, index: u32) -> u32
        requires within { index < size_of (layout_of self.now) region }
        ensures { result ≡ gaps_before (layout_of self.now) region index }
    {
        match region {
            Region::Active | Region::Call | Region::Stopped => index,
            Region::Registers => index / u32::from(self.registers),
            _ => 0,
        }
    }

    /// How many words each region takes, in the order of the regions.
    pub(crate) fn rooms(&self) -> [u32; 22]
        requires few_cells { HasFewBlocks self.now.cell_blocks }
        requires few_arrays { HasFewBlocks self.now.array_blocks }
        ensures { result ≡ map (room_of (layout_of self.now)) regions }
    {
        let mutators = u32::from(self.mutators);
        let participants = mutators + u32::from(self.visitors);
        let cells = self.cells();
        let cell_blocks = blocks_of_all(&self.cell_blocks);
        let blocks = self.block_count();
        [
            room(1, 0), // Period
            room(1, 0), // Phase
            room(1, 0), // Base
            room(mutators, mutators), // Active
            room(mutators, mutators), // Call
            room(participants, participants), // Stopped
            room(mutators * u32::from(self.registers), mutators), // Registers
            room(u32::from(self.strong), 0), // Strong
            room(u32::from(self.weak), 0), // Weak
            room(cells, 0), // Colour
            room(cells, 0), // Structure
            room(cells, 0), // Array
            room(cells, 0), // Claim
            room(cells, 0), // Group
            room(self.words_before_cell(cells), 0), // Slots
            room(self.words_before_array(self.arrays()), 0), // Elements
            room(blocks, 0), // Free
            room(blocks, 0), // Dead
            room(cell_blocks, 0), // GreyShared
            room(cell_blocks, 0), // GreyMutator
            room(cell_blocks, 0), // GreyRace
            room(blocks, 0), // Swept
        ]
    }
}
