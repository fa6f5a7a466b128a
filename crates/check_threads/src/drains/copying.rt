//! A copy of words that stand still, its colours and grey cells, and a pause over it. What is copied stays as it is.
ghost use Rattle.std.specs.Prelude.{◌≡◌, ◌≤◌, [], length};
ghost use Rattle.tide_heap.specs.tide_layout.Region.{word_count};
ghost use Rattle.tide_model.specs.Layout.{cell_count};

use check_heap::Heap;
use std::alloc::{AllocError, Global};
use tide_heap::{
    Colour, GreyList, Layout, Region, Solved, Words, bit_of, block_of_cell, colour_word, pause,
    word_phase,
};

/// No cycle begins from this one on.
const LAST_CYCLE: u64 = 1 << 60;

/// Stores each word of some at its place among others.
fn copy_each<W: Words, V: Words>(from: &mut W, to: &mut V)
    ensures same { length (V.words to.new) ≡ length (V.words to.old) }
{
    let count = from.len().min(to.len());
    for at in 0..count {
        let word = from.load(at);
        to.store(at, word);
    }
}

/// A copy of the words of a layout.
pub fn copied<W: Words>(alloc: Global, words: &mut W, layout: &Layout) -> Result<Heap, AllocError> {
    let mut copy = Heap::new(alloc, *layout)?;
    copy_each(words, &mut copy.words);
    Ok(copy)
}

/// The cycle that began last in a copy.
pub fn cycle_in(copy: &mut Heap) -> u64 {
    let (cycle, _) = word_phase(copy.get(Region::Phase, 0));
    cycle
}

/// The colour of a cell in a copy, of the cycle that began last: white unless it is marked.
pub fn colour_in(copy: &mut Heap, cell: u32) -> Colour {
    let cycle = cycle_in(copy);
    let word = copy.get(Region::Colour, cell);
    if cycle >= LAST_CYCLE {
        return Colour::White;
    }
    if word == colour_word(cycle, Colour::Black) {
        return Colour::Black;
    }
    if word == colour_word(cycle, Colour::Grey) {
        return Colour::Grey;
    }
    Colour::White
}

/// The cells whose bits a copy has in the words of a region, which has one a block.
pub fn cells_in(alloc: Global, copy: &mut Heap, region: Region) -> Result<Vec<u32>, AllocError> {
    let mut cells = Vec::new(alloc);
    for cell in 0..copy.layout.cells() {
        let word = copy.get(region, block_of_cell(cell));
        if word >> bit_of(cell) & 1 == 1 {
            cells.push(cell)?;
        }
    }
    Ok(cells)
}

/// Pauses over words in which a cycle marks. `None` where none does.
fn pause_over<W: Words>(
    words: &mut W,
    layout: &Layout,
    list: &mut GreyList,
    budget: u32,
) -> Option<Solved>
    requires all_words { length (W.words words.old) ≡ word_count layout.now }
    requires empty { list.old.cells ≡ [] }
    requires room { cell_count layout.now ≤ list.old.cap }
    ensures all_words { length (W.words words.new) ≡ word_count layout.now }
    ensures same_list { list.new ≡ list.old }
{
    let (_, marks) = word_phase(words.load(layout.place(Region::Phase, 0)));
    if !marks {
        return None;
    }
    Some(pause(words, layout, list, budget))
}

/// Pauses over a copy. `None` where no cycle marks.
pub fn pause_copy(
    alloc: Global,
    copy: &mut Heap,
    budget: u32,
) -> Result<Option<Solved>, AllocError> {
    let layout = copy.layout;
    let Ok(mut list) = GreyList::new(alloc, layout.cells()) else {
        return Err(AllocError);
    };
    Ok(pause_over(&mut copy.words, &layout, &mut list, budget))
}
