//! Changing one word of a region, or one bit of it. What the word says it doesn't know.
ghost use Rattle.std.specs.Prelude.{◌≡◌, ◌<◌, length};
ghost use Rattle.tide_layout.specs.Region.{size_of, word_count};
ghost use Rattle.tide_words.specs.heap.Heap.{heap_of};
ghost use Rattle.tide_words.specs.heap.Written.{IsBitPut, IsWritten};

use crate::{Layout, Region, Words};
use tide_block::without_bit;

/// Stores a word of a region.
pub fn store_word<W: Words>(words: &mut W, layout: &Layout, region: Region, index: u32, word: u64)
    requires all_words { length (W.words words.old) ≡ word_count layout.now }
    requires of_region { index < size_of layout.now region }
    ensures all_words { length (W.words words.new) ≡ word_count layout.now }
    ensures written { IsWritten layout.now (heap_of layout.now (W.words words.old))
        (heap_of layout.now (W.words words.new)) region index word }
    ensures same_rest { W.rest words.new ≡ W.rest words.old }
{
    words.store(layout.place(region, index), word);
}

/// Clears a bit of a region's word.
pub fn clear_bit<W: Words>(words: &mut W, layout: &Layout, region: Region, index: u32, bit: u32)
    requires all_words { length (W.words words.old) ≡ word_count layout.now }
    requires of_region { index < size_of layout.now region }
    requires of_word { bit < 64 }
    ensures all_words { length (W.words words.new) ≡ word_count layout.now }
    ensures put { IsBitPut layout.now (heap_of layout.now (W.words words.old))
        (heap_of layout.now (W.words words.new)) region index bit 0 }
    ensures same_rest { W.rest words.new ≡ W.rest words.old }
{
    let word = words.load(layout.place(region, index));
    store_word(words, layout, region, index, without_bit(word, bit));
}
