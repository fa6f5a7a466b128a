//! The words of a heap, what each of them says, and how cells become grey and black in them.
//!
//! A heap is one list of words, and a `Layout` of `tide_layout` tells where each of them lies. Each value, structure,
//! pair and colour has one word of 64 bits, and the calls here go from the one to the other (`forms`). `Words` is any
//! such list that can be read and changed (`heap`). What a cycle says of colours is in `marking`, and `greying` changes
//! them. The rooms above reach the words by these calls alone. It may touch the layout and blocks, and knows
//! no constraint and no thread.
#![tactic(auto)]

mod forms;
// these stand on those listed before
mod heap;
// these stand on those listed before
mod marking;
// these stand on those listed before
mod block_bits;
// these stand on those listed before
mod greying;

pub use block_bits::{is_blank, live_bits, marked_bits};
pub use forms::{
    Colour, MAX_CELLS, Structure, array_word, claim_word, colour, colour_cycle, colour_word,
    is_marked_in, pair_word, phase_word, structure_word, val_word, word_array, word_claim,
    word_pair, word_phase, word_structure, word_val,
};
pub use greying::{blacken, mark, mark_by, mark_named, mark_named_by};
pub use heap::{Fields, VecWords, Words, array_of, clear_bit, is_live, is_vacant, store_word};
pub use marking::{
    Constraint, Cycles, Following, GreyList, Volatility, base_cycle, is_marked, note_at, put_note,
    running_cycle, take_note,
};
pub use tide_block::{
    after, bit_of, block_of_array, block_of_cell, class_of, class_of_array, complement,
    first_block_of, first_of, has_bit, lowest, with_bit, without_bit, without_lowest,
};
pub use tide_layout::{
    BLOCK_SIZE, Layout, PAIRS, Region, TABLE, array_capacity, fits, slots, width,
};
