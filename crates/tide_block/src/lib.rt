//! Where the cells and arrays of a store lie: classes, blocks of 64, and the bits of a block's words.
//!
//! A block's words have one bit for each of its 64 cells or arrays. `lowest`, `after` and `without_lowest` walk the set
//! bits of a word, and four more calls ask for one bit, or give the word with bits the other way. The other calls go
//! from an id to its class, its block and its bit, and from a class to its first block and its first id, in the order
//! that a `Layout` of `tide_layout` gives. `proofs/` has the laws that tie these together. Words and the plain store
//! use it. It may touch the layout, and knows no word's meaning.
#![tactic(auto)]

mod bits;
mod classes;

pub use bits::{after, complement, has_bit, lowest, with_bit, without_bit, without_lowest};
pub use classes::{
    bit_of, block_of_array, block_of_cell, class_of, class_of_array, first_array_of,
    first_block_of, first_of,
};
pub use tide_layout::{array_capacity, slots};
