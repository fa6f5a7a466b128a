//! The heap of shared words: a table of words whose rule is the wave of the machine of atomic steps, and the steps that
//! participants take on it, each of every kind that the machine allows.
//!
//! Threads share a `Heap` by `&`. What its rule says of the words, of the participants' views and of the collector's
//! stands in `specs/Rule.antt`; the laws on keeping it, which the rooms above share, are in `proofs`. In `steps`, each
//! mutator and each visitor has a `Pass`, its right to step on words; it begins a part with a `Ticket`, and hands a
//! `Note` in at its stop. Each step keeps the rule and tells what the machine says of it.
//!
//! It may touch `tide_core` and `tide_freeze`, which it hands on, shapes, and `atomic_table`. `tide_mutator` and
//! `tide_visitor` step by it, and `tide_table` makes, freezes and opens a heap; of the collector this room knows what
//! its view says. Outside these rooms only tests step on a shared word.
#![tactic(auto)]

mod shapes;
// these stand on those listed before
mod heap;
// these stand on those listed before
mod steps;

pub use heap::{Heap, Key, Waves};
pub use shapes::HeapShapes;
pub use steps::{Made, Note, Numbers, Pass, Ticket};
pub use tide_core::{
    Action, Addition, BLOCK_SIZE, Claims, Colour, GreyList, Layout, MAX_CELLS, OwnRegisters,
    OwnWords, Planner, Region, Report, Solved, Structure, SweepPort, TABLE, Took, View, Words,
    after, begin, bit_of, block_of_cell, class_of, colour, colour_word, first_block_of, fits,
    has_bit, is_live, is_marked_in, is_vacant, lowest, pair_word, pause, slots, structure_word,
    sweep_running, val_word, with_bit, without_bit, word_array, word_claim, word_phase,
    word_structure, word_val,
};
pub use tide_freeze::{Books, HistoryWords, Pacing, freeze};
