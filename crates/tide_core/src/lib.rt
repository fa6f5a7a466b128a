//! The argument: the tri-colour invariant, and the machine of atomic steps that keeps it. Definitions and laws; the
//! code is what laws take and give.
//!
//! `wave` says what holds of a heap at a freeze, `FrozenWave`, and that each entry of a freeze keeps it. `machine` says
//! what a participant may do to one word while a part runs, what it knows (`View`), and that each step keeps
//! `RunningWave`. They speak of functions, lists and histories.
//!
//! It may touch words, calls, the solver, sweeping and cycles, which it hands on. It knows no thread, no table of words
//! and no handle, and takes no memory. The heap of shared words (`tide_heap`) has this invariant as its rule, and a
//! freeze (`tide_freeze`) shows that its entries keep it.
#![tactic(auto)]

pub mod wave;
// these stand on those listed before
pub mod machine;

pub use machine::{
    Act, Duty, FullBlock, Growth, Owed, Role, Round, Saw, Scan, Sweeping, Target, View,
};
pub use tide_call::{Action, Addition, Claims, OwnRegisters, OwnWords, Planner};
pub use tide_cycle::{Report, begin, end, pause};
pub use tide_solver::Solved;
pub use tide_sweep::{Cleared, SweepPort, Took, has_dead, sweep, sweep_running};
pub use tide_words::{
    BLOCK_SIZE, Colour, GreyList, Layout, MAX_CELLS, Region, Structure, TABLE, Words, after,
    array_word, bit_of, block_of_cell, claim_word, class_of, colour, colour_word, first_block_of,
    fits, has_bit, is_live, is_marked_in, is_vacant, lowest, pair_word, running_cycle, slots,
    store_word, structure_word, val_word, with_bit, without_bit, word_array, word_claim,
    word_phase, word_structure, word_val,
};
