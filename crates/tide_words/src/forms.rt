//! The words of values, structures, pairs and colours: each has one word of 64 bits. They know no heap.

mod colour_form;
mod colours;
mod pairs;
mod phase_form;
mod reference;
mod structure;
mod value_word;

pub use colour_form::{colour, colour_cycle, colour_word, is_marked_in};
pub use colours::Colour;
pub use pairs::{MAX_CELLS, pair_word, word_pair};
pub use phase_form::{phase_word, word_phase};
pub use reference::{array_word, claim_word, word_array, word_claim};
pub use structure::{Structure, structure_word, word_structure};
pub use value_word::{val_word, word_val};
