//! What the libraries of checks share: the rows of a text, the text of layouts, numbers and replies, heaps in words
//! that are written a fact at a time, and a turnstile that holds.
//!
//! A row is a name and lines, each of which is something to do, with the answer that is expected of it. What does them
//! is an `Answers`; it never sees what is expected. What a check has to tell it puts at the end of a text, its
//! `findings`. It may touch words. All libraries of checks use it. It knows no check, and nothing of the system: the
//! program `checks` reads the files and prints.
#![tactic(auto)]

mod draw;
mod places;
mod reading;
mod texts;
// these stand on those listed before
mod heap;
mod labelled;
mod point;
mod reply;
mod rows;
// these stand on those listed before
mod fact;
mod holds;

pub use draw::Draw;
pub use fact::{pair_text, region_of, value_of, word_of, word_text};
pub use heap::{Heap, MOST_CELLS};
pub use holds::Holds;
pub use labelled::label_text;
pub use places::{place_of_element, place_of_slot, place_of_word};
pub use point::Point;
pub use reading::{
    behind, large_number, large_numbers, layout_of, number, numbers, pair_of_numbers, small_number,
    words_of,
};
pub use reply::{reply_text, value_text};
pub use rows::{Answers, check_rows, parts_of, tell_answer};
pub use texts::{joined, number_between, number_or_none, number_text, numbers_text, tell, text};
