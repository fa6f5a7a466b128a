//! The words of a heap: any list of them, one list, how one of them changes, and which cells are live by them. They
//! know no marking.

mod fields;
mod live;
mod vec_words;
mod words;
mod writing;

pub use fields::{Fields, array_of};
pub use live::{is_live, is_vacant};
pub use vec_words::VecWords;
pub use words::Words;
pub use writing::{clear_bit, store_word};
