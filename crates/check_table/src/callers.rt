//! Callers of the table of words, each of a call or two: acts of a mutator, its stop, a freeze and an opening.
//!
//! They are what `check_table` puts parts together of, and where the gate tries what a caller may not do.
//! Whoever calls them knows the layout and what has been called before.

mod acts;
mod stops;

pub use acts::{leave, put_strong, put_weak, set_register};
pub use stops::{begin_part, stop_and_freeze, stop_part};
