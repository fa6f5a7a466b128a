//! The plain store: the slow reference store, against which every other is compared. One thread, no words.
//!
//! `statuses` says what becomes of an array, `parts` has each list by itself, `stored` has them together with their
//! invariant, `collect` finds what is retained, and `calls` is the operations. Each names those before it alone. It may
//! touch the layout, blocks and shapes. `tide_periods` runs it for `tide_run`.
#![tactic(auto)]

mod statuses;
// these stand on those listed before
mod parts;
// these stand on those listed before
mod stored;
// these stand on those listed before
mod collect;
// these stand on those listed before
mod calls;

pub use calls::PlainStore;
