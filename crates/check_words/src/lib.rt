//! The checks of what needs no thread: the plain store, heaps of words that are marked and collected, and snapshots of
//! them, compared with what is expected.
//!
//! `plain` makes calls on plain stores and collects them, `marking` marks heaps of words and runs single constraints
//! and whole cycles, and `snapshot` takes snapshots. It may touch rooms without threads, from the layout to snapshots
//! and `tide_core`. `check_threads` uses how it reads an operation. It knows no program, and reads no file: `checks`
//! calls it for the lines of its input, and hands it the rows.
#![tactic(auto)]

mod plain;
// these stand on those listed before
mod marking;
// these stand on those listed before
mod snapshot;

pub use marking::{check_marking, time_runs};
pub use plain::{check_plain, numbered_keys, op_in, shapes_from};
pub use snapshot::{check_snapshot, time_large};
