//! Snapshots of a heap: a line of text for each cell that is live, and why it is still there.
//!
//! `take` reads words that stand still, over any `Words`, and keeps what they say; `Snapshot::distance`, `is_live` and
//! `write_cell` answer from that: how far a cell is from a root, and its line, with a path than which none is shorter;
//! `write_lines` writes the lines of all that are live, and `write_lines_named` does so with a caller's own names of
//! keys. It may touch `tide_retained`, which finds the paths, words, shapes, text and sinks, and knows no thread, no run
//! and no cycle. `tide_threads` takes a snapshot, `tide_run` prints it, and programs of one's own have it by `tide`.
#![tactic(auto)]

mod writing;
// these stand on those listed before
mod snapshot;

pub use snapshot::{Snapshot, take};
pub use tide_io::{Failed, MemSink, RealSink, Sink};
pub use tide_text::{Keys, MAX_KEY_BYTES, MAX_KEYS, is_key};
