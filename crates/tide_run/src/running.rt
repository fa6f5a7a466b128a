//! Running a workload, and the outcome of that.
//!
//! `run`, on which `riptide` stands, runs one on a heap that its mutators and visitors share, each on a thread of its
//! own. `run_with_snapshot` does the same, and takes a snapshot of what the heap holds at the end. `plain` runs one on
//! the plain store, one mutator after another, and keeps the history itself. All take of the workload what `starting`
//! does, and make an `Outcome` of what is left. It knows no sink and no word of a command line.

mod outcome;
mod starting;
// these stand on those listed before
mod finishing;
// these stand on those listed before
mod on_heap;
mod on_plain;
// these stand on those listed before
mod with_snapshot;

pub use on_heap::run;
pub use on_plain::plain;
pub use outcome::{Kept, Outcome, OwnHistory};
pub use tide_periods::Answered;
pub use tide_report::{CycleLine, Report};
pub use with_snapshot::run_with_snapshot;
