//! Runs on threads: in each part each mutator makes its calls, and each visitor marks, on threads, on one
//! shared heap.
//!
//! A `Participant` is a mutator with what it asks for, or a visitor. In a part each begins with its ticket, makes its
//! share of calls or of visits, and stops; the collector opens the part and hands tickets out before, and takes notes
//! in and freezes after, and the log of cycles is told of each freeze. `OnThreads` is a heap with its participants,
//! which `run_on_threads` runs until all mutators have retired; `run_with_snapshot` takes a snapshot of it then.
//! `tide_run` runs workloads by these. It may touch the heap with its collector, mutators and visitors, snapshots of
//! it, shapes, the schedule, the report, the log of cycles, which it hands on, the cursors and laws of `tide_periods`,
//! and threads. What a call does, and what a visit or a freeze marks, is decided there. It knows no text and no option.
#![tactic(auto)]

mod contents;
mod marking;
mod share;
// these stand on those listed before
mod calling;
// these stand on those listed before
mod worker;
// these stand on those listed before
mod participant;
// these stand on those listed before
mod collecting;
// these stand on those listed before
mod playing;
// these stand on those listed before
mod part;
// these stand on those listed before
mod on_threads;
// these stand on those listed before
mod logging;
// these stand on those listed before
mod periods;
// these stand on those listed before
mod with_snapshot;

pub use on_threads::OnThreads;
pub use participant::Participant;
pub use periods::{HeapRun, run_on_threads};
pub use tide_table::{CycleLog, CycleStatistics};
pub use with_snapshot::run_with_snapshot;
