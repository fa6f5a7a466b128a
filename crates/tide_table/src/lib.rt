//! The collector's side of the heap of shared words: it starts a heap, seats participants, freezes, opens and closes.
//!
//! The `Collector` hands out tickets, takes notes in, and freezes the heap once all have stopped. A `Frozen` heap is
//! `Words`, over which marking and sweeping run, and a `HistoryWords`; `count_live` and `live_by_class` count its cells.
//! `foresee` and `Foreseen::told` work out what a freeze did, for statistics of its cycles. It may touch `tide_heap` and
//! `tide_statistics`, some of whose names it hands on, `atomic_table`, shapes, the schedule and the report. It knows no
//! operation and no thread, waits for nobody and has no lock. `tide_threads` runs its parts by it, and programs of one's
//! own have it by `tide`.
#![tactic(auto)]

pub mod laws;
mod plays;
mod zeros;
// these stand on those listed before
mod collector;
// these stand on those listed before
mod closed;
mod figures;
mod frozen;
mod opening;
mod start;
// these stand on those listed before
mod census;
mod collecting;
mod counting;
mod foreseeing;
mod history_words;
mod visiting;

pub use census::{count_live, live_by_class};
pub use closed::Closed;
pub use collecting::NotOpened;
pub use collector::{Collector, PeriodsSpent};
pub use foreseeing::{Foreseen, foresee};
pub use frozen::Frozen;
pub use start::Start;
pub use tide_heap::{Heap, HeapShapes, Note, Numbers, Pass, Ticket};
pub use tide_statistics::{
    BegunTold, CycleLog, CycleStatistics, CycleSums, FreezeTold, PauseTold, tell_freeze,
};
