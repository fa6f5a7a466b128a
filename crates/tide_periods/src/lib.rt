//! A run of mutators in periods, over any store: running parts, and the freezes between them in which cycles run.
//!
//! It knows no workload and no text. What it is handed is a store with its mutators and the numbers of a period; what
//! it gives back is what keeps the history, the report of its cycles, and each mutator's calls. `Parts` is what a run
//! asks of a store: that it runs parts and freezes between them. `InTurn` is one in which mutators make their calls one
//! after another, over any `Recorder`, which keeps the history of what was run on it. `Recording` is one over any
//! `Store`, and the plain store is the first such. A `ScriptCursor` tells what a mutator asks next by its own calls
//! alone, so that others may make theirs meanwhile; `laws` says what such shares make. It may touch the schedule, the
//! report, the layout and, for one run over it, the plain store. `tide_run` runs a plain store by it, and
//! `tide_threads` takes its cursors and laws for runs on threads.
#![tactic(auto)]

mod answered;
pub mod laws;
mod recorder;
mod store;
// these stand on those listed before
mod cursor;
mod parts;
mod plain;
mod recording;
// these stand on those listed before
mod part;
mod periods;
mod room;
// these stand on those listed before
mod in_turn;
mod run;

pub use answered::Answered;
pub use cursor::{ScriptCursor, cursors_of};
pub use in_turn::InTurn;
pub use parts::Parts;
pub use recorder::Recorder;
pub use recording::Recording;
pub use room::{Room, room_for};
pub use run::{Finished, run_on};
pub use store::Store;
pub use tide_sched::Pacing;
