//! What is told of a run's cycles beside its report: the kind of each, how many freezes it went through, how many cells
//! were born before it and while it marked, and how many its pauses and the visitors made black.
//!
//! It is plain data: it may touch `tide_model`, and knows no store, no word and no text. Whoever enters the events of a
//! history tells a `CycleLog` of each part that opens, of each cycle that begins and ends, and of what is made black.
//! That the log then has what the history says is `HasLogged` of specs/Statistics.antt. `tide_threads` keeps one of a run.
//! `CycleSums` takes no more room however many cycles end, for a heap that stands for the life of its host.
#![tactic(auto)]

mod log;
// these stand on those listed before
mod told;
// these stand on those listed before
mod sums;

pub use log::{CycleLog, CycleStatistics};
pub use sums::CycleSums;
pub use told::{BegunTold, FreezeTold, PauseTold, tell_freeze};
