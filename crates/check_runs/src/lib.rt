//! The checks of runs: rows of runs by `tide_run::riptide`, over sources and sinks that fail where they are told to and
//! with participants that are held where they are told to, and lists of workloads that come to the same each way.
//!
//! `facts` draws workloads, hostile ones, and judges their texts; `ends` has rows of sources and sinks alone. It may
//! touch `tide_run` and what its outcome says, and names no word of a heap. It reads no file: `checks` calls it for the
//! lines of its input, and hands it the rows and the workloads.
#![tactic(auto)]

mod answering;
mod outcomes;
mod shelf;
// these stand on those listed before
mod ending;
mod facts;
mod real;
mod trial;
mod ways;
// these stand on those listed before
mod ends;
mod runs;

pub use ends::Ends;
pub use facts::check_facts;
pub use runs::check_runs;
pub use shelf::Shelf;
pub use ways::check_ways;
