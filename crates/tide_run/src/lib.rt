//! The whole program over any source and sinks: from the words of a command line, by a run, to the exit status.
//!
//! `running` runs a workload and leaves its `Outcome`: on the heap that its mutators and visitors share (`run`), with a
//! snapshot of what is left (`run_with_snapshot`), or on the plain store (`plain`). `riptide` carries the history
//! theorem: what it printed is the text of a legal history of the workload that it read, or the summary of one of the
//! workload that it made. `answer` is all that the program does with what its `main` hands it.
//!
//! It may touch everything below it but a word of the heap. It knows no real input or output, and decides nothing of
//! what a call or a collection does.
#![tactic(auto)]

mod running;
// these stand on those listed before
mod counting;
mod stop;
// these stand on those listed before
mod asking;
mod printing;
// these stand on those listed before
mod program;
// these stand on those listed before
mod process;

pub use process::answer;
pub use program::{Ended, riptide};
pub use running::{
    Answered, CycleLine, Kept, Outcome, OwnHistory, Report, plain, run, run_with_snapshot,
};
