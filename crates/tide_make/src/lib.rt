//! The generated workload: four mutators that build chains of cells, by an algorithm that a number starts.
//!
//! `make` gives the workload of a number, and its clause says which one that is, operation by operation; `tide_run`
//! calls it. It may touch `tide_text`, for what a workload is. It reads and prints nothing, and knows no store and no
//! run.
#![tactic(auto)]

mod round;
mod rows;
// these stand on those listed before
mod made;

pub use made::make;
