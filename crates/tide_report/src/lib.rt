//! The report of a run's cycles: a line for each that ended, over one list of the cells that they freed.
//!
//! It is plain data: it may touch `tide_model`, and knows no store, no word and no history. The end of a cycle over
//! words fills one (`tide_cycle`, which hands the type on), and so does a run of whole cycles on any store
//! (`tide_periods`); what a run leaves has it. That a report tells just the ends of a history is `TellsEnds` in
//! specs/Ends.antt.
#![tactic(auto)]

mod report;

pub use report::{CycleLine, Report};
