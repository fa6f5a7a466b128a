//! Workloads and runs, as data and as text.
//!
//! `work` says what a workload is, which operation a text is, and what is wrong with bytes that are no workload.
//! `lines` composes the lines of a run and of a fault on the stack. Above them are the text of a run, line by line, its
//! summary, and the line of a fault, as `text_of`, `summary_of` and `fault_line` of specs/ say; `texts_read_back` says
//! that what is printed of an operation reads as that operation.
//!
//! It may touch what an operation is, shapes and sinks. It takes no memory for a line, and knows nothing of the
//! document that a workload is read from. `tide_workload`, which reads that, hands its names on to `tide_run`; who
//! wants a workload or a line and no document, as `tide_make` and `tide_snapshot`, names it itself.
#![tactic(auto)]

mod work;
// these stand on those listed before
mod lines;
// these stand on those listed before
mod counts;
mod writing;
// these stand on those listed before
mod read_back;
mod summary;
mod worked;

pub use counts::Counts;
pub use lines::{
    LONGEST_FAULT, LONGEST_ID, LONGEST_KEY, LONGEST_LINE, LONGEST_OP, LONGEST_REGISTER,
    LONGEST_REPLY, Line,
};
pub use read_back::texts_read_back;
pub use summary::{LONGEST_COUNTS, write_summary};
pub use work::{
    Fault, Field, Keys, MAX_KEY_BYTES, MAX_KEYS, MAX_MUTATORS, MAX_OPS, OpArguments, Settings,
    Workload, is_key, is_trimmed, next_word, op_of,
};
pub use writing::{
    write_call, write_cycle, write_fault_line, write_live, write_mutator, write_statistics,
};
