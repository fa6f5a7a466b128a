//! Bytes to a workload, and the names of workloads and of their texts that users say.
//!
//! `read` takes the bytes of a TOML document to a `Workload`, or to the first fault in them, as `reads_workload` of
//! specs/ defines it over the crate `toml`. What a workload is and how a run is printed stands in `tide_text`, whose
//! names are handed on here, with the words of their contracts in specs/Words.antt.
//!
//! It may touch `toml`, which is used here alone, `tide_text` and shapes. `tide_run` reads its input by it. It knows
//! nothing of a run.
#![tactic(auto)]

mod examples;
mod fields;
mod shapes;
// these stand on those listed before
mod scripts;
// these stand on those listed before
mod reading;

pub use reading::{MAX_BYTES, read};
pub use tide_text::{
    Counts, Fault, Field, MAX_KEY_BYTES, MAX_KEYS, MAX_MUTATORS, MAX_OPS, Settings, Workload,
    texts_read_back, write_call, write_cycle, write_fault_line, write_live, write_mutator,
    write_statistics, write_summary,
};
