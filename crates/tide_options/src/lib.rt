//! The options of a command line: which ones its words ask for, or that they are refused.
//!
//! The command is a simple one of the crate `clap`, which states what its words mean; what is added is that a plain run
//! has no visitors, that it and a generated workload have no lines behind the text, of cells or of cycles, and how many
//! visitors there may be. It may touch `clap`, which is used here alone, and not even `tide_model`. `tide_run` asks it; it knows no workload and no
//! run.
#![tactic(auto)]

mod command;
mod options;
mod rows;

pub use options::{MAX_VISITORS, Options, Refused, options_of};
