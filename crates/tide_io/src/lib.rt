//! Where a program's bytes come from and go to.
//!
//! A `Source` and a `Sink` each have a count of faults that never falls, and a call answers that it failed only where
//! the count rose. Where they tell it, contracts also name the bytes that are left and those that are held. There are
//! two of each: one in memory, which can be told to fail, and one over std's reader or writer. `read_up_to` and
//! `write_all` work over any of them. Texts and snapshots are written to a `Sink`, and `tide_run` reads and prints by
//! both. It may touch `tide_model`, for its `Memory`, and `arrayvec`.
#![tactic(auto)]

mod calls;
mod sink;
mod source;
// these stand on those listed before
mod gathering;
mod mem_sink;
mod mem_source;
mod reading;
mod real_sink;
mod real_source;
mod writing;

pub use gathering::{Gathered, PIECE};
pub use mem_sink::MemSink;
pub use mem_source::MemSource;
pub use reading::{ReadError, read_up_to};
pub use real_sink::RealSink;
pub use real_source::RealSource;
pub use sink::Sink;
pub use source::Source;
pub use writing::write_all;

/// A source or a sink failed.
#[derive(Clone, Copy, Debug, PartialEq, Eq)]
pub struct Failed;

/// How often a call of std's reader or writer is made where each is interrupted.
pub const MAX_TRIES: u32 = 100;
