//! What an object store is: its values, operations, replies and histories.
//!
//! The types here are those that code passes about. What they mean stands in `specs/`: the state of a
//! store, what an operation answers, the least fixpoint of its graph, when the entries of a cycle may stand,
//! and which histories are lawful. Every other room's contracts cite these definitions, and this
//! one may touch no room.
#![tactic(auto)]

pub mod laws;
mod memory;
mod turnstile;
mod val;
// these stand on those listed before
mod op;
// these stand on those listed before
mod entry;

pub use entry::{Entry, Event, Ids};
pub use memory::Memory;
pub use op::{Op, Refusal, Reply};
pub use turnstile::{FreePass, Place, Turnstile};
pub use val::Val;
