//! The steps that participants take on a heap of shared words, each of every kind that the machine allows.
//!
//! Each mutator and each visitor has a `Pass`, its right to step on words; it begins a part with a `Ticket`, and hands
//! a `Note` in at its stop. Each step keeps the rule of the heap and tells what the machine says of it. Who makes a
//! heap, seats participants, freezes and opens is for the crate above: of the collector it knows what its view says.

mod pass;
mod plays;
mod step;
// these stand on those listed before
mod acting;
mod notes;
mod pairs;
mod properties;
mod sweeps;
// these stand on those listed before
mod begin_and_stop;
mod own;
mod slots;
mod visits;

pub use notes::{Note, Ticket};
pub use pass::{Numbers, Pass};
pub use step::Made;
