//! Mutators on threads: each makes its calls on one shared heap, step by step, and each call stands in one lawful
//! history.
//!
//! A `Mutator` has a pass of the heap, the cells that it claims, where its searches for something free go on, and the
//! number of its calls. `owed` pays what a call owes once one of its steps made its entry: a register, a new cell's
//! colour, a larger array, a barrier, the call word. `cells` has the calls that take, link, hold and claim cells, and
//! the search that sweeps. `calls` decides what a call is to do, over own words that it loads, hands the action to the
//! function that acts on it, and has the calls on registers, groups and properties.
//!
//! It may touch words by the steps of a pass alone, and nothing of the collector. What runs mutators on threads, or
//! embeds them, uses `Mutator`.
#![tactic(auto)]

mod owed;
// these stand on those listed before
mod cells;
// these stand on those listed before
mod calls;

pub use calls::Mutator;
