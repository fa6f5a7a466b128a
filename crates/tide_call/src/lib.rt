//! What a call is to do, over any words, and what the words say of it once the operation's words are written.
//!
//! `Planner::plan_call` decides by the words that its mutator alone changes, its `OwnWords`, and by its `Claims`
//! whether a call is refused, and else what is to be done: an `Action`. Others may change their words beside it. The
//! functions of `laws` promise what the words read as once the action's are written; a mutator on a thread cites them.
//! It may touch words and shapes, and knows no heap and no thread.
#![tactic(auto)]

mod claims;
// these stand on those listed before
mod action;
mod own;
mod planner;
// these stand on those listed before
mod additions;
mod claiming;
mod pairs;
mod properties;
mod slots;
// these stand on those listed before
mod planning;
// what the words say once an action's are written
pub mod laws;

pub use action::{Action, Addition};
pub use claims::Claims;
pub use own::{OwnRegisters, OwnWords};
pub use planner::Planner;
