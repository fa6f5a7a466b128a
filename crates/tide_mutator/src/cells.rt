//! Calls that take, link, hold and claim cells, on threads: the steps of each on one shared heap, in their order.
//!
//! Each call carries out one action: a cell is taken, a slot or a handle or a pair is stored or loaded, a cell is
//! claimed or given back. One step makes the call's entry in the history, and what the call owes then is paid by
//! `owed`. A search for something free begins where `cursor` says, and sweeps a block in which it took nothing, unless
//! another does. It knows no property and no group, and which action a call has it is told.

pub mod claiming;
pub mod cursor;
pub mod handles;
pub mod pairs;
pub mod slots;
mod sweeping;
// these stand on those listed before
pub mod searching;
// these stand on those listed before
pub mod births;
