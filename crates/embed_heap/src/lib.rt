//! Callers of one's own of the heap that threads share: two mutators, a visitor beside one, the same over a heap of
//! very many cells, and a heap over shapes that threads grew.
//!
//! It is a library that a program hands its runtime: `fn main(rt: HostRuntime)` calls
//! `both_find_seven(&rt, rt.alloc())`, `four_are_kept`, `is_read_back` or `adds_in_order`. A program of one's own may
//! begin as a copy of one of the folders: each may touch `tide` alone, the one door, and none names another but
//! `large`, which names `visitor`.
#![tactic(auto)]

mod two_mutators;
// these stand on those listed before
mod visitor;
// these stand on those listed before
mod large;
mod shapes;

pub use large::is_read_back;
pub use shapes::adds_in_order;
pub use two_mutators::both_find_seven;
pub use visitor::{MutatorAfterPart, Shared, four_are_kept, layout, make_calls, start};
