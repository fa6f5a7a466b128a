//! The machine of atomic steps: what participants do to a heap's words one at a time, and what stays true meanwhile.
//!
//! A heap on threads has many participants, mutators and visitors, each of which steps on one word at a time. Here are
//! the kinds of step, what a participant knows (`View`), what it may do, and the invariant while a part runs. The laws
//! speak of functions and lists: the crate knows no thread, no table of words and no handle, and takes no memory.

mod act;
pub mod laws;
mod view;

pub use act::Act;
pub use view::{Duty, FullBlock, Growth, Owed, Role, Round, Saw, Scan, Sweeping, Target, View};
