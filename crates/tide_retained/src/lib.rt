//! Which cells of a heap are retained, why, and how far each is from a root.
//!
//! `Retained::of` reads words that stand still, over any `Words`, and keeps what they say, with a shortest path to each
//! cell that is retained. It answers what a cell held, how many steps there are to it, and which cells its path has,
//! one after another and without memory; `tide_snapshot` writes its lines of that. It may touch words and the keys of
//! shapes, and knows no thread, no run, no cycle and no text.
#![tactic(auto)]

pub mod laws;
mod root;
mod values;
// these stand on those listed before
mod contents;
// these stand on those listed before
mod index;
mod known;
mod roots;
// these stand on those listed before
mod reading;
mod search;
// these stand on those listed before
mod phases;
mod trail;
// these stand on those listed before
mod retained;

pub use contents::{Held, Keyed};
pub use retained::{Retained, Way};
pub use root::Root;
