//! Visitors that drain: rows of a cycle that a visitor marks beside a mutator, by `tide_visitor`.
//!
//! A row says what the mutator calls before the cycle and beside the visitor, how much the visitor drains, and where
//! one is held until the other has come to a point. It asks what the visitor told, and what the words are once both
//! have stopped. It knows no program, and reads no file: `checks` calls it for the lines of its input, and hands it the
//! rows.

mod copying;
mod freezing;
mod parts;
mod seen;
// these stand on those listed before
mod looks;
// these stand on those listed before
mod plan;
// these stand on those listed before
mod sharing;
// these stand on those listed before
mod running;
// these stand on those listed before
mod trial;
// these stand on those listed before
mod drains;

pub use drains::check_drains;
