//! A heap of very many cells, of which a mutator fills a class beside a visitor, while cycles run.
//!
//! It is a library that a program hands its runtime: `is_read_back(&rt, rt.alloc(), 300)`. It stands on `visitor`,
//! whose parts it makes: `filling` says what the mutator calls, and `reading` what it has to be answered then.

mod filling;
// these stand on those listed before
mod reading;

pub use reading::is_read_back;
