//! Snapshots of heaps in words, by `tide_snapshot`, compared with what is expected.
//!
//! It knows no program: `checks` calls it for the lines of its input that begin with `snapshot`. ROWS are the text of
//! a file, and are done one by one:
//!
//! - `lines ROWS`: heaps that are told by facts, and the lines of their cells (`lines.rt` tells what a line of a row
//!   says).
//! - `large KIND BLOCKS`: a heap of so many blocks of each class of cells, 1 to 64, all of whose cells are as far as
//!   they should be (`large.rt` tells of which kind it may be).
//!
//! `time_large` tells how long a snapshot of such a heap takes, by the clock, which `check_snapshot` isn't handed.

mod naming;
// these stand on those listed before
mod shot;
// these stand on those listed before
mod large;
mod lines;
// these stand on those listed before
mod timing;

use check_heap::check_rows;
use large::check_large;
use lines::Lines;
use std::alloc::{AllocError, Global};
pub use timing::time_large;

/// Makes the check that words say, but for `time`, which `time_large` makes, tells what was otherwise than expected,
/// and answers whether all was as expected.
pub fn check_snapshot(
    alloc: Global,
    findings: &mut String,
    words: &[&str],
) -> Result<bool, AllocError> {
    match words {
        ["lines", rows] => check_rows::<Lines>(alloc, findings, rows),
        ["large", kind, blocks] => check_large(alloc, kind, blocks),
        _ => Ok(false),
    }
}
