//! Marking of heaps of words by `tide_solver::solve` with the four constraints of a collector, single constraints and
//! whole cycles, compared with what is expected.
//!
//! It knows no program: `checks` calls it for the lines of its input that begin with `marking`. ROWS
//! are the text of a file, and are done one by one:
//!
//! - `heaps ROWS`: heaps that are marked, wholly or within a budget (`heaps.rt` tells what a line of a row says).
//! - `constraints ROWS`: one run of a constraint, and what is marked then (`bench.rt`).
//! - `chain KIND BLOCKS`: a long chain in a layout of so many blocks of each class of cells, 1 to 64, all of whose
//!   cells are marked. A cell holds the next one by `links`, or by a link and a group in `turns`; and with `tables`
//!   each table is held by a pair of the next one, or with `leaps` by one at the other end.
//! - `runs GROUPS MARKED TIMES`: so many runs of `Groups` and of `Ephemerons` over the largest layout, whose cells are
//!   in groups `alone`, all `together`, or two and two, `beside`, `apart`, `drawn`, `crowded` or `worst` (beside, in
//!   groups whose numbers crowd by the first factor of `Groups`, or some by each that it tries alone), and of which
//!   `nothing`, `few` (one of 130), `half`, `cells` (half, but no table) or `all` is marked. What the quickest took
//!   goes to the error output, in nanoseconds.
//! - `cycles ROWS`: heaps that are collected, step by step or a whole cycle at a time (`cycles.rt`).

mod marking;
// these stand on those listed before
mod chains;
mod heaps;
// these stand on those listed before
mod bench;
// these stand on those listed before
mod collecting;
mod runs;
// these stand on those listed before
mod cycles;

use bench::Bench;
use chains::check_chain;
use check_heap::check_rows;
use cycles::Cycles;
use heaps::Marked;
pub use runs::time_runs;
use std::alloc::{AllocError, Global};

/// Makes the check that words say, but for `runs`, which `time_runs` makes, tells what was otherwise than expected, and
/// answers whether all was as expected.
pub fn check_marking(
    alloc: Global,
    findings: &mut String,
    words: &[&str],
) -> Result<bool, AllocError> {
    match words {
        ["heaps", rows] => check_rows::<Marked>(alloc, findings, rows),
        ["constraints", rows] => check_rows::<Bench>(alloc, findings, rows),
        ["cycles", rows] => check_rows::<Cycles>(alloc, findings, rows),
        ["chain", kind, blocks] => check_chain(alloc, kind, blocks),
        _ => Ok(false),
    }
}
