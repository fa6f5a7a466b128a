//! Calls on plain stores, collections of them and shapes, whose answers are compared with what is expected.
//!
//! It knows no program: `checks` calls it for the lines of its input that begin with `plain`. ROWS are
//! the text of a file, and are done one by one:
//!
//! - `stores ROWS`: plain stores (`trial.rt` tells what a line of a row says).
//! - `shapes ROWS`: the shapes of declared paths (`shapes.rt`).

mod op;
mod shapes;
// these stand on those listed before
mod guarded_store;
// these stand on those listed before
mod trial;

use check_heap::check_rows;
pub use op::{numbered_keys, op_in};
use shapes::Declared;
pub use shapes::shapes_from;
use std::alloc::{AllocError, Global};
use trial::Trial;

/// Makes the check that words say, tells what was otherwise than expected, and answers whether all was as expected.
pub fn check_plain(
    alloc: Global,
    findings: &mut String,
    words: &[&str],
) -> Result<bool, AllocError> {
    match words {
        ["stores", rows] => check_rows::<Trial>(alloc, findings, rows),
        ["shapes", rows] => check_rows::<Declared>(alloc, findings, rows),
        _ => Ok(false),
    }
}
