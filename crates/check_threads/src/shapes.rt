//! Tables of shapes that threads grow: rows of calls, in which each call of a grower is made on a thread of its own,
//! and threads that grow the same thousand paths in different orders, held where they found a cell empty and come to
//! set it.
//!
//! It knows no program, and reads no file: `checks` calls it for the lines of its input, and hands it the rows.

mod meeting;
mod table;
// these stand on those listed before
mod race;
mod rows;

use check_heap::number;
use race::check_race;
use rows::check_rows_of_shapes;
use std::alloc::{AllocError, Global};
use std::marker::Sync;
use std::sync::Wait;
use std::thread::Threads;

/// Makes the check that words say: `rows ROWS`, or `threads COUNT`.
pub fn check_shapes<R: Threads + Wait + Sync>(
    rt: &R,
    alloc: Global,
    findings: &mut String,
    check: &[&str],
) -> Result<bool, AllocError> {
    match check {
        ["rows", rows] => check_rows_of_shapes(rt, alloc, findings, rows),
        ["threads", count] => match number(count) {
            Some(count) if count > 0 && count <= 16 => check_race(rt, alloc, findings, count),
            _ => Ok(false),
        },
        _ => Ok(false),
    }
}
