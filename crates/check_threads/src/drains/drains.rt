//! Rows, each of which is a trial (`trial.rt`).
//!
//! They are done here and not by `check_rows`, since what a run may start threads with isn't handed to a trait's
//! method.

use crate::drains::trial::Trial;
use check_heap::{parts_of, tell_answer, words_of};
use std::alloc::{AllocError, Global};
use std::marker::Sync;
use std::thread::Threads;

/// Does a line, and answers whether it was answered as expected.
fn is_line_so<R: Threads + Sync>(
    rt: &R,
    alloc: Global,
    findings: &mut String,
    trial: &mut Trial,
    row: &str,
    line: &str,
) -> Result<bool, AllocError> {
    let (said, _) = parts_of(line);
    let words = words_of(alloc, said)?;
    let answer = trial.answer(rt, alloc, words.as_slice())?;
    tell_answer(findings, row, line, answer.as_deref())
}

/// Does the lines of a row, up to the first that is answered otherwise than expected.
fn are_lines_so<R: Threads + Sync>(
    rt: &R,
    alloc: Global,
    findings: &mut String,
    trial: &mut Trial,
    row: &str,
    lines: &str,
) -> Result<bool, AllocError> {
    for line in lines.lines() {
        if !line.is_empty() && !is_line_so(rt, alloc, findings, trial, row, line)? {
            return Ok(false);
        }
    }
    Ok(true)
}

/// Does a row: its name, and its lines below that.
fn is_row_so<R: Threads + Sync>(
    rt: &R,
    alloc: Global,
    findings: &mut String,
    row: &str,
) -> Result<bool, AllocError> {
    let (name, lines) = row.split_once("\n").unwrap_or((row, ""));
    let mut trial = Trial::begin(alloc)?;
    are_lines_so(rt, alloc, findings, &mut trial, name, lines)
}

/// Does each row of a text, as `check_rows` does those of other kinds.
pub fn check_drains<R: Threads + Sync>(
    rt: &R,
    alloc: Global,
    findings: &mut String,
    text: &str,
) -> Result<bool, AllocError> {
    let Some((_, rows)) = text.split_once("=== ") else {
        return Ok(false);
    };
    let mut all = true;
    for row in rows.split("=== ") {
        all = is_row_so(rt, alloc, findings, row)? && all;
    }
    Ok(all)
}
