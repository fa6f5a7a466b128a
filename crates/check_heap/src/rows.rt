//! The rows of a text, each of which begins anew and goes line by line.

use crate::reading::words_of;
use crate::texts::tell;
use std::alloc::{AllocError, Global};

/// What does the lines of a row and answers them.
pub trait Answers: Drop {
    /// Before the first line of a row.
    fn begin(alloc: Global) -> Result<Self, AllocError>;

    /// Does what the words of a line say, and answers it, where there is something to answer. `None` where the words
    /// say nothing that is known.
    fn answer(&mut self, alloc: Global, words: &[&str]) -> Result<Option<String>, AllocError>;
}

/// The two parts of a line: what it does, and the answer that is expected.
pub fn parts_of(line: &str) -> (&str, &str) {
    line.split_once(" = ").unwrap_or((line, ""))
}

/// Answers whether a line was answered as expected, and tells what it was answered where it wasn't.
pub fn tell_answer(
    findings: &mut String,
    row: &str,
    line: &str,
    answer: Option<&str>,
) -> Result<bool, AllocError> {
    let (said, expected) = parts_of(line);
    match answer {
        Some(answer) if answer == expected => return Ok(true),
        Some(answer) => tell(
            findings,
            &[row, ": ", said, " = ", answer, ", and not ", expected],
        )?,
        None => tell(findings, &[row, ": ", line, ": nothing that is known"])?,
    }
    Ok(false)
}

/// Does a line, `DO` or `DO = EXPECTED`, and tells what was answered where it is other than expected.
fn is_line_so<A: Answers>(
    alloc: Global,
    findings: &mut String,
    answers: &mut A,
    row: &str,
    line: &str,
) -> Result<bool, AllocError> {
    let (said, _) = parts_of(line);
    let words = words_of(alloc, said)?;
    let answer = answers.answer(alloc, words.as_slice())?;
    tell_answer(findings, row, line, answer.as_deref())
}

/// Does lines one after another, up to the first that ends otherwise than expected.
fn are_lines_so<A: Answers>(
    alloc: Global,
    findings: &mut String,
    answers: &mut A,
    row: &str,
    lines: &str,
) -> Result<bool, AllocError> {
    for line in lines.lines() {
        if !line.is_empty() && !is_line_so(alloc, findings, answers, row, line)? {
            return Ok(false);
        }
    }
    Ok(true)
}

/// Does a row, after the lines that each row of its text begins with.
fn is_row_so<A: Answers>(
    alloc: Global,
    findings: &mut String,
    first: &str,
    row: &str,
) -> Result<bool, AllocError> {
    let (name, lines) = row.split_once("\n").unwrap_or((row, ""));
    let mut answers = A::begin(alloc)?;
    if !are_lines_so(alloc, findings, &mut answers, name, first)? {
        return Ok(false);
    }
    are_lines_so(alloc, findings, &mut answers, name, lines)
}

/// Does each row of a text, and tells the lines that end otherwise than expected. A row is a line `=== NAME` and the
/// lines below it, to the next; what stands before the first is done at the beginning of each. A text without rows is
/// none.
pub fn check_rows<A: Answers>(
    alloc: Global,
    findings: &mut String,
    text: &str,
) -> Result<bool, AllocError> {
    let Some((first, rows)) = text.split_once("=== ") else {
        return Ok(false);
    };
    let mut all = true;
    for row in rows.split("=== ") {
        all = is_row_so::<A>(alloc, findings, first, row)? && all;
    }
    Ok(all)
}
