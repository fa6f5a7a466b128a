//! Parts, pauses and freezes over the table of words, on one thread, which tell what they answer.
//!
//! `Pair` is a small heap of two mutators with its passes and its books. Each of its calls leaves it as the next one
//! wants it; the rows of `rows.rt` put them together, one part after the other, from the heap's start to its close.
//! Between two parts the freeze code runs over the words.
//!
//! It may touch the heap and its collector, and knows no mutator of `tide_mutator`, no thread and no program: `checks`
//! calls it for the lines of its input that begin with `table`:
//!
//! - `part`: two mutators begin a part, work, retire and stop; it is frozen and closed.
//! - `parts`: the same after a part in which nobody makes a call, and a whole cycle.
//! - `calls`: the same, but that the mutators work in the first part, and retire in the second one.
//! - `chain FACTS SMALL LARGE`: the heap that the text FACTS says is stored over a frozen heap, and marked in two
//!   pauses within these budgets.
//! - `freezes`: the freeze code runs twice over a frozen heap, with nothing due and then forced.
#![tactic(auto)]

mod callers;
mod chains;
mod pacing;
mod pair;
// these stand on those listed before
mod freezing;
mod starting;
mod working;
// these stand on those listed before
mod pairs;
mod rows;
mod standing;
// these stand on those listed before
mod telling;

use check_heap::number;
use std::alloc::{AllocError, Global};
use telling::{tell_calls, tell_chain, tell_freezes, tell_part, tell_parts};

/// Makes the check of one word.
fn check_alone(alloc: Global, findings: &mut String, what: &str) -> Result<bool, AllocError> {
    match what {
        "part" => tell_part(alloc, findings),
        "parts" => tell_parts(alloc, findings),
        "calls" => tell_calls(alloc, findings),
        "freezes" => tell_freezes(alloc, findings),
        _ => Ok(false),
    }
}

/// Makes the check of a chain.
fn check_chain(
    alloc: Global,
    findings: &mut String,
    facts: &str,
    budgets: [&str; 2],
) -> Result<bool, AllocError> {
    let [small, large] = budgets;
    match (number(small), number(large)) {
        (Some(small), Some(large)) => tell_chain(alloc, findings, facts, [small, large]),
        _ => Ok(false),
    }
}

/// Makes the check that words say, and answers whether it could be made.
pub fn check_table(
    alloc: Global,
    findings: &mut String,
    words: &[&str],
) -> Result<bool, AllocError> {
    match words {
        [what] => check_alone(alloc, findings, what),
        ["chain", facts, small, large] => check_chain(alloc, findings, facts, [small, large]),
        _ => Ok(false),
    }
}
