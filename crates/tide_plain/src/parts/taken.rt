//! Which of so many numbers are taken, and the lowest of a span that isn't. It knows no cell and no array.
ghost use Rattle.std.specs.Prelude.{◌≡◌, ◌<◌, ◌≤◌, ℕ, true, false, length, replicate, slice_set, IfOk, IfNone, IfSome};
ghost use Rattle.std.specs.List.{slice_index_or};
ghost use Rattle.tide_plain.specs.parts.Taken.{AreRuns};

use std::alloc::Global;
use std::marker::Model;
use tide_model::Memory;

/// How many numbers share what is known of where a run of taken ones ends.
const SPAN: usize = 64;

/// Whether a number has a flag; one past the end has none.
pub fn is_flagged(flags: &[bool], number: usize) -> bool
    ensures { result ≡ slice_index_or flags.now number false }
{
    match flags.get(number) {
        Some(flag) => *flag,
        None => false,
    }
}

/// Where the taken numbers from this one on end, at the latest a span further.
fn run_end(flags: &[bool], from: usize) -> usize
    ensures { (number : ℕ) → from ≤ number → number < result → slice_index_or flags.now number false ≡ true }
{
    let end = from.saturating_add(SPAN);
    let mut number = from;
    while number < end && is_flagged(flags, number) {
        number += 1;
    }
    number
}

/// Finds where the run ends that begins each span.
fn find_runs(flags: &[bool], runs: &mut [usize])
    ensures { AreRuns flags.now runs.new }
{
    for span in 0..runs.len() {
        runs[span] = run_end(flags, span.saturating_mul(SPAN));
    }
}

/// Follows the run that begins the span of a number as far as it is taken now.
fn follow_run(flags: &[bool], runs: &mut [usize], number: usize)
    requires { AreRuns flags.now runs.old }
    ensures { AreRuns flags.now runs.new }
{
    let span = number / SPAN;
    if span < runs.len() {
        let known = runs[span].max(span * SPAN);
        runs[span] = run_end(flags, known);
    }
}

/// Which of so many numbers are taken. Contracts see the flags, number by number.
#[derive(Drop)]
pub struct Taken {
    flags: Vec<bool>,
    /// Of each span where the run of taken numbers ends that begins it. A search for a free number passes over them.
    runs: Vec<usize>,
}

impl Model for Taken {
    ghost use Rattle.std.specs.Prelude.{Bool, List};
    ghost use Rattle.tide_plain.specs.parts.Taken.{AreRuns};

    ghost Value = { List Bool };

    ghost view = { λ part. part.flags.items };

    ghost invariant = { λ part. AreRuns part.flags.items part.runs.items };
}

impl Taken {
    /// So many numbers, none of which is taken.
    pub fn new(alloc: Global, count: usize) -> Result<Taken, Memory>
        ensures { IfOk result (λ new. new ≡ replicate count false) }
    {
        let flags = vec![in alloc; false; count]?;
        let runs = vec![in alloc; 0usize; count / SPAN + 1]?;
        Ok(Taken { flags, runs })
    }

    /// Whether a number is taken; one past the end isn't.
    pub fn is_taken(&self, number: u32) -> bool
        ensures { result ≡ slice_index_or self.now number false }
    {
        is_flagged(self.flags.as_slice(), number as usize)
    }

    /// Takes a number.
    pub fn take(&mut self, number: u32)
        requires { number < length self.old }
        ensures { self.new ≡ slice_set self.old number true }
    {
        let place = number as usize;
        self.flags[place] = true;
        follow_run(self.flags.as_slice(), self.runs.as_mut_slice(), place);
    }

    /// Exactly the numbers with a flag are taken now.
    pub fn replace(&mut self, flags: Vec<bool>)
        ensures { self.new ≡ flags.items }
    {
        find_runs(flags.as_slice(), self.runs.as_mut_slice());
        self.flags = flags;
    }

    /// Where a run of taken numbers ends in which this one lies, or no further than it where no such run is known.
    fn run_at(&self, number: usize) -> usize
        ensures { (other : ℕ) → number ≤ other → other < result → slice_index_or self.now other false ≡ true }
    {
        match self.runs.get(number / SPAN) {
            Some(run) => *run,
            None => 0,
        }
    }

    /// The lowest number from the first one on and below the end that isn't taken.
    pub fn lowest_free(&self, first: u32, end: u32) -> Option<u32>
        ensures from { IfSome result (λ found. first ≤ found) }
        ensures below { IfSome result (λ found. found < end) }
        ensures free { IfSome result (λ found. slice_index_or self.now found false ≡ false) }
        ensures lowest { IfSome result (λ found. (number : ℕ) → first ≤ number → number < found →
            slice_index_or self.now number false ≡ true) }
        ensures full { IfNone result ((number : ℕ) → first ≤ number → number < end →
            slice_index_or self.now number false ≡ true) }
    {
        let mut number = first as usize;
        while number < end as usize {
            let run = self.run_at(number);
            if number < run {
                number = run;
            } else if is_flagged(self.flags.as_slice(), number) {
                number += 1;
            } else {
                return Some(number as u32);
            }
        }
        None
    }
}
