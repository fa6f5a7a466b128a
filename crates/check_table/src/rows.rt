//! Rows of parts of two mutators, from the start of a heap to its close. It prints nothing.
ghost use Rattle.std.specs.Prelude.{false, IfSome};
ghost use Rattle.check_table.specs.callers.Working.{put_calls};
ghost use Rattle.check_table.specs.Pairs.{no_calls, HasOpened, HasStarted, HaveCalled, IsClosedOf};

use crate::pair::Pair;
use crate::starting::start_pair;
use crate::working::LoadedWords;
use std::alloc::Global;
use tide_heap::Report;
use tide_model::Memory;
use tide_shape::Shapes;
use tide_table::{Closed, Numbers};

/// What one mutator told of a part: its number, as its ticket has it, what it found, and its note.
#[derive(Clone, Copy)]
pub struct PartTold {
    pub period: u32,
    pub found: LoadedWords,
    pub note: Numbers,
}

/// What both mutators told of their last part, and of one before it where they made calls there, and what their heap
/// left.
#[derive(Drop)]
pub struct PairRun {
    pub first: Option<[PartTold; 2]>,
    pub last: [PartTold; 2],
    pub closed: Closed<Shapes>,
    pub report: Report,
}

/// What both told.
fn both_told(periods: [u32; 2], found: [LoadedWords; 2], notes: [Numbers; 2]) -> [PartTold; 2] {
    let ([one, other], [first, second], [early, late]) = (periods, found, notes);
    [
        PartTold {
            period: one,
            found: first,
            note: early,
        },
        PartTold {
            period: other,
            found: second,
            note: late,
        },
    ]
}

/// The last part, in which both mutators work and retire, and the close.
fn work_and_close(mut pair: Pair) -> PairRun
    requires opened { HasOpened pair }
    requires calls { HaveCalled no_calls false pair }
    ensures closed { IsClosedOf pair.heap result.closed }
{
    let periods = pair.begin();
    pair.put();
    let found = pair.look();
    pair.leave();
    let last = both_told(periods, found, pair.stop());
    let (closed, report) = pair.close();
    PairRun {
        first: None,
        last,
        closed,
        report,
    }
}

/// The last part, in which both mutators look at what they have and retire, and the close.
fn leave_and_close(mut pair: Pair, first: [PartTold; 2]) -> PairRun
    requires opened { HasOpened pair }
    requires calls { HaveCalled put_calls false pair }
    ensures closed { IsClosedOf pair.heap result.closed }
{
    let periods = pair.begin();
    let found = pair.look();
    pair.leave();
    let last = both_told(periods, found, pair.stop());
    let (closed, report) = pair.close();
    PairRun {
        first: Some(first),
        last,
        closed,
        report,
    }
}

/// One part, in which both mutators work and retire.
fn run_one(mut pair: Pair) -> PairRun
    requires started { HasStarted pair }
    ensures closed { IsClosedOf pair.heap result.closed }
{
    pair.open(5);
    work_and_close(pair)
}

/// The same after a part in which nobody makes a call, and a whole cycle.
fn run_two(mut pair: Pair) -> Option<PairRun>
    requires started { HasStarted pair }
    ensures closed { IfSome result (λ ran. IsClosedOf pair.heap ran.closed) }
{
    pair.open(5);
    pair.begin();
    pair.stop();
    let Ok(()) = pair.next() else {
        return None;
    };
    Some(work_and_close(pair))
}

/// Two parts and a whole cycle between them: both mutators work in the first one, and retire in the second one.
fn run_calls(mut pair: Pair) -> Option<PairRun>
    requires started { HasStarted pair }
    ensures closed { IfSome result (λ ran. IsClosedOf pair.heap ran.closed) }
{
    pair.open(5);
    let periods = pair.begin();
    pair.put();
    let found = pair.look();
    let first = both_told(periods, found, pair.stop());
    let Ok(()) = pair.next() else {
        return None;
    };
    Some(leave_and_close(pair, first))
}

/// Runs one part of two mutators on a small heap.
pub fn one_part(alloc: Global) -> Result<Option<PairRun>, Memory> {
    match start_pair(alloc)? {
        Some(pair) => Ok(Some(run_one(pair))),
        None => Ok(None),
    }
}

/// Runs two parts on a small heap, and a whole cycle between them. All calls are made in the second one.
pub fn two_parts(alloc: Global) -> Result<Option<PairRun>, Memory> {
    match start_pair(alloc)? {
        Some(pair) => Ok(run_two(pair)),
        None => Ok(None),
    }
}

/// Runs two parts on a small heap, and a whole cycle between them. There are calls in both.
pub fn called_parts(alloc: Global) -> Result<Option<PairRun>, Memory> {
    match start_pair(alloc)? {
        Some(pair) => Ok(run_calls(pair)),
        None => Ok(None),
    }
}
