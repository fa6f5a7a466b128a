//! What one run of a constraint over the largest layout takes: of `Groups` and of `Ephemerons`, over the same words.
//!
//! All cells are live, a fifth of them tables without pairs. The times go to the error output, since no two are the
//! same.
ghost use Rattle.std.specs.Prelude.{◌<◌, length};

use crate::marking::bench::{cycle_marks, list_of};
use check_heap::{Draw, Heap, number};
use std::alloc::{AllocError, Global};
use std::io;
use std::io::Eprint;
use std::time::{Clock, Duration, Instant};
use tide_ephemeron::Ephemerons;
use tide_groups::Groups;
use tide_layout::{Layout, Region};
use tide_words::{Colour, Constraint, colour_word, phase_word};

/// The cycle that marks.
const CYCLE: u64 = 1;

/// How many cells the largest layout of a workload has.
const CELLS: u32 = 20_480;

/// The first of them that is a table.
const TABLES: u32 = 16_384;

/// For each factor that `Groups` tries alone, a number whose multiples nearly all have one slot for their own.
const CROWDED: [u64; 3] = [81_007, 18_456, 7_037];

/// Which cells are in groups together.
#[derive(Clone, Copy, PartialEq, Eq)]
enum Grouping {
    Alone,
    /// All.
    Together,
    /// Each cell with the one beside it.
    Beside,
    /// Each cell with one half the heap away.
    Apart,
    /// Each cell with one that was drawn.
    Drawn,
    /// Each cell with the one beside it, in groups whose numbers crowd by the first factor of `Groups`.
    Crowded,
    /// Each cell with the one beside it, in groups of which some crowd by each factor that it tries alone.
    Worst,
}

/// Which cells are marked before a run.
#[derive(Clone, Copy)]
enum Marks {
    Nothing,
    /// One of each 130.
    Few,
    /// One of each two.
    Half,
    /// One of each two that is no table.
    HalfButTables,
    All,
}

/// The groups of a name.
fn grouping_of(kind: &str) -> Option<Grouping> {
    match kind {
        "alone" => Some(Grouping::Alone),
        "together" => Some(Grouping::Together),
        "beside" => Some(Grouping::Beside),
        "apart" => Some(Grouping::Apart),
        "drawn" => Some(Grouping::Drawn),
        "crowded" => Some(Grouping::Crowded),
        "worst" => Some(Grouping::Worst),
        _ => None,
    }
}

/// The marks of a name.
fn marks_of(kind: &str) -> Option<Marks> {
    match kind {
        "nothing" => Some(Marks::Nothing),
        "few" => Some(Marks::Few),
        "half" => Some(Marks::Half),
        "cells" => Some(Marks::HalfButTables),
        "all" => Some(Marks::All),
        _ => None,
    }
}

/// A heap, its cells in the order in which two and two are in groups together, and which are marked before a run.
#[derive(Drop)]
struct Runs {
    heap: Heap,
    cells: Vec<u32>,
    grouping: Grouping,
    marks: Marks,
}

/// The cells in the order of their numbers, or for groups of cells far apart one of each half in turn.
fn cells_in_turn(alloc: Global, grouping: Grouping) -> Result<Vec<u32>, AllocError> {
    let mut cells = Vec::new(alloc);
    for at in 0..CELLS {
        let is_behind = (at / 2 + at) % 2 == 1;
        cells.push(match grouping {
            Grouping::Apart if is_behind => at / 2 + CELLS / 2,
            Grouping::Apart => at / 2,
            _ => at,
        })?;
    }
    Ok(cells)
}

/// Puts cells into an order that is drawn.
fn shuffle(cells: &mut [u32]) {
    let mut draw = Draw::new(1);
    for at in 0..cells.len() {
        let other = draw.below(CELLS) as usize;
        if other < cells.len() {
            cells.swap(at, other);
        }
    }
}

/// Whether the cell at a place is marked before a run.
fn is_marked_at(cells: &[u32], at: usize, marks: Marks) -> bool
    requires { at < length cells.now }
{
    match marks {
        Marks::Nothing => false,
        Marks::Few => at % 130 == 0,
        Marks::Half => at % 2 == 0,
        Marks::HalfButTables => { cells[at] < TABLES && (at % 2 == 0 || cells[at - 1] >= TABLES) }
        Marks::All => true,
    }
}

/// Marks the cells that are marked before a run, and no others, and answers how many these are.
fn set_marks(heap: &mut Heap, cells: &[u32], marks: Marks) -> usize {
    let mut count = 0;
    for at in 0..cells.len() {
        let mut word = 0;
        if is_marked_at(cells, at, marks) {
            word = colour_word(CYCLE, Colour::Grey);
            count += 1;
        }
        heap.set(Region::Colour, cells[at], word);
    }
    count
}

impl Runs {
    /// A heap whose cells are all live, in these groups.
    fn new(alloc: Global, grouping: Grouping, marks: Marks) -> Result<Self, AllocError> {
        let layout = Layout::new([64; 5], [0; 5], 0, 0, 0, 1, 0);
        let mut heap = Heap::new(alloc, layout)?;
        heap.set(Region::Phase, 0, phase_word(CYCLE, true));
        let mut cells = cells_in_turn(alloc, grouping)?;
        if grouping == Grouping::Drawn {
            shuffle(cells.as_mut_slice());
        }
        for at in 0..cells.len() {
            let cell = cells[at];
            let number = match grouping {
                Grouping::Alone => 0,
                Grouping::Together => 1,
                Grouping::Crowded => (at as u64 / 2 % 10_240 + 1) * CROWDED[0],
                Grouping::Worst => (at as u64 / 6 % 10_240 + 1) * CROWDED[at / 2 % 3],
                _ => at as u64 / 2 + 1,
            };
            heap.take_cell(cell);
            heap.set(Region::Group, cell, number);
        }
        Ok(Runs {
            heap,
            cells,
            grouping,
            marks,
        })
    }

    /// How many group mates of so many marked cells are to be marked.
    fn unmarked_group_mates(&self, count: usize) -> usize {
        match (self.grouping, self.marks) {
            (Grouping::Alone, _) | (_, Marks::Nothing | Marks::All) => 0,
            (Grouping::Together, _) => self.cells.len().saturating_sub(count),
            _ => count,
        }
    }
}

/// Runs a constraint once beside a list that holds one cell. Answers how many cells it marked and how long it took.
fn time_run<R: Clock, C: Constraint>(
    rt: &R,
    alloc: Global,
    heap: &mut Heap,
    constraint: &C,
) -> io::Result<Option<(u32, Duration)>> {
    if !cycle_marks(heap) {
        return Ok(None);
    }
    let mut list = list_of(alloc, &heap.layout, 0)?;
    let start = Instant::now(rt)?;
    let count = constraint.run(&mut heap.words, &heap.layout, &mut list);
    Ok(Some((count, start.elapsed(rt)?)))
}

/// The least time that a constraint took in so many runs, each of which marks so many cells, or `None` where one
/// doesn't.
fn least_time<R: Clock, C: Constraint>(
    rt: &R,
    alloc: Global,
    runs: &mut Runs,
    times: u32,
    constraint: &C,
    finds: usize,
) -> io::Result<Option<Duration>> {
    let mut least = Duration::MAX;
    for _time in 0..times {
        set_marks(&mut runs.heap, runs.cells.as_slice(), runs.marks);
        match time_run(rt, alloc, &mut runs.heap, constraint)? {
            Some((count, took)) if count as usize == finds => least = least.min(took),
            _ => return Ok(None),
        }
    }
    Ok(Some(least))
}

/// The least times of so many runs of `Groups` and of `Ephemerons` over the same words, where each marks what it
/// should.
fn least_times<R: Clock>(
    rt: &R,
    alloc: Global,
    grouping: Grouping,
    marks: Marks,
    times: u32,
) -> io::Result<Option<(Duration, Duration)>> {
    let mut runs = Runs::new(alloc, grouping, marks)?;
    let count = set_marks(&mut runs.heap, runs.cells.as_slice(), runs.marks);
    let group_mates = runs.unmarked_group_mates(count);
    let groups = least_time(rt, alloc, &mut runs, times, &Groups, group_mates)?;
    let pairs = least_time(rt, alloc, &mut runs, times, &Ephemerons, 0)?;
    match (groups, pairs) {
        (Some(groups), Some(pairs)) => Ok(Some((groups, pairs))),
        _ => Ok(None),
    }
}

/// Tells the least times of so many runs. Answers whether the words say such runs, each of which marked what it should.
pub fn time_runs<R: Clock + Eprint>(
    rt: &R,
    alloc: Global,
    kind: &str,
    marked: &str,
    times: &str,
) -> io::Result<bool> {
    let named = (grouping_of(kind), marks_of(marked), number(times));
    let (Some(grouping), Some(marks), Some(times)) = named else {
        return Ok(false);
    };
    let Some((groups, pairs)) = least_times(rt, alloc, grouping, marks, times)? else {
        return Ok(false);
    };
    let (groups, pairs) = (groups.as_nanos(), pairs.as_nanos());
    eprintln!(rt; "{kind} {marked} {groups} {pairs}")?;
    Ok(true)
}
