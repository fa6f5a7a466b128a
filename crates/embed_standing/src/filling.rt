//! A host whose heap runs full: its thread is told so only once a full cycle has run. Who watches is told of each cycle.

use std::alloc::Global;
use std::marker::Sync;
use std::sync::Wait;
use std::thread::Threads;
use tide::{Host, Paths, Report, Sizes, Src, Stats, Stop, Thread};

/// Makes so many cells, each with a reference of the one before, and keeps the last one in register 0.
fn chain<R: Wait>(rt: &R, thread: &mut Thread<'_, '_>, cells: u32) -> Result<(), Stop> {
    for _ in 0..cells {
        thread.new_cell(rt, 1, 0)?;
        thread.put(rt, 1, 1, Src::Reg(0))?;
        thread.set(rt, 0, Src::Reg(1))?;
    }
    Ok(())
}

/// Makes so many cells, lets them go, and fills the heap with others. Says how the first ones ended.
fn fill<R: Wait>(rt: &R, thread: &mut Thread<'_, '_>, cells: u32) -> Result<(), Stop> {
    let filled = chain(rt, thread, cells);
    thread.set(rt, 0, Src::Empty)?;
    thread.set(rt, 1, Src::Empty)?;
    chain(rt, thread, 64)?;
    filled
}

/// A heap of 64 cells, in which a cycle runs only where one is asked for, or room is wanting.
fn sizes() -> Sizes {
    Sizes {
        cells: [1, 0, 0, 0, 0],
        arrays: [0, 0, 0, 0, 0],
        registers: 2,
        stack: 0,
        strong: 0,
        weak: 0,
        members: 1,
        helpers: 0,
        calls: 65_536,
        visits: 65_536,
        headroom: 1_000_000,
        trigger: 0,
    }
}

/// How a run went: how a thread's first cells ended, the run's numbers, and what was told behind each part.
#[derive(Clone, Copy)]
struct Went {
    filled: Result<(), Stop>,
    stats: Stats,
    told: u32,
    freed: u32,
}

/// A thread makes so many cells and goes on.
fn run<R: Threads + Wait + Sync>(rt: &R, alloc: Global, cells: u32) -> Option<Went> {
    let Ok(host) = Host::open(alloc, sizes(), &Paths::new(alloc)) else {
        return None;
    };
    let play = |thread: &mut Thread<'_, '_>| fill(rt, thread, cells);
    let (mut told, mut freed) = (0u32, 0u32);
    let watch = |report: &Report| {
        told = told.saturating_add(1);
        for line in report.cycles() {
            freed = freed.saturating_add(line.freed);
        }
    };
    let Ok((ran, _)) = host.run_and_watch(rt, alloc, &play, watch) else {
        return None;
    };
    Some(Went {
        filled: *ran.answers.first()?,
        stats: ran.stats,
        told,
        freed,
    })
}

/// Whether so many parts were told of, with so many births: each ended with a full cycle, no cell is left of the one
/// block, and all that was freed was told.
fn has_told(went: &Went, parts: u32, born: u64) -> bool {
    let all = (u64::from(parts), u64::from(parts), 0, born, 128);
    let stats = &went.stats;
    (went.told, went.freed) == (parts, 128)
        && (
            stats.parts,
            stats.full_cycles,
            stats.eden_cycles,
            stats.born,
            stats.freed,
        ) == all
        && (stats.live, stats.free) == ([0; 5], [64, 0, 0, 0, 0])
}

/// A thread fills the heap, and fills it again once it has let all go: a cycle runs between, and one when it has left.
/// Where it asks for a cell too many it is told that the heap is full, and one cycle more has run before, which freed none.
pub fn full_is_told_behind_a_cycle<R: Threads + Wait + Sync>(
    rt: &R,
    alloc: Global,
) -> Option<bool> {
    let filled = run(rt, alloc, 64)?;
    let is_filled = filled.filled == Ok(()) && has_told(&filled, 2, 128);
    let refused = run(rt, alloc, 65)?;
    let is_refused = refused.filled == Err(Stop::Full { class: 0 });
    Some(is_filled && is_refused && has_told(&refused, 3, 128))
}
