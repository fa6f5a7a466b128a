//! A row's heap up to the part in which a cycle marks. It drains nothing.
ghost use Rattle.check_threads.specs.drains.Parts.{IsOpen};
ghost use Rattle.embed_heap.specs.visitor.Shares.{HasStarted, HaveStopped};
ghost use Rattle.std.specs.Prelude.{◌≡◌, IfOk, IfSome};

use crate::drains::freezing::{begin_cycle, open_next};
use crate::drains::plan::Plan;
use check_words::shapes_from;
use embed_heap::{Shared, start};
use std::alloc::{AllocError, Global};
use std::marker::Sync;
use std::thread::Threads;
use tide_heap::Solved;

/// Begins a cycle, whose first pause is to leave grey cells for the visitor, and opens the second part.
fn open_second(shared: &mut Shared, budget: u32, run: u32) -> Option<()>
    requires stopped { HaveStopped shared.old }
    requires unvisited { shared.old.collector.seat.me.0.visits_told ≡ 0 }
    ensures opened { IfSome result (λ _. IsOpen shared.new) }
{
    let heap = &shared.heap;
    let solved = begin_cycle(heap, &mut shared.collector, &mut shared.books.greys, budget)?;
    if let Solved::Converged { .. } = solved {
        return None;
    }
    if run == 0 {
        return None;
    }
    let Ok(()) = open_next(heap, &mut shared.collector, run) else {
        return None;
    };
    Some(())
}

/// Runs the first part, in which no cycle marks and so nobody visits, begins a cycle, and opens the second part.
fn run_first<R: Threads + Sync>(rt: &R, mut shared: Shared, plan: &Plan, run: u32) -> Option<Shared>
    requires started { HasStarted shared }
    ensures opened { IfSome result IsOpen }
{
    shared.open();
    let first = shared.run_part(rt, plan.before.as_slice());
    if first.visits != 0 {
        return None;
    }
    let mut shared = first.shared;
    open_second(&mut shared, plan.budget, run)?;
    Some(shared)
}

/// A heap whose second part is open, in which a mutator has so many calls, and in which a cycle marks. `None` where the
/// paths aren't some of shapes, the mutator is to have no calls, or the cycle's first pause leaves nothing grey.
pub fn share<R: Threads + Sync>(
    rt: &R,
    alloc: Global,
    plan: &Plan,
    run: u32,
) -> Result<Option<Shared>, AllocError>
    ensures opened { IfOk result (λ o. IfSome o IsOpen) }
{
    let Ok(shapes) = shapes_from(alloc, plan.paths.as_slice())? else {
        return Ok(None);
    };
    match start(alloc, shapes) {
        Ok(Some(shared)) => Ok(run_first(rt, shared, plan, run)),
        Ok(None) => Ok(None),
        Err(_) => Err(AllocError),
    }
}
