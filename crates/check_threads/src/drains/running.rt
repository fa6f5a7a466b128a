//! The part in which a visitor drains beside a mutator, the freeze after it, and what is left then. It judges nothing.
ghost use Rattle.check_threads.specs.drains.Parts.{IsNoteOf, IsOpen};
ghost use Rattle.embed_heap.specs.visitor.Parts.{HasDoneItsPart, IsIdleBefore};
ghost use Rattle.std.specs.Prelude.{◌≡◌, ◌≤◌, true, false};
ghost use Rattle.tide_heap.specs.Parties.{In};
ghost use Rattle.tide_model.specs.Layout.{cell_count};
ghost use Rattle.tide_mutator.specs.calls.Viewed.{table_of as mutator_table_of, view_of as mutator_view_of};
ghost use Rattle.tide_visitor.specs.Viewed.{stack_room_of, table_of, view_of};

use crate::drains::copying::copied;
use crate::drains::parts::{Drain, DrainedPart, visit};
use crate::drains::plan::Plan;
use crate::drains::sharing::share;
use check_heap::Heap as Copy;
use embed_heap::{MutatorAfterPart, Shared, make_calls};
use std::alloc::{AllocError, Global};
use std::marker::Sync;
use std::thread::{Threads, join};
use tide_model::Turnstile;
use tide_mutator::Mutator;
use tide_shape::Shapes;
use tide_table::{Collector, Heap, Ticket};
use tide_visitor::Visitor;

/// What a visitor told of its part.
#[derive(Drop)]
pub struct VisitorOutcome {
    /// How each drain ended, if there was memory to note it.
    pub drains: Result<Vec<Drain>, AllocError>,
    pub deferred: u32,
    /// How many visits its note tells, and whether it tells that the part is done.
    pub visits: u32,
    pub is_done: bool,
}

/// What a visitor told, and a copy of the words as all had stopped.
#[derive(Drop)]
pub struct DrainRun {
    pub told: VisitorOutcome,
    pub words: Copy,
}

/// The mutator makes its part, and then the visitor.
fn run_apart<T: Turnstile>(
    alloc: Global,
    heap: &Heap<Shapes>,
    mutator: Mutator,
    visitor: Visitor,
    tickets: (Ticket, Ticket),
    plan: &Plan,
    turnstile: &T,
) -> (MutatorAfterPart, DrainedPart)
    requires own { (mutator_table_of mutator ≡ heap.now.table.shared.table_id)
        × (table_of visitor ≡ heap.now.table.shared.table_id) }
    requires of_heap { (tickets.0.seat.table_id ≡ heap.now.table.shared.table_id)
        × (tickets.1.seat.table_id ≡ heap.now.table.shared.table_id) }
    requires two { (heap.now.key.layout.mutators ≡ 1) × (heap.now.key.layout.visitors ≡ 1) }
    requires marks { tickets.1.seat.me.0.marks ≡ true }
    requires idle { IsIdleBefore 0 tickets.0.seat.me.0.period (mutator_view_of mutator)
        × IsIdleBefore 16 tickets.1.seat.me.0.period (view_of visitor) }
    requires room { cell_count heap.now.key.layout ≤ stack_room_of visitor }
    ensures of_heap { (result.0.note.seat.table_id ≡ heap.now.table.shared.table_id)
        × (result.1.note.seat.table_id ≡ heap.now.table.shared.table_id) }
    ensures notes { HasDoneItsPart 0 tickets.0.seat.me.0 result.0.note.seat.me.0
        × IsNoteOf 16 tickets.1.seat.me.0.period result.1.note.seat.me.0 }
{
    let (first, second) = tickets;
    let worked = make_calls(heap, mutator, first, plan.beside.as_slice(), turnstile);
    let budgets = plan.drains.as_slice();
    (
        worked,
        visit(alloc, heap, visitor, second, budgets, turnstile),
    )
}

/// The mutator and the visitor make their parts in a thread each.
fn run_together<R: Threads + Sync, T: Turnstile>(
    rt: &R,
    alloc: Global,
    heap: &Heap<Shapes>,
    mutator: Mutator,
    visitor: Visitor,
    tickets: (Ticket, Ticket),
    plan: &Plan,
    turnstile: &T,
) -> (MutatorAfterPart, DrainedPart)
    requires own { (mutator_table_of mutator ≡ heap.now.table.shared.table_id)
        × (table_of visitor ≡ heap.now.table.shared.table_id) }
    requires of_heap { (tickets.0.seat.table_id ≡ heap.now.table.shared.table_id)
        × (tickets.1.seat.table_id ≡ heap.now.table.shared.table_id) }
    requires two { (heap.now.key.layout.mutators ≡ 1) × (heap.now.key.layout.visitors ≡ 1) }
    requires marks { tickets.1.seat.me.0.marks ≡ true }
    requires idle { IsIdleBefore 0 tickets.0.seat.me.0.period (mutator_view_of mutator)
        × IsIdleBefore 16 tickets.1.seat.me.0.period (view_of visitor) }
    requires room { cell_count heap.now.key.layout ≤ stack_room_of visitor }
    ensures of_heap { (result.0.note.seat.table_id ≡ heap.now.table.shared.table_id)
        × (result.1.note.seat.table_id ≡ heap.now.table.shared.table_id) }
    ensures notes { HasDoneItsPart 0 tickets.0.seat.me.0 result.0.note.seat.me.0
        × IsNoteOf 16 tickets.1.seat.me.0.period result.1.note.seat.me.0 }
{
    let (first, second) = tickets;
    let (ops, budgets) = (plan.beside.as_slice(), plan.drains.as_slice());
    join(
        rt,
        || -> MutatorAfterPart
            requires { (mutator_table_of mutator ≡ heap.now.table.shared.table_id)
                × (first.seat.table_id ≡ heap.now.table.shared.table_id)
                × (heap.now.key.layout.mutators ≡ 1)
                × IsIdleBefore 0 first.seat.me.0.period (mutator_view_of mutator) }
            ensures { (result.note.seat.table_id ≡ heap.entry.now.table.shared.table_id)
                × HasDoneItsPart 0 first.seat.me.0 result.note.seat.me.0 }
        { make_calls(heap, mutator, first, ops, turnstile) },
        || -> DrainedPart
            requires { (table_of visitor ≡ heap.now.table.shared.table_id)
                × (second.seat.table_id ≡ heap.now.table.shared.table_id)
                × (heap.now.key.layout.visitors ≡ 1)
                × (second.seat.me.0.marks ≡ true)
                × IsIdleBefore 16 second.seat.me.0.period (view_of visitor)
                × (cell_count heap.now.key.layout ≤ stack_room_of visitor) }
            ensures { (result.note.seat.table_id ≡ heap.entry.now.table.shared.table_id)
                × IsNoteOf 16 second.seat.me.0.period result.note.seat.me.0 }
        { visit(alloc, heap, visitor, second, budgets, turnstile) },
    )
}

/// The mutator and the visitor make their parts, one after the other or in a thread each.
fn run_both<R: Threads + Sync>(
    rt: &R,
    alloc: Global,
    heap: &Heap<Shapes>,
    mutator: Mutator,
    visitor: Visitor,
    tickets: (Ticket, Ticket),
    plan: &Plan,
    is_together: bool,
) -> (MutatorAfterPart, DrainedPart)
    requires own { (mutator_table_of mutator ≡ heap.now.table.shared.table_id)
        × (table_of visitor ≡ heap.now.table.shared.table_id) }
    requires of_heap { (tickets.0.seat.table_id ≡ heap.now.table.shared.table_id)
        × (tickets.1.seat.table_id ≡ heap.now.table.shared.table_id) }
    requires two { (heap.now.key.layout.mutators ≡ 1) × (heap.now.key.layout.visitors ≡ 1) }
    requires marks { tickets.1.seat.me.0.marks ≡ true }
    requires idle { IsIdleBefore 0 tickets.0.seat.me.0.period (mutator_view_of mutator)
        × IsIdleBefore 16 tickets.1.seat.me.0.period (view_of visitor) }
    requires room { cell_count heap.now.key.layout ≤ stack_room_of visitor }
    ensures of_heap { (result.0.note.seat.table_id ≡ heap.now.table.shared.table_id)
        × (result.1.note.seat.table_id ≡ heap.now.table.shared.table_id) }
    ensures notes { HasDoneItsPart 0 tickets.0.seat.me.0 result.0.note.seat.me.0
        × IsNoteOf 16 tickets.1.seat.me.0.period result.1.note.seat.me.0 }
{
    let turnstile = plan.turnstile(heap);
    if is_together {
        run_together(rt, alloc, heap, mutator, visitor, tickets, plan, &turnstile)
    } else {
        run_apart(alloc, heap, mutator, visitor, tickets, plan, &turnstile)
    }
}

/// Runs the second part, and takes both notes in. Answers how each drain ended, and what the visitor told.
fn run_part<R: Threads + Sync>(
    rt: &R,
    alloc: Global,
    heap: &Heap<Shapes>,
    collector: &mut Collector,
    mutator: Mutator,
    visitor: Visitor,
    plan: &Plan,
    is_together: bool,
) -> VisitorOutcome
    requires own { collector.old.seat.table_id ≡ heap.now.table.shared.table_id }
    requires of_heap { (mutator_table_of mutator ≡ heap.now.table.shared.table_id)
        × (table_of visitor ≡ heap.now.table.shared.table_id) }
    requires two { (heap.now.key.layout.mutators ≡ 1) × (heap.now.key.layout.visitors ≡ 1) }
    requires running { collector.old.seat.me.0.frozen ≡ false }
    requires marks { collector.old.seat.me.0.marks ≡ true }
    requires mutator { IsIdleBefore 0 collector.old.seat.me.0.period (mutator_view_of mutator) }
    requires visitor { IsIdleBefore 16 collector.old.seat.me.0.period (view_of visitor) }
    requires room { cell_count heap.now.key.layout ≤ stack_room_of visitor }
    ensures same { collector.new.seat.table_id ≡ collector.old.seat.table_id }
    ensures running { collector.new.seat.me.0.frozen ≡ false }
    ensures both { In 0 collector.new.seat.me.0.notes × In 16 collector.new.seat.me.0.notes }
{
    let first = collector.ticket(heap);
    let second = collector.ticket(heap);
    let tickets = (first, second);
    let (worked, visited) = run_both(
        rt,
        alloc,
        heap,
        mutator,
        visitor,
        tickets,
        plan,
        is_together,
    );
    let told = VisitorOutcome {
        drains: visited.drains,
        deferred: visited.deferred,
        visits: visited.note.numbers().visits,
        is_done: visited.note.done(),
    };
    collector.take(heap, worked.note);
    collector.take(heap, visited.note);
    told
}

/// Runs the second part, and freezes after it.
fn finish<R: Threads + Sync>(
    rt: &R,
    alloc: Global,
    shared: Shared,
    plan: &Plan,
    is_together: bool,
) -> Result<DrainRun, AllocError>
    requires opened { IsOpen shared }
{
    let Shared {
        heap,
        mut collector,
        mutator,
        visitor,
        books: _,
    } = shared;
    let told = run_part(
        rt,
        alloc,
        &heap,
        &mut collector,
        mutator,
        visitor,
        plan,
        is_together,
    );
    let mut frozen = collector.freeze(&heap);
    let words = copied(alloc, &mut frozen, heap.layout())?;
    Ok(DrainRun { told, words })
}

/// Runs what a plan says, with so many calls of the mutator in the second part, apart or in two threads.
pub fn run<R: Threads + Sync>(
    rt: &R,
    alloc: Global,
    plan: &Plan,
    run: u32,
    is_together: bool,
) -> Result<Option<DrainRun>, AllocError> {
    match share(rt, alloc, plan, run)? {
        Some(shared) => Ok(Some(finish(rt, alloc, shared, plan, is_together)?)),
        None => Ok(None),
    }
}
