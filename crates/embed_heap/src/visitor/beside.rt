//! The part of a mutator and a visitor, each in a thread of its own.
ghost use Rattle.tide.specs.Parts.{HasDoneItsPart, IsIdle, IsIdleBefore};
ghost use Rattle.std.specs.Prelude.{◌≡◌, ◌≤◌};
ghost use Rattle.tide.specs.tide_model.Layout.{cell_count};
ghost use Rattle.tide.specs.tide_mutator.calls.Viewed as works;
ghost use Rattle.tide.specs.tide_visitor.Viewed as visits;

use crate::visitor::visiting::{VisitorAfterPart, visit};
use crate::visitor::working::{MutatorAfterPart, make_calls};
use std::marker::Sync;
use std::thread::{Threads, join};
use tide::{FreePass, Heap, Mutator, Op, Shapes, Ticket, Visitor};

/// The mutator and the visitor make their parts side by side.
pub fn work_and_visit<R: Threads + Sync>(
    rt: &R,
    heap: &Heap<Shapes>,
    mutator: Mutator,
    first: Ticket,
    ops: &[Op],
    visitor: Visitor,
    second: Ticket,
) -> (MutatorAfterPart, VisitorAfterPart)
    requires own { (works.table_of mutator ≡ heap.now.table.shared.table_id)
        × (visits.table_of visitor ≡ heap.now.table.shared.table_id) }
    requires of_heap { (first.seat.table_id ≡ heap.now.table.shared.table_id)
        × (second.seat.table_id ≡ heap.now.table.shared.table_id) }
    requires one { (heap.now.key.layout.mutators ≡ 1) × (heap.now.key.layout.visitors ≡ 1) }
    requires idle { IsIdleBefore 0 first.seat.me.0.period (works.view_of mutator)
        × IsIdleBefore 16 second.seat.me.0.period (visits.view_of visitor) }
    requires room { cell_count heap.now.key.layout ≤ visits.stack_room_of visitor }
    ensures same { (works.table_of result.0.mutator ≡ heap.now.table.shared.table_id)
        × (visits.table_of result.1.visitor ≡ heap.now.table.shared.table_id) }
    ensures room { visits.stack_room_of result.1.visitor ≡ visits.stack_room_of visitor }
    ensures idle { IsIdle 0 first.seat.me.0.period (works.view_of result.0.mutator)
        × IsIdle 16 second.seat.me.0.period (visits.view_of result.1.visitor) }
    ensures of_heap { (result.0.note.seat.table_id ≡ heap.now.table.shared.table_id)
        × (result.1.note.seat.table_id ≡ heap.now.table.shared.table_id) }
    ensures notes { HasDoneItsPart 0 first.seat.me.0 result.0.note.seat.me.0
        × HasDoneItsPart 16 second.seat.me.0 result.1.note.seat.me.0 }
    ensures unvisited { result.0.note.seat.me.0.visits ≡ 0 }
{
    join(
        rt,
        || -> MutatorAfterPart
            requires { (works.table_of mutator ≡ heap.now.table.shared.table_id)
                × (first.seat.table_id ≡ heap.now.table.shared.table_id)
                × (heap.now.key.layout.mutators ≡ 1)
                × IsIdleBefore 0 first.seat.me.0.period (works.view_of mutator) }
            ensures { (works.table_of result.mutator ≡ heap.entry.now.table.shared.table_id)
                × IsIdle 0 first.seat.me.0.period (works.view_of result.mutator)
                × (result.note.seat.table_id ≡ heap.entry.now.table.shared.table_id)
                × HasDoneItsPart 0 first.seat.me.0 result.note.seat.me.0
                × (result.note.seat.me.0.visits ≡ 0) }
        { make_calls(heap, mutator, first, ops, &FreePass) },
        || -> VisitorAfterPart
            requires { (visits.table_of visitor ≡ heap.now.table.shared.table_id)
                × (second.seat.table_id ≡ heap.now.table.shared.table_id)
                × (heap.now.key.layout.visitors ≡ 1)
                × IsIdleBefore 16 second.seat.me.0.period (visits.view_of visitor)
                × (cell_count heap.now.key.layout ≤ visits.stack_room_of visitor) }
            ensures { (visits.table_of result.visitor ≡ heap.entry.now.table.shared.table_id)
                × (visits.stack_room_of result.visitor ≡ visits.stack_room_of visitor)
                × IsIdle 16 second.seat.me.0.period (visits.view_of result.visitor)
                × (result.note.seat.table_id ≡ heap.entry.now.table.shared.table_id)
                × HasDoneItsPart 16 second.seat.me.0 result.note.seat.me.0 }
        { visit(heap, visitor, second) },
    )
}
