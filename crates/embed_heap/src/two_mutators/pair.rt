//! A heap of two mutators: it is opened for one part, in which each makes its calls in a thread of its own, and closed.
ghost use Rattle.embed_heap.specs.two_mutators.Working.{HasWorked, MayWork};
ghost use Rattle.std.specs.Prelude.{◌≡◌, ◌<◌, ℕ, false};
ghost use Rattle.tide.specs.tide_core.machine.Frozen.{newcomer};
ghost use Rattle.tide.specs.tide_model.History.{state_after};
ghost use Rattle.tide.specs.tide_model.Lawful.{IsLawful};
ghost use Rattle.tide.specs.tide_mutator.calls.Viewed.{table_of, view_of};
ghost use Rattle.tide.specs.tide_shape.Lists.{lists_of};
ghost use Rattle.tide.specs.tide_table.Started.{IsStarted};

use crate::two_mutators::working::{Replies, RepliesAndNote, store_and_read};
use std::marker::Sync;
use std::thread::{Threads, join};
use tide::{Closed, Collector, Heap, Mutator, Pass, Shapes, Ticket};

/// What both mutators found, and the history that the heap left.
#[derive(Drop)]
pub struct ClosedPair {
    pub found: (Replies, Replies),
    pub closed: Closed<Shapes>,
}

/// Each of two mutators does its part in a thread of its own.
fn work_both<R: Threads + Sync>(
    rt: &R,
    heap: &Heap<Shapes>,
    one: Mutator,
    first: Ticket,
    other: Mutator,
    second: Ticket,
) -> (RepliesAndNote, RepliesAndNote)
    requires own { (table_of one ≡ heap.now.table.shared.table_id)
        × (table_of other ≡ heap.now.table.shared.table_id) }
    requires of_heap { (first.seat.table_id ≡ heap.now.table.shared.table_id)
        × (second.seat.table_id ≡ heap.now.table.shared.table_id) }
    requires may_one { MayWork heap.now.key.layout (view_of one) first.seat.me.0 }
    requires may_other { MayWork heap.now.key.layout (view_of other) second.seat.me.0 }
    ensures of_heap { (result.0.note.seat.table_id ≡ heap.now.table.shared.table_id)
        × (result.1.note.seat.table_id ≡ heap.now.table.shared.table_id) }
    ensures one { HasWorked (view_of one) first.seat.me.0 result.0.note.seat.me.0 }
    ensures other { HasWorked (view_of other) second.seat.me.0 result.1.note.seat.me.0 }
{
    join(
        rt,
        || -> RepliesAndNote
            requires { (table_of one ≡ heap.now.table.shared.table_id)
                × (first.seat.table_id ≡ heap.now.table.shared.table_id)
                × MayWork heap.now.key.layout (view_of one) first.seat.me.0 }
            ensures { (result.note.seat.table_id ≡ heap.entry.now.table.shared.table_id)
                × HasWorked (view_of one) first.seat.me.0 result.note.seat.me.0 }
        { store_and_read(heap, one, first) },
        || -> RepliesAndNote
            requires { (table_of other ≡ heap.now.table.shared.table_id)
                × (second.seat.table_id ≡ heap.now.table.shared.table_id)
                × MayWork heap.now.key.layout (view_of other) second.seat.me.0 }
            ensures { (result.note.seat.table_id ≡ heap.entry.now.table.shared.table_id)
                × HasWorked (view_of other) second.seat.me.0 result.note.seat.me.0 }
        { store_and_read(heap, other, second) },
    )
}

/// Runs one part of two mutators in two threads, and closes the heap.
pub fn run_pair<R: Threads + Sync>(
    rt: &R,
    heap: Heap<Shapes>,
    mut collector: Collector,
    one: Pass,
    other: Pass,
) -> ClosedPair
    requires own { collector.seat.table_id ≡ heap.table.shared.table_id }
    requires of_heap { (one.seat.table_id ≡ heap.table.shared.table_id)
        × (other.seat.table_id ≡ heap.table.shared.table_id) }
    requires started { IsStarted heap.key.layout (lists_of heap.key.shapes) collector.seat.me.0 }
    requires newcomers { (one.seat.me.0 ≡ newcomer 0) × (other.seat.me.0 ≡ newcomer 1) }
    requires two { (heap.key.layout.mutators ≡ 2) × (heap.key.layout.visitors ≡ 0) }
    requires has { 1 < heap.key.layout.registers }
    ensures lawful { IsLawful heap.key.layout (lists_of heap.key.shapes) result.closed.seat.me.0.seen }
    ensures retired { (i : ℕ) → i < 2 →
        (state_after heap.key.layout result.closed.seat.me.0.seen).active i ≡ false }
{
    collector.open_first(&heap, 8);
    let first = collector.ticket(&heap);
    let second = collector.ticket(&heap);
    let (one, other) = work_both(
        rt,
        &heap,
        Mutator::new(one),
        first,
        Mutator::new(other),
        second,
    );
    collector.take(&heap, one.note);
    collector.take(&heap, other.note);
    collector.freeze(&heap);
    ClosedPair {
        found: (one.found, other.found),
        closed: collector.close(heap),
    }
}
