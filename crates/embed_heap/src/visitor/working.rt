//! What the mutator does in its thread: a part, from its ticket to its note.
ghost use Rattle.tide.specs.Parts.{HasDoneItsPart, IsIdle, IsIdleBefore};
ghost use Rattle.std.specs.Prelude.{◌≡◌, ◌<◌, false, true};
ghost use Rattle.tide.specs.tide_mutator.calls.Viewed.{table_of, view_of};
ghost use Rattle.tide.specs.tide_mutator.owed.Calling.{kept};

use tide::{Heap, Mutator, Note, Op, Reply, ShapeTable, Ticket, Turnstile};

/// How many calls it makes in a part at most.
const MOST_CALLS: usize = 1000;

/// A mutator that has made its part, its note, and what its last call was answered, if it made one.
#[derive(Drop)]
pub struct MutatorAfterPart {
    pub mutator: Mutator,
    pub last: Option<Reply>,
    pub note: Note,
}

/// Makes calls one after another, and answers what the last one was answered. One whose operands don't fit the heap is
/// left out, and so is a retirement.
fn call_each<S: ShapeTable, T: Turnstile>(
    heap: &Heap<S>,
    mutator: &mut Mutator,
    ops: &[Op],
    turnstile: &T,
) -> Option<Reply>
    requires own { table_of mutator.old ≡ heap.now.table.shared.table_id }
    requires mutator { (view_of mutator.old).who < heap.now.key.layout.mutators }
    requires runs { (view_of mutator.old).runs ≡ true }
    requires stays { (view_of mutator.old).left ≡ false }
    requires none { (view_of mutator.old).born ≡ 0 }
    ensures same { table_of mutator.new ≡ table_of mutator.old }
    ensures kept { kept (view_of mutator.new) ≡ kept (view_of mutator.old) }
    ensures stays { (view_of mutator.new).left ≡ false }
{
    let mut last = None;
    for index in 0..ops.len().min(MOST_CALLS) {
        last = mutator.try_call(heap, ops[index], turnstile);
    }
    last
}

/// Begins a part, makes these calls, and stops.
pub fn make_calls<S: ShapeTable, T: Turnstile>(
    heap: &Heap<S>,
    mut mutator: Mutator,
    ticket: Ticket,
    ops: &[Op],
    turnstile: &T,
) -> MutatorAfterPart
    requires own { table_of mutator ≡ heap.now.table.shared.table_id }
    requires of_heap { ticket.seat.table_id ≡ heap.now.table.shared.table_id }
    requires one { heap.now.key.layout.mutators ≡ 1 }
    requires idle { IsIdleBefore 0 ticket.seat.me.0.period (view_of mutator) }
    ensures same { table_of result.mutator ≡ table_of mutator }
    ensures idle { IsIdle 0 ticket.seat.me.0.period (view_of result.mutator) }
    ensures of_heap { result.note.seat.table_id ≡ heap.now.table.shared.table_id }
    ensures note { HasDoneItsPart 0 ticket.seat.me.0 result.note.seat.me.0 }
    ensures unvisited { result.note.seat.me.0.visits ≡ 0 }
{
    mutator.begin(heap, ticket);
    let last = call_each(heap, &mut mutator, ops, turnstile);
    let note = mutator.stop(heap);
    MutatorAfterPart {
        mutator,
        last,
        note,
    }
}
