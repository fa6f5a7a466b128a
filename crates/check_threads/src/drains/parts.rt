//! What a visitor does in a row's second part, from its ticket to its note. It knows no mutator.
ghost use Rattle.check_threads.specs.drains.Parts.{IsNoteOf, MayDrain};
ghost use Rattle.embed_heap.specs.visitor.Parts.{IsIdleBefore};
ghost use Rattle.std.specs.Prelude.{◌≡◌, ◌≤◌, true};
ghost use Rattle.tide_model.specs.Layout.{cell_count};
ghost use Rattle.tide_visitor.specs.Viewed.{stack_room_of, table_of, view_of};
ghost use Rattle.tide_visitor.specs.Visits.{visit_frame};

use std::alloc::{AllocError, Global};
use tide_model::{Place, Turnstile};
use tide_table::{Heap, HeapShapes, Note, Ticket};
use tide_visitor::{Drained, Visitor};

/// How a drain ended, and how many visits its visitor had made then in its part.
#[derive(Clone, Copy)]
pub struct Drain {
    pub ended: Drained,
    pub visits: u32,
}

/// How each drain of a visitor's part ended, how many races it told once it had stopped, and its note.
#[derive(Drop)]
pub struct DrainedPart {
    pub drains: Result<Vec<Drain>, AllocError>,
    pub deferred: u32,
    pub note: Note,
}

/// Drains within one budget after another.
fn drain_each<S: HeapShapes, T: Turnstile>(
    alloc: Global,
    heap: &Heap<S>,
    visitor: &mut Visitor,
    budgets: &[u32],
    turnstile: &T,
) -> Result<Vec<Drain>, AllocError>
    requires own { table_of visitor.old ≡ heap.now.table.shared.table_id }
    requires may { MayDrain heap.now.key.layout visitor.old }
    ensures same { table_of visitor.new ≡ table_of visitor.old }
    ensures kept { visit_frame (view_of visitor.new) ≡ visit_frame (view_of visitor.old) }
    ensures may { MayDrain heap.now.key.layout visitor.new }
{
    let mut drains = Vec::new(alloc);
    for budget in budgets {
        let most = u32::MAX - visitor.visits();
        let ended = visitor.drain(heap, (*budget).min(most), turnstile);
        let visits = visitor.visits();
        drains.push(Drain { ended, visits })?;
    }
    Ok(drains)
}

/// The visitor's part. The races that it met are asked for once it has stopped. Then it meets the turnstile once more,
/// at its call 1, which no drain is: so another can be held until it has stopped.
pub fn visit<S: HeapShapes, T: Turnstile>(
    alloc: Global,
    heap: &Heap<S>,
    mut visitor: Visitor,
    ticket: Ticket,
    budgets: &[u32],
    turnstile: &T,
) -> DrainedPart
    requires own { table_of visitor ≡ heap.now.table.shared.table_id }
    requires of_heap { ticket.seat.table_id ≡ heap.now.table.shared.table_id }
    requires one { heap.now.key.layout.visitors ≡ 1 }
    requires marks { ticket.seat.me.0.marks ≡ true }
    requires idle { IsIdleBefore 16 ticket.seat.me.0.period (view_of visitor) }
    requires room { cell_count heap.now.key.layout ≤ stack_room_of visitor }
    ensures of_heap { result.note.seat.table_id ≡ heap.now.table.shared.table_id }
    ensures note { IsNoteOf 16 ticket.seat.me.0.period result.note.seat.me.0 }
{
    visitor.begin(heap, ticket);
    let drains = drain_each(alloc, heap, &mut visitor, budgets, turnstile);
    let note = visitor.stop(heap);
    let deferred = visitor.deferred();
    turnstile.at(visitor.who(), Place::Call, 1);
    DrainedPart {
        drains,
        deferred,
        note,
    }
}
