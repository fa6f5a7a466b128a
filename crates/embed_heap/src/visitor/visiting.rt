//! What the visitor does in its thread: a part, from its ticket to its note.
ghost use Rattle.tide.specs.Parts.{HasDoneItsPart, IsIdle, IsIdleBefore};
ghost use Rattle.std.specs.Prelude.{◌≡◌, ◌≤◌, [], false, true};
ghost use Rattle.tide.specs.tide_heap.Done.{HasDonePart};
ghost use Rattle.tide.specs.tide_core.machine.Visiting.{FitsIn};
ghost use Rattle.tide.specs.tide_model.Layout.{cell_count};
ghost use Rattle.tide.specs.tide_visitor.Viewed.{stack_room_of, table_of, view_of};
ghost use Rattle.tide.specs.tide_visitor.Visits.{visit_frame, IsVisitorOf};

use tide::{FreePass, Heap, HeapShapes, Note, Ticket, Visitor};

/// A visitor that has made its part, and its note.
#[derive(Drop)]
pub struct VisitorAfterPart {
    pub visitor: Visitor,
    pub note: Note,
}

/// Where a cycle marks, drains as much as the part asks for. Either way the part is done then.
fn drain_share<S: HeapShapes>(heap: &Heap<S>, visitor: &mut Visitor, run: u32, marks: bool)
    requires own { table_of visitor.old ≡ heap.now.table.shared.table_id }
    requires visitor { IsVisitorOf heap.now.key.layout (view_of visitor.old) }
    requires begun { (view_of visitor.old).runs ≡ true }
    requires ticket { (run ≡ (view_of visitor.old).run) × (marks ≡ (view_of visitor.old).marks) }
    requires none { ((view_of visitor.old).visits ≡ 0) × ((view_of visitor.old).held ≡ []) }
    requires room { cell_count heap.now.key.layout ≤ stack_room_of visitor.old }
    ensures same { table_of visitor.new ≡ table_of visitor.old }
    ensures kept { visit_frame (view_of visitor.new) ≡ visit_frame (view_of visitor.old) }
    ensures done { HasDonePart heap.now.key.layout (view_of visitor.new) }
    ensures few { (view_of visitor.new).visits ≤ run }
    ensures none { marks ≡ false → (view_of visitor.new).visits ≡ 0 }
    ensures fits { FitsIn heap.now.key.layout (view_of visitor.new).held }
    ensures room { stack_room_of visitor.new ≡ stack_room_of visitor.old }
{
    if !marks {
        return;
    }
    visitor.drain(heap, run, &FreePass);
}

/// Begins a part, drains where a cycle marks, and stops.
pub fn visit<S: HeapShapes>(
    heap: &Heap<S>,
    mut visitor: Visitor,
    ticket: Ticket,
) -> VisitorAfterPart
    requires own { table_of visitor ≡ heap.now.table.shared.table_id }
    requires of_heap { ticket.seat.table_id ≡ heap.now.table.shared.table_id }
    requires one { heap.now.key.layout.visitors ≡ 1 }
    requires idle { IsIdleBefore 16 ticket.seat.me.0.period (view_of visitor) }
    requires room { cell_count heap.now.key.layout ≤ stack_room_of visitor }
    ensures same { table_of result.visitor ≡ table_of visitor }
    ensures room { stack_room_of result.visitor ≡ stack_room_of visitor }
    ensures idle { IsIdle 16 ticket.seat.me.0.period (view_of result.visitor) }
    ensures of_heap { result.note.seat.table_id ≡ heap.now.table.shared.table_id }
    ensures note { HasDoneItsPart 16 ticket.seat.me.0 result.note.seat.me.0 }
{
    let (run, marks) = (ticket.run(), ticket.marking());
    visitor.begin(heap, ticket);
    drain_share(heap, &mut visitor, run, marks);
    let note = visitor.stop(heap);
    VisitorAfterPart { visitor, note }
}
