//! `Shared`: a heap that a mutator and a visitor share. It makes no step.
ghost use Rattle.std.specs.Prelude.{◌≡◌, ◌≤◌};
ghost use Rattle.tide.specs.tide_model.Layout.{cell_count};
ghost use Rattle.tide.specs.tide_mutator.calls.Viewed as works;
ghost use Rattle.tide.specs.tide_visitor.Viewed as visits;

use tide::{Books, Collector, Heap, Mutator, Shapes, Visitor};

/// A heap that a mutator and a visitor share, its collector, and the books of its freezes. The visitor's stack has a
/// place for each cell.
#[derive(Drop)]
pub struct Shared {
    pub heap: Heap<Shapes>,
    pub collector: Collector,
    pub mutator: Mutator,
    pub visitor: Visitor,
    pub books: Books,
    ghost own: { collector.seat.table_id ≡ heap.table.shared.table_id },
    ghost mutator_of_heap: { works.table_of mutator ≡ heap.table.shared.table_id },
    ghost visitor_of_heap: { visits.table_of visitor ≡ heap.table.shared.table_id },
    ghost mutators: { heap.key.layout.mutators ≡ 1 },
    ghost visitors: { heap.key.layout.visitors ≡ 1 },
    ghost room: { cell_count heap.key.layout ≤ visits.stack_room_of visitor },
}
