//! `Pair`: a small heap of two mutators. It makes no step.
ghost use Rattle.std.specs.Prelude.{◌≡◌};
ghost use Rattle.check_table.specs.Working.{IsSmall};

use tide_heap::Books;
use tide_shape::Shapes;
use tide_table::{Collector, Heap, Pass};

/// A heap of two mutators with all their passes, and the books of its freezes.
#[derive(Drop)]
pub struct Pair {
    pub heap: Heap<Shapes>,
    pub collector: Collector,
    pub one: Pass,
    pub other: Pass,
    pub books: Books,
    ghost own: { collector.seat.table_id ≡ heap.table.shared.table_id },
    ghost one_of_heap: { one.seat.table_id ≡ heap.table.shared.table_id },
    ghost other_of_heap: { other.seat.table_id ≡ heap.table.shared.table_id },
    ghost small: { IsSmall heap.key.layout },
}
