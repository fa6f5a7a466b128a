//! What the array of a cell holds is read, before another replaces it.
ghost use Rattle.std.specs.Prelude.{◌≡◌};
ghost use Rattle.tide_mutator.specs.calls.Growing.{HasRead, IsReady, KnowsElements};

use crate::owed::Growth;
use tide_heap::{Heap, HeapShapes, Pass};
use tide_model::Op;

/// The words of the properties in the cell's array, if it has one.
pub(crate) fn load_elements<S: HeapShapes>(
    pass: &mut Pass,
    heap: &Heap<S>,
    op: Op,
    growth: Growth,
) -> [u64; 64]
    requires own { pass.old.seat.table_id ≡ heap.now.table.shared.table_id }
    requires ready { IsReady heap.now.key.layout (S.lists heap.now.key.shapes) pass.old.seat.me.0 op growth }
    ensures same_pass { (pass.new.seat.table_id ≡ pass.old.seat.table_id) × (pass.new.seat.id ≡ pass.old.seat.id) }
    ensures read { HasRead pass.old.seat.me.0 pass.new.seat.me.0 }
    ensures knows { KnowsElements heap.now.key.layout pass.new.seat.me.0 growth.array result growth.addition.count }
{
    let mut words = [0; 64];
    let Some(array) = growth.array else {
        return words;
    };
    for place in 0..growth.addition.count {
        words[usize::from(place)] = pass.load_element(heap, array, place, None);
    }
    words
}
