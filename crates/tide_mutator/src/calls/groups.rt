//! The call that puts a cell in a group.
ghost use Rattle.tide_heap.specs.tide_call.declared.action.Action.TheVariants.{Join};
ghost use Rattle.tide_mutator.specs.owed.Acting.{HasAnswered, MayAct};

use crate::owed::Call;
use tide_heap::{Heap, HeapShapes, Pass};
use tide_model::Reply;

/// Puts a cell in a group.
pub(crate) fn join<S: HeapShapes>(
    pass: &mut Pass,
    heap: &Heap<S>,
    call: Call,
    cell: u32,
    group: u32,
) -> Reply
    requires may { MayAct S.lists heap.now pass.old call (Join cell group) }
    ensures answered { HasAnswered S.lists heap.now call (Join cell group) result pass.old pass.new }
{
    pass.store_group(heap, cell, u64::from(group), Some(call.op));
    pass.store_call(heap, call.number, None);
    Reply::Done
}
