//! The call by which a mutator leaves for good.
ghost use Rattle.tide_heap.specs.tide_call.declared.action.Action.TheVariants.{Retire as Leave};
ghost use Rattle.tide_mutator.specs.owed.Acting.{HasAnswered, MayAct};

use crate::owed::Call;
use tide_heap::{Heap, HeapShapes, Pass};
use tide_model::Reply;

/// Makes its mutator inactive.
pub(crate) fn leave<S: HeapShapes>(pass: &mut Pass, heap: &Heap<S>, call: Call) -> Reply
    requires may { MayAct S.lists heap.now pass.old call Leave }
    ensures answered { HasAnswered S.lists heap.now call Leave result pass.old pass.new }
{
    pass.retire(heap);
    pass.store_call(heap, call.number, None);
    Reply::Done
}
