//! Calls on own words alone: one fills a register, or is told by its call word.
ghost use Rattle.tide_heap.specs.tide_call.declared.action.Action.TheVariants.{Ask, Fill, Refuse};
ghost use Rattle.tide_mutator.specs.owed.Acting.{HasAnswered, MayAct};

use crate::owed::Call;
use tide_heap::{Heap, HeapShapes, Pass, val_word};
use tide_model::{Refusal, Reply, Val};

/// Fills a register.
pub(crate) fn fill<S: HeapShapes>(
    pass: &mut Pass,
    heap: &Heap<S>,
    call: Call,
    dst: u8,
    value: Val,
) -> Reply
    requires may { MayAct S.lists heap.now pass.old call (Fill dst value) }
    ensures answered { HasAnswered S.lists heap.now call (Fill dst value) result pass.old pass.new }
{
    pass.store_register(heap, dst, val_word(value), Some(call.op));
    pass.store_call(heap, call.number, None);
    Reply::Done
}

/// Tells a refusal.
pub(crate) fn refuse<S: HeapShapes>(
    pass: &mut Pass,
    heap: &Heap<S>,
    call: Call,
    refusal: Refusal,
) -> Reply
    requires may { MayAct S.lists heap.now pass.old call (Refuse refusal) }
    ensures answered { HasAnswered S.lists heap.now call (Refuse refusal) result pass.old pass.new }
{
    pass.store_call(heap, call.number, Some(call.op));
    Reply::Refused(refusal)
}

/// Asks for a cycle.
pub(crate) fn ask<S: HeapShapes>(pass: &mut Pass, heap: &Heap<S>, call: Call) -> Reply
    requires may { MayAct S.lists heap.now pass.old call Ask }
    ensures answered { HasAnswered S.lists heap.now call Ask result pass.old pass.new }
{
    pass.store_call(heap, call.number, Some(call.op));
    Reply::Asked
}
