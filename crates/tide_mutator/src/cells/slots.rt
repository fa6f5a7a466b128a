//! Calls on slots of cells.
ghost use Rattle.tide_heap.specs.tide_call.declared.action.Action.TheVariants.{LoadSlot, StoreSlot};
ghost use Rattle.tide_mutator.specs.owed.Acting.{HasAnswered, MayAct};

use crate::owed::{Call, show, write_barrier};
use tide_heap::{Heap, HeapShapes, Pass, val_word};
use tide_model::{Reply, Turnstile, Val};

/// Loads a slot, and fills a register with what it holds.
#[inline(always)]
pub fn get<S: HeapShapes>(
    pass: &mut Pass,
    heap: &Heap<S>,
    call: Call,
    dst: u8,
    cell: u32,
    slot: u8,
) -> Reply
    requires may { MayAct S.lists heap.now pass.old call (LoadSlot dst cell slot) }
    ensures answered { HasAnswered S.lists heap.now call (LoadSlot dst cell slot) result pass.old pass.new }
{
    let word = pass.load_link(heap, cell, slot, Some(call.op));
    show(pass, heap, call.number, dst, word)
}

/// Stores a slot, and pays the barrier of its cell.
#[inline(always)]
pub fn put<S: HeapShapes, T: Turnstile>(
    pass: &mut Pass,
    heap: &Heap<S>,
    turnstile: &T,
    call: Call,
    cell: u32,
    slot: u8,
    value: Val,
) -> Reply
    requires may { MayAct S.lists heap.now pass.old call (StoreSlot cell slot value) }
    ensures answered { HasAnswered S.lists heap.now call (StoreSlot cell slot value) result pass.old pass.new }
{
    let word = val_word(value);
    pass.store_link(heap, cell, slot, word, Some(call.op));
    write_barrier(pass, heap, turnstile, cell, value);
    pass.store_call(heap, call.number, None);
    Reply::Done
}
