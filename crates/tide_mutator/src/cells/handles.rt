//! Calls on strong and weak handles.
ghost use Rattle.tide_heap.specs.tide_call.declared.action.Action.TheVariants.{LoadStrong, LoadWeak, StoreStrong, StoreWeak};
ghost use Rattle.tide_mutator.specs.owed.Acting.{HasAnswered, MayAct};

use crate::owed::{Call, show};
use tide_heap::{Heap, HeapShapes, Pass, val_word};
use tide_model::{Reply, Val};

/// Stores a strong handle.
pub fn put_strong<S: HeapShapes>(
    pass: &mut Pass,
    heap: &Heap<S>,
    call: Call,
    at: u16,
    value: Val,
) -> Reply
    requires may { MayAct S.lists heap.now pass.old call (StoreStrong at value) }
    ensures answered { HasAnswered S.lists heap.now call (StoreStrong at value) result pass.old pass.new }
{
    pass.store_strong(heap, u32::from(at), val_word(value), Some(call.op));
    pass.store_call(heap, call.number, None);
    Reply::Done
}

/// Stores a weak handle.
pub fn put_weak<S: HeapShapes>(
    pass: &mut Pass,
    heap: &Heap<S>,
    call: Call,
    at: u16,
    value: Val,
) -> Reply
    requires may { MayAct S.lists heap.now pass.old call (StoreWeak at value) }
    ensures answered { HasAnswered S.lists heap.now call (StoreWeak at value) result pass.old pass.new }
{
    pass.store_weak(heap, u32::from(at), val_word(value), Some(call.op));
    pass.store_call(heap, call.number, None);
    Reply::Done
}

/// Loads a strong handle, and fills a register with what it holds.
pub fn get_strong<S: HeapShapes>(
    pass: &mut Pass,
    heap: &Heap<S>,
    call: Call,
    dst: u8,
    at: u16,
) -> Reply
    requires may { MayAct S.lists heap.now pass.old call (LoadStrong dst at) }
    ensures answered { HasAnswered S.lists heap.now call (LoadStrong dst at) result pass.old pass.new }
{
    let word = pass.load_strong(heap, u32::from(at), Some(call.op));
    show(pass, heap, call.number, dst, word)
}

/// Loads a weak handle, and fills a register with what it holds.
pub fn get_weak<S: HeapShapes>(
    pass: &mut Pass,
    heap: &Heap<S>,
    call: Call,
    dst: u8,
    at: u16,
) -> Reply
    requires may { MayAct S.lists heap.now pass.old call (LoadWeak dst at) }
    ensures answered { HasAnswered S.lists heap.now call (LoadWeak dst at) result pass.old pass.new }
{
    // The cell may be unmarked while a cycle marks, and no barrier is owed: it is live (`RefsAreLive`,
    // tide_model/specs/References.antt), and no running part frees a cell. Its register is stored before the next
    // freeze, where registers are marked from before anything is freed.
    let word = pass.load_weak(heap, u32::from(at), Some(call.op));
    show(pass, heap, call.number, dst, word)
}
