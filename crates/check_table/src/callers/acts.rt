//! Calls of a mutator, each a step with its entry and the store of its call word. It knows no ticket and no note.
ghost use Rattle.std.specs.Prelude.{◌≡◌, ◌<◌, [], true, false};
ghost use Rattle.check_table.specs.callers.Working.{all_calls, put_calls, set_calls, strong_calls, IsReady, Stays};

use tide_heap::val_word;
use tide_model::{Op, Val};
use tide_table::{Heap, HeapShapes, Pass};

/// Sets its first register to 7, and tells the call.
pub fn set_register<S: HeapShapes>(heap: &Heap<S>, pass: &mut Pass)
    requires own { pass.old.seat.table_id ≡ heap.now.table.shared.table_id }
    requires ready { IsReady heap.now.key.layout pass.old.seat.me.0 [] false }
    requires has { 0 < heap.now.key.layout.registers }
    ensures same { pass.new.seat.table_id ≡ pass.old.seat.table_id }
    ensures ready { IsReady heap.now.key.layout pass.new.seat.me.0 (set_calls pass.old.seat.me.0.who) false }
    ensures stays { Stays pass.old.seat.me.0 pass.new.seat.me.0 }
{
    let word = val_word(Val::Int(7));
    pass.store_register(heap, 0, word, Some(Op::Set { dst: 0, n: 7 }));
    pass.store_call(heap, 1, None);
}

/// Puts its first register into the first strong handle, and tells the call.
pub fn put_strong<S: HeapShapes>(heap: &Heap<S>, pass: &mut Pass)
    requires own { pass.old.seat.table_id ≡ heap.now.table.shared.table_id }
    requires ready { IsReady heap.now.key.layout pass.old.seat.me.0 (set_calls pass.old.seat.me.0.who) false }
    requires has { 0 < heap.now.key.layout.registers }
    requires strong { 0 < heap.now.key.layout.strong }
    ensures same { pass.new.seat.table_id ≡ pass.old.seat.table_id }
    ensures ready { IsReady heap.now.key.layout pass.new.seat.me.0 (strong_calls pass.old.seat.me.0.who) false }
    ensures stays { Stays pass.old.seat.me.0 pass.new.seat.me.0 }
{
    let word = val_word(Val::Int(7));
    pass.store_strong(heap, 0, word, Some(Op::StrongSet { at: 0, val: 0 }));
    pass.store_call(heap, 2, None);
}

/// Puts its first register into the first weak handle, and tells the call.
pub fn put_weak<S: HeapShapes>(heap: &Heap<S>, pass: &mut Pass)
    requires own { pass.old.seat.table_id ≡ heap.now.table.shared.table_id }
    requires ready { IsReady heap.now.key.layout pass.old.seat.me.0 (strong_calls pass.old.seat.me.0.who) false }
    requires has { 0 < heap.now.key.layout.registers }
    requires weak { 0 < heap.now.key.layout.weak }
    ensures same { pass.new.seat.table_id ≡ pass.old.seat.table_id }
    ensures ready { IsReady heap.now.key.layout pass.new.seat.me.0 (put_calls pass.old.seat.me.0.who) false }
    ensures stays { Stays pass.old.seat.me.0 pass.new.seat.me.0 }
{
    let word = val_word(Val::Int(7));
    pass.store_weak(heap, 0, word, Some(Op::WeakSet { at: 0, val: 0 }));
    pass.store_call(heap, 3, None);
}

/// Retires, and tells the call.
pub fn leave<S: HeapShapes>(heap: &Heap<S>, pass: &mut Pass)
    requires own { pass.old.seat.table_id ≡ heap.now.table.shared.table_id }
    requires ready { IsReady heap.now.key.layout pass.old.seat.me.0 (put_calls pass.old.seat.me.0.who) false }
    ensures same { pass.new.seat.table_id ≡ pass.old.seat.table_id }
    ensures ready { IsReady heap.now.key.layout pass.new.seat.me.0 (all_calls pass.old.seat.me.0.who) true }
    ensures stays { Stays pass.old.seat.me.0 pass.new.seat.me.0 }
{
    pass.retire(heap);
    pass.store_call(heap, 4, None);
}
