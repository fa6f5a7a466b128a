//! The register that a call fills, and the call word that tells it.
ghost use Rattle.std.specs.Prelude.{◌≡◌, ◌%◌, ◌^◌, ◌<◌, length};
ghost use Rattle.tide_heap.specs.tide_core.machine.Words.{value_of};
ghost use Rattle.tide_model.specs.declared.op.Reply.TheVariants.{Seen};
ghost use Rattle.tide_mutator.specs.owed.Paying.{HasPaid, OwesRegister};
ghost use Rattle.tide_heap.specs.tide_words.heap.Reading.{IsValueOf};

use tide_heap::{Heap, HeapShapes, Pass, val_word, word_val};
use tide_model::{Reply, Val};

/// Stores the register that a call filled, and tells the call.
pub fn pay<S: HeapShapes>(pass: &mut Pass, heap: &Heap<S>, call_number: u64, dst: u8, value: Val)
    requires own { pass.old.seat.table_id ≡ heap.now.table.shared.table_id }
    requires owing { OwesRegister heap.now.key.layout pass.old.seat.me.0 dst value }
    requires within { dst < heap.now.key.layout.registers }
    requires counts { call_number ≡ length pass.old.seat.me.0.mine % 2 ^ 64 }
    ensures same_pass { (pass.new.seat.table_id ≡ pass.old.seat.table_id) × (pass.new.seat.id ≡ pass.old.seat.id) }
    ensures paid { HasPaid pass.old.seat.me.0 pass.new.seat.me.0 }
{
    pass.store_register(heap, dst, val_word(value), None);
    // The call word comes last: its mutator makes no other call and doesn't stop before it (`IsBetweenCalls`,
    // tide_core/specs/machine/May.antt). So where nobody runs no word is owed, and each call word tells all calls
    // (`ParkedIsEmpty`, `CallsAreTold`, points/Seen.antt).
    pass.store_call(heap, call_number, None);
}

/// Tells the value of a word that a call has seen, with which it fills a register.
#[inline(always)]
pub fn show<S: HeapShapes>(
    pass: &mut Pass,
    heap: &Heap<S>,
    call_number: u64,
    dst: u8,
    word: u64,
) -> Reply
    requires own { pass.old.seat.table_id ≡ heap.now.table.shared.table_id }
    requires value { IsValueOf (value_of word) word }
    requires owing { OwesRegister heap.now.key.layout pass.old.seat.me.0 dst (value_of word) }
    requires within { dst < heap.now.key.layout.registers }
    requires counts { call_number ≡ length pass.old.seat.me.0.mine % 2 ^ 64 }
    ensures same_pass { (pass.new.seat.table_id ≡ pass.old.seat.table_id) × (pass.new.seat.id ≡ pass.old.seat.id) }
    ensures reply { result ≡ Seen (value_of word) }
    ensures paid { HasPaid pass.old.seat.me.0 pass.new.seat.me.0 }
{
    let value = word_val(word).unwrap_or(Val::Empty);
    pay(pass, heap, call_number, dst, value);
    Reply::Seen(value)
}
