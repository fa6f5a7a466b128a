//! Calls on the pairs of a table that their mutator claims.
ghost use Rattle.tide_heap.specs.tide_call.declared.action.Action.TheVariants.{ClearPair, Show, StorePair};
ghost use Rattle.tide_mutator.specs.owed.Acting.{HasAnswered, MayAct};

use crate::owed::{Call, pay};
use tide_heap::{Heap, HeapShapes, Pass, pair_word};
use tide_model::{Reply, Val};

/// Stores a pair of a table.
#[inline(always)]
pub fn put_pair<S: HeapShapes>(
    pass: &mut Pass,
    heap: &Heap<S>,
    call: Call,
    table: u32,
    place: u8,
    key: u32,
    value: Val,
) -> Reply
    requires may { MayAct S.lists heap.now pass.old call (StorePair table place key value) }
    ensures answered { HasAnswered S.lists heap.now call (StorePair table place key value) result pass.old pass.new }
{
    pass.store_pair(heap, table, place, pair_word(key, value), Some(call.op));
    pass.store_call(heap, call.number, None);
    Reply::Done
}

/// Drops a pair of a table.
pub fn drop_pair<S: HeapShapes>(
    pass: &mut Pass,
    heap: &Heap<S>,
    call: Call,
    table: u32,
    place: u8,
) -> Reply
    requires may { MayAct S.lists heap.now pass.old call (ClearPair table place) }
    ensures answered { HasAnswered S.lists heap.now call (ClearPair table place) result pass.old pass.new }
{
    pass.store_pair(heap, table, place, 0, Some(call.op));
    pass.store_call(heap, call.number, None);
    Reply::Done
}

/// Sees the value of a pair of a table, and fills a register with it.
#[inline(always)]
pub fn get_pair<S: HeapShapes>(
    pass: &mut Pass,
    heap: &Heap<S>,
    call: Call,
    dst: u8,
    table: u32,
    place: u8,
    value: Val,
) -> Reply
    requires may { MayAct S.lists heap.now pass.old call (Show dst table place value) }
    ensures answered { HasAnswered S.lists heap.now call (Show dst table place value) result pass.old pass.new }
{
    pass.load_pair(heap, table, place, Some(call.op));
    pay(pass, heap, call.number, dst, value);
    Reply::Seen(value)
}
