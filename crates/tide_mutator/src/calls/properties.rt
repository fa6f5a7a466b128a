//! Calls on properties of a cell that their mutator claims.
ghost use Rattle.tide_heap.specs.tide_call.declared.action.Action.TheVariants.{Append, LoadElement, StoreElement};
ghost use Rattle.tide_mutator.specs.owed.Acting.{HasAnswered, MayAct};

use crate::owed::{Call, shape_word, show, write_barrier};
use tide_heap::{Addition, Heap, HeapShapes, Pass, val_word};
use tide_model::{Reply, Turnstile, Val};

/// Loads a property, and fills a register with what it holds.
#[inline(always)]
pub(crate) fn get_property<S: HeapShapes>(
    pass: &mut Pass,
    heap: &Heap<S>,
    call: Call,
    dst: u8,
    array: u32,
    place: u8,
) -> Reply
    requires may { MayAct S.lists heap.now pass.old call (LoadElement dst array place) }
    ensures answered { HasAnswered S.lists heap.now call (LoadElement dst array place) result pass.old pass.new }
{
    let word = pass.load_element(heap, array, place, Some(call.op));
    show(pass, heap, call.number, dst, word)
}

/// Stores a property, and pays the barrier of its cell.
#[inline(always)]
pub(crate) fn put_property<S: HeapShapes, T: Turnstile>(
    pass: &mut Pass,
    heap: &Heap<S>,
    turnstile: &T,
    call: Call,
    cell: u32,
    array: u32,
    place: u8,
    value: Val,
) -> Reply
    requires may { MayAct S.lists heap.now pass.old call (StoreElement cell array place value) }
    ensures answered { HasAnswered S.lists heap.now call (StoreElement cell array place value) result pass.old pass.new }
{
    pass.store_element(heap, array, place, val_word(value), Some(call.op));
    write_barrier(pass, heap, turnstile, cell, value);
    pass.store_call(heap, call.number, None);
    Reply::Done
}

/// Adds a property that the cell's array has room for, and pays the barrier of the cell. The element is stored first:
/// no key tells of it until the structure does.
pub(crate) fn append<S: HeapShapes, T: Turnstile>(
    pass: &mut Pass,
    heap: &Heap<S>,
    turnstile: &T,
    call: Call,
    addition: Addition,
    array: u32,
    value: Val,
) -> Reply
    requires may { MayAct S.lists heap.now pass.old call (Append addition array value) }
    ensures answered { HasAnswered S.lists heap.now call (Append addition array value) result pass.old pass.new }
{
    // A scan reads no place past the count of the structure that it loaded, so the element may stand there before. Once
    // the structure tells it, it is what the array says (`ArraysStand`, tide_core/specs/machine/points/Arrays.antt).
    pass.store_element(heap, array, addition.count, val_word(value), None);
    pass.store_structure(heap, addition.cell, shape_word(addition), Some(call.op));
    write_barrier(pass, heap, turnstile, addition.cell, value);
    pass.store_call(heap, call.number, None);
    Reply::Done
}
