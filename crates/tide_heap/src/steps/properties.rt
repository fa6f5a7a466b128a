//! A mutator's steps on the elements, the array and the structure of a cell that it claims, also in a growth.
ghost use Rattle.std.specs.Prelude.{◌<◌};
ghost use Rattle.tide_core.specs.tide_layout.Region.{block_count};
ghost use Rattle.tide_core.specs.tide_layout.Slots.{HasElement};
ghost use Rattle.tide_core.specs.machine.Kind.{LoadElement, LoadOwnArray, LoadOwnStructure, Nuke, StoreArray, StoreElement, StoreStructure, TakeArray};
ghost use Rattle.tide_model.specs.Layout.{cell_count};
ghost use Rattle.tide_heap.specs.steps.Calls.{CanStep, HasStepped, HasStored};

use crate::heap::Heap;
use crate::shapes::HeapShapes;
use crate::steps::step::Step;
use crate::steps::{Made, Pass};
use tide_core::{Act, Region, array_word};

impl Pass {
    /// Loads an element of the array of a cell that it claims, and sees the property by a call, or doesn't.
    pub fn load_element<S: HeapShapes>(
        &mut self,
        heap: &Heap<S>,
        array: u32,
        place: u8,
        made: Made,
    ) -> u64
        requires within { HasElement heap.now.key.layout array place }
        requires may { CanStep S.lists heap.now self.old (LoadElement array place made) }
        ensures step { HasStepped S.lists heap.now (LoadElement array place made) self.old result self.new }
    {
        let at = heap.element_place(array, place);
        self.make_step(heap, at, Act::Load, Step::LoadElement(array, place, made))
    }

    /// Stores an element: one that a growth owes, one past the keys, or a property by a call, whose barrier it may owe.
    pub fn store_element<S: HeapShapes>(
        &mut self,
        heap: &Heap<S>,
        array: u32,
        place: u8,
        word: u64,
        made: Made,
    )
        requires within { HasElement heap.now.key.layout array place }
        requires may { CanStep S.lists heap.now self.old (StoreElement array place word made) }
        ensures step { HasStored S.lists heap.now (StoreElement array place word made) self.old self.new }
    {
        let at = heap.element_place(array, place);
        let step = Step::StoreElement(array, place, word, made);
        self.make_step(heap, at, Act::Store(word), step);
    }

    /// Clears a bit of a block's free word. Where it was set a call takes the array, and its growth goes to `next`.
    pub fn take_array<S: HeapShapes>(
        &mut self,
        heap: &Heap<S>,
        block: u32,
        k: u32,
        old: u64,
        next: u64,
        made: Made,
    ) -> u64
        requires within { block < block_count heap.now.key.layout }
        requires bit { k < 64 }
        requires may { CanStep S.lists heap.now self.old (TakeArray block k old next made) }
        ensures step { HasStepped S.lists heap.now (TakeArray block k old next made) self.old result self.new }
    {
        let at = heap.place(Region::Free, block);
        let mask = !(1u64 << k);
        let step = Step::TakeArray(block, k, old, next, made);
        self.make_step(heap, at, Act::And(mask), step)
    }

    /// Stores the structure's word with the mark that the array changes, once it has filled the new array.
    pub fn nuke<S: HeapShapes>(&mut self, heap: &Heap<S>, cell: u32, word: u64)
        requires within { cell < cell_count heap.now.key.layout }
        requires may { CanStep S.lists heap.now self.old (Nuke cell word) }
        ensures step { HasStored S.lists heap.now (Nuke cell word) self.old self.new }
    {
        let at = heap.place(Region::Structure, cell);
        self.make_step(heap, at, Act::Store(word), Step::Nuke(cell, word));
    }

    /// Loads which array a cell that it claims has.
    pub fn load_own_array<S: HeapShapes>(&mut self, heap: &Heap<S>, cell: u32) -> u64
        requires within { cell < cell_count heap.now.key.layout }
        requires may { CanStep S.lists heap.now self.old (LoadOwnArray cell) }
        ensures step { HasStepped S.lists heap.now (LoadOwnArray cell) self.old result self.new }
    {
        let at = heap.place(Region::Array, cell);
        self.make_step(heap, at, Act::Load, Step::LoadOwnArray(cell))
    }

    /// Stores the array that it took, once it has nuked the structure.
    pub fn store_array<S: HeapShapes>(&mut self, heap: &Heap<S>, cell: u32, array: u32)
        requires within { cell < cell_count heap.now.key.layout }
        requires may { CanStep S.lists heap.now self.old (StoreArray cell array) }
        ensures step { HasStored S.lists heap.now (StoreArray cell array) self.old self.new }
    {
        let at = heap.place(Region::Array, cell);
        let word = array_word(Some(array));
        self.make_step(heap, at, Act::Store(word), Step::StoreArray(cell, array));
    }

    /// Loads the structure of a cell that it claims.
    pub fn load_own_structure<S: HeapShapes>(&mut self, heap: &Heap<S>, cell: u32) -> u64
        requires within { cell < cell_count heap.now.key.layout }
        requires may { CanStep S.lists heap.now self.old (LoadOwnStructure cell) }
        ensures step { HasStepped S.lists heap.now (LoadOwnStructure cell) self.old result self.new }
    {
        let at = heap.place(Region::Structure, cell);
        self.make_step(heap, at, Act::Load, Step::LoadOwnStructure(cell))
    }

    /// Stores the structure of a cell that it claims: the new one of a growth, or one with a key more by a call.
    pub fn store_structure<S: HeapShapes>(
        &mut self,
        heap: &Heap<S>,
        cell: u32,
        word: u64,
        made: Made,
    )
        requires within { cell < cell_count heap.now.key.layout }
        requires may { CanStep S.lists heap.now self.old (StoreStructure cell word made) }
        ensures step { HasStored S.lists heap.now (StoreStructure cell word made) self.old self.new }
    {
        let at = heap.place(Region::Structure, cell);
        let step = Step::StoreStructure(cell, word, made);
        self.make_step(heap, at, Act::Store(word), step);
    }
}
