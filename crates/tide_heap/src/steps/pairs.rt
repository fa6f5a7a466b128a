//! A mutator's steps on claims, on the pairs of a table, and on groups.
ghost use Rattle.std.specs.Prelude.{◌≡◌, ◌<◌, None};
ghost use Rattle.tide_core.specs.tide_layout.Region.{place_of_slot};
ghost use Rattle.tide_core.specs.tide_layout.Slots.{HasSlot};
ghost use Rattle.tide_core.specs.machine.Kind.{LoadClaim, LoadPair, Release, StoreGroup, StorePair, TakeClaim};
ghost use Rattle.tide_model.specs.Layout.{cell_count};
ghost use Rattle.tide_heap.specs.steps.Calls.{CanStep, HasStepped, HasStored};

use crate::heap::Heap;
use crate::shapes::HeapShapes;
use crate::steps::step::Step;
use crate::steps::{Made, Pass};
use tide_core::{Act, Region, claim_word};

impl Pass {
    /// Loads a claim word, which may refuse a call.
    pub fn load_claim<S: HeapShapes>(&mut self, heap: &Heap<S>, cell: u32, made: Made) -> u64
        requires within { cell < cell_count heap.now.key.layout }
        requires may { CanStep S.lists heap.now self.old (LoadClaim cell made) }
        ensures step { HasStepped S.lists heap.now (LoadClaim cell made) self.old result self.new }
    {
        let at = heap.place(Region::Claim, cell);
        self.make_step(heap, at, Act::Load, Step::LoadClaim(cell, made))
    }

    /// Takes a claim for this mutator, if nobody has it.
    pub fn take_claim<S: HeapShapes>(
        &mut self,
        heap: &Heap<S>,
        cell: u32,
        holder: u32,
        made: Made,
    ) -> u64
        requires within { cell < cell_count heap.now.key.layout }
        requires may { CanStep S.lists heap.now self.old (TakeClaim cell holder made) }
        ensures step { HasStepped S.lists heap.now (TakeClaim cell holder made) self.old result self.new }
    {
        let at = heap.place(Region::Claim, cell);
        let old = claim_word(None);
        let new = claim_word(Some(holder));
        let step = Step::TakeClaim(cell, holder, made);
        self.make_step(heap, at, Act::Exchange { old, new }, step)
    }

    /// Gives a claim back by a call.
    pub fn release<S: HeapShapes>(&mut self, heap: &Heap<S>, cell: u32, made: Made)
        requires within { cell < cell_count heap.now.key.layout }
        requires may { CanStep S.lists heap.now self.old (Release cell made) }
        ensures step { HasStored S.lists heap.now (Release cell made) self.old self.new }
    {
        let at = heap.place(Region::Claim, cell);
        let word = claim_word(None);
        self.make_step(heap, at, Act::Store(word), Step::Release(cell, made));
    }

    /// Loads the word of a pair of a table that it claims from its place, which is known. No call sees it.
    pub fn load_pair_at<S: HeapShapes>(
        &mut self,
        heap: &Heap<S>,
        table: u32,
        place: u8,
        at: usize,
    ) -> u64
        requires within { HasSlot heap.now.key.layout table place }
        requires at { at ≡ place_of_slot heap.now.key.layout table place }
        requires may { CanStep S.lists heap.now self.old (LoadPair table place None) }
        ensures step { HasStepped S.lists heap.now (LoadPair table place None) self.old result self.new }
    {
        self.make_step(heap, at, Act::Load, Step::LoadPair(table, place, None))
    }

    /// Loads the word of a pair of a table that it claims, and sees the value by a call, or doesn't.
    pub fn load_pair<S: HeapShapes>(
        &mut self,
        heap: &Heap<S>,
        table: u32,
        place: u8,
        made: Made,
    ) -> u64
        requires within { HasSlot heap.now.key.layout table place }
        requires may { CanStep S.lists heap.now self.old (LoadPair table place made) }
        ensures step { HasStepped S.lists heap.now (LoadPair table place made) self.old result self.new }
    {
        let at = heap.slot_place(table, place);
        self.make_step(heap, at, Act::Load, Step::LoadPair(table, place, made))
    }

    /// Stores the word of a pair of a table that it claims, by a call.
    pub fn store_pair<S: HeapShapes>(
        &mut self,
        heap: &Heap<S>,
        table: u32,
        place: u8,
        word: u64,
        made: Made,
    )
        requires within { HasSlot heap.now.key.layout table place }
        requires may { CanStep S.lists heap.now self.old (StorePair table place word made) }
        ensures step { HasStored S.lists heap.now (StorePair table place word made) self.old self.new }
    {
        let at = heap.slot_place(table, place);
        let step = Step::StorePair(table, place, word, made);
        self.make_step(heap, at, Act::Store(word), step);
    }

    /// Stores the group of a cell by a call.
    pub fn store_group<S: HeapShapes>(&mut self, heap: &Heap<S>, cell: u32, word: u64, made: Made)
        requires within { cell < cell_count heap.now.key.layout }
        requires may { CanStep S.lists heap.now self.old (StoreGroup cell word made) }
        ensures step { HasStored S.lists heap.now (StoreGroup cell word made) self.old self.new }
    {
        let at = heap.place(Region::Group, cell);
        let step = Step::StoreGroup(cell, word, made);
        self.make_step(heap, at, Act::Store(word), step);
    }
}
