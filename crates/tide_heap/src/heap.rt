//! `Heap`: the table of words, with its layout and shapes. It knows no participant.
ghost use Rattle.std.specs.Prelude.{◌≡◌, ◌<◌};
ghost use Rattle.tide_core.specs.tide_layout.Region.{index_of_register, place_in, size_of, word_count};
ghost use Rattle.tide_core.specs.tide_layout.Slots.{index_of_element, index_of_slot, HasElement, HasSlot};
ghost use Rattle.tide_core.specs.tide_layout.declared.region.Region.TheVariants.{Elements, Registers, Slots, Stopped};
ghost use Rattle.tide_core.specs.machine.Kind.{index_of_stopped};
ghost use Rattle.tide_heap.specs.Parties.{IsParty};

use crate::shapes::HeapShapes;
use atomic_table::{Table, TableRule};
use std::alloc::Global;
use std::marker::PhantomData;
use tide_core::{Layout, Region, View};

/// What a heap is made of.
#[derive(Drop)]
pub struct Key<S> {
    pub layout: Layout,
    pub shapes: S,
}

/// The rule of the table: the wave of the machine over its words and views.
pub struct Waves<S> {
    of: PhantomData<S>,
}

impl<S: HeapShapes> TableRule<(), View, Key<S>> for Waves<S> {
    ghost use Rattle.tide_heap.specs.Rule.{Rule};
    ghost use Rattle.tide_heap.specs.Turns.{first_view};

    ghost holds = { λ key. Rule key.layout (S.lists key.shapes) };

    ghost first = { λ key. first_view key.layout };
}

/// A heap of words that threads share. Its fields are public, for those who make and close it: whoever steps on the
/// table keeps its rule, and the key is that of the table.
#[derive(Drop)]
pub struct Heap<S: HeapShapes> {
    pub table: Table<(), View, Key<S>, Waves<S>, Global>,
    pub key: Key<S>,
    ghost same_layout: { key.layout ≡ table.shared.key.layout },
    ghost same_shapes: { key.shapes ≡ table.shared.key.shapes },
    ghost sized: { table.shared.table_id.words ≡ word_count key.layout },
    ghost slotless: { table.shared.table_id.slots ≡ 0 },
}

impl<S: HeapShapes> Heap<S> {
    /// The layout that it was made of.
    pub fn layout(&self) -> &Layout
        ensures { result.now ≡ self.now.key.layout }
    {
        &self.key.layout
    }

    /// The shapes that it was made of.
    pub fn shapes(&self) -> &S
        ensures { result.now ≡ self.now.key.shapes }
    {
        &self.key.shapes
    }

    /// The place of a region's word.
    pub fn place(&self, region: Region, index: u32) -> usize
        requires { index < size_of self.now.key.layout region }
        ensures { result ≡ place_in self.now.key.layout region index }
    {
        self.key.layout.place(region, index)
    }

    /// The index of a participant's word in Stopped: mutators come first, and then visitors.
    pub fn stopped_index(&self, who: u32) -> u32
        requires party { IsParty self.now.key.layout who }
        ensures index { result ≡ index_of_stopped self.now.key.layout who }
        ensures within { result < size_of self.now.key.layout Stopped }
    {
        let mutators = u32::from(self.key.layout.mutators());
        if who < mutators {
            who
        } else {
            mutators + (who - 16)
        }
    }

    /// The place of a mutator's register.
    pub fn register_place(&self, who: u32, register: u8) -> usize
        requires mutator { who < self.now.key.layout.mutators }
        requires within { register < self.now.key.layout.registers }
        ensures { result ≡ place_in self.now.key.layout Registers
            (index_of_register self.now.key.layout who register) }
    {
        self.key.layout.register(who, register)
    }

    /// The place of a cell's slot.
    pub fn slot_place(&self, cell: u32, slot: u8) -> usize
        requires { HasSlot self.now.key.layout cell slot }
        ensures place { result ≡ place_in self.now.key.layout Slots (index_of_slot self.now.key.layout cell slot) }
        ensures within { index_of_slot self.now.key.layout cell slot < size_of self.now.key.layout Slots }
    {
        self.key.layout.slot(cell, slot)
    }

    /// The place of an array's element.
    pub fn element_place(&self, array: u32, place: u8) -> usize
        requires { HasElement self.now.key.layout array place }
        ensures place { result ≡ place_in self.now.key.layout Elements
            (index_of_element self.now.key.layout array place) }
        ensures within { index_of_element self.now.key.layout array place < size_of self.now.key.layout Elements }
    {
        self.key.layout.element(array, place)
    }
}
