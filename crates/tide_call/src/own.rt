//! `OwnRegisters` and `OwnWords`: the words that a mutator alone changes, wherever they are. They know no operation.
ghost use Rattle.std.specs.Prelude.{◌≡◌, ◌<◌, ℕ, Some, true};
ghost use Rattle.tide_words.specs.tide_layout.Region.{index_of_register, place_of_slot};
ghost use Rattle.tide_words.specs.tide_layout.Slots.{HasSlot};
ghost use Rattle.tide_words.specs.tide_layout.declared.region.Region.TheVariants.{Array, Claim, Registers, Structure};
ghost use Rattle.tide_model.specs.Layout.{Layout as PlainLayout, cell_count};
ghost use Rattle.tide_model.specs.Refused.{is_table};
ghost use Rattle.tide_words.specs.forms.Reference.{claim_word};
ghost use Rattle.tide_words.specs.heap.Heap.{Heap};
ghost use Rattle.tide_words.specs.heap.Reading.{slot_word};
ghost use Rattle.tide_call.specs.Callers.{LeavesOwn};

use tide_words::Layout;

/// The words of registers, which each mutator alone changes. While it runs it may read them at any moments. What
/// reading tells holds of the heaps that have the words as they are known after it.
pub trait OwnRegisters<C> {
    /// The heap has these words of the mutator, and those of the cells that it claims, as far as they are known.
    ghost owns: { Self → C → PlainLayout → ℕ → Heap → Type 0 };

    /// What reading them leaves as it is.
    ghost Rest: { Type 0 };

    ghost rest: { Self → Rest };

    /// The word of a register of the mutator.
    fn register(&mut self, context: &C, layout: &Layout, who: u32, register: u8) -> u64
        requires mutator { who < layout.now.mutators }
        requires of_layout { register < layout.now.registers }
        requires known { (heap : Heap) × owns self.old context.now layout.now who heap }
        ensures word { (heap : Heap) → owns self.new context.now layout.now who heap →
            result ≡ heap Registers (index_of_register layout.now who register) }
        ensures owns { LeavesOwn (owns self.old) (owns self.new) context.now layout.now who (rest self.old)
            (rest self.new) };
}

/// The words that mutators alone change, each its own: those of its registers, and of the cells that it claims the
/// structure, the array and the pairs. While it runs nobody else changes them, so it may read them at any moments, one
/// after another: one that was read is known from then on.
pub trait OwnWords<C>: OwnRegisters<C> {
    /// The structure word of a cell, which the mutator claims.
    fn structure(&mut self, context: &C, layout: &Layout, who: u32, cell: u32) -> u64
        requires mutator { who < layout.now.mutators }
        requires of_layout { cell < cell_count layout.now }
        requires claimed { (heap : Heap) → Self.owns self.old context.now layout.now who heap →
            heap Claim cell ≡ claim_word (Some who) }
        requires known { (heap : Heap) × Self.owns self.old context.now layout.now who heap }
        ensures word { (heap : Heap) → Self.owns self.new context.now layout.now who heap →
            result ≡ heap Structure cell }
        ensures owns { LeavesOwn (Self.owns self.old) (Self.owns self.new) context.now layout.now who
            (Self.rest self.old) (Self.rest self.new) };

    /// The array word of a cell, which the mutator claims.
    fn array(&mut self, context: &C, layout: &Layout, who: u32, cell: u32) -> u64
        requires mutator { who < layout.now.mutators }
        requires of_layout { cell < cell_count layout.now }
        requires claimed { (heap : Heap) → Self.owns self.old context.now layout.now who heap →
            heap Claim cell ≡ claim_word (Some who) }
        requires known { (heap : Heap) × Self.owns self.old context.now layout.now who heap }
        ensures word { (heap : Heap) → Self.owns self.new context.now layout.now who heap →
            result ≡ heap Array cell }
        ensures owns { LeavesOwn (Self.owns self.old) (Self.owns self.new) context.now layout.now who
            (Self.rest self.old) (Self.rest self.new) };

    /// The word at a place of a table, which the mutator claims. It lies `at` this place among all words.
    fn pair(
        &mut self,
        context: &C,
        layout: &Layout,
        who: u32,
        table: u32,
        place: u8,
        at: usize,
    ) -> u64
        requires mutator { who < layout.now.mutators }
        requires of_layout { HasSlot layout.now table place }
        requires table { is_table layout.now table ≡ true }
        requires at { at ≡ place_of_slot layout.now table place }
        requires claimed { (heap : Heap) → Self.owns self.old context.now layout.now who heap →
            heap Claim table ≡ claim_word (Some who) }
        requires known { (heap : Heap) × Self.owns self.old context.now layout.now who heap }
        ensures word { (heap : Heap) → Self.owns self.new context.now layout.now who heap →
            result ≡ slot_word layout.now heap table place }
        ensures owns { LeavesOwn (Self.owns self.old) (Self.owns self.new) context.now layout.now who
            (Self.rest self.old) (Self.rest self.new) };
}
