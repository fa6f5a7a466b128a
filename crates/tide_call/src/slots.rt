//! What operations on slots are to do. It reads no word but the caller's own.
ghost use Rattle.std.specs.Prelude.{◌≡◌, ◌<◌, None, Some, IfErr, IfOk};
ghost use Rattle.tide_words.specs.tide_layout.Slots.{HasSlot};
ghost use Rattle.tide_model.specs.Refused.{slot_refusal};
ghost use Rattle.tide_model.specs.declared.op.Op.TheVariants.{Get, Put};
ghost use Rattle.tide_model.specs.declared.val.Val.TheVariants.{Cell};
ghost use Rattle.tide_call.specs.Callers.{Always, Leaves, MayCallNow};
ghost use Rattle.tide_call.specs.Actions.{IsAction};

use crate::action::Action;
use crate::own::OwnRegisters;
use crate::planner::Planner;
use tide_model::Refusal;
use tide_shape::ShapeTable;
use tide_words::{TABLE, class_of, slots};

impl<'a, S: ShapeTable> Planner<'a, S> {
    /// The cell in a register, which has this slot, or why the slot can't be read or written.
    #[inline(always)]
    fn slot_holder<C, O: OwnRegisters<C>>(
        &self,
        own: &mut O,
        context: &C,
        src: u8,
        slot: u8,
    ) -> Result<u32, Refusal>
        requires of_layout { src < self.now.layout.registers }
        requires known { MayCallNow (O.owns own.old context.now) self.now }
        ensures refused { IfErr result (λ refusal. Always (O.owns own.new context.now) self.now (λ heap state.
            slot_refusal self.now.layout (state.registers self.now.who src) src slot ≡ Some refusal)) }
        ensures granted { IfOk result (λ cell. Always (O.owns own.new context.now) self.now (λ heap state.
            slot_refusal self.now.layout (state.registers self.now.who src) src slot ≡ None)) }
        ensures cell { IfOk result (λ cell. Always (O.owns own.new context.now) self.now (λ heap state.
            state.registers self.now.who src ≡ Cell cell)) }
        ensures slot { IfOk result (λ cell. HasSlot self.now.layout cell slot) }
        ensures owns { Leaves (O.owns own.old) (O.owns own.new) context.now self.now (O.rest own.old) (O.rest own.new) }
    {
        let cell = self.cell_in(own, context, src)?;
        let class = class_of(self.layout(), cell);
        if class == TABLE {
            return Err(Refusal::IsTable);
        }
        if slot >= slots(class) {
            return Err(Refusal::NoSlot { slot });
        }
        Ok(cell)
    }

    /// What a `Get` is to do.
    #[inline(always)]
    pub(crate) fn plan_get<C, O: OwnRegisters<C>>(
        &self,
        own: &mut O,
        context: &C,
        dst: u8,
        src: u8,
        slot: u8,
    ) -> Action
        requires of_layout { src < self.now.layout.registers }
        requires known { MayCallNow (O.owns own.old context.now) self.now }
        ensures action { Always (O.owns own.new context.now) self.now (λ heap state.
            IsAction self.now heap state (Get dst src slot) result) }
        ensures owns { Leaves (O.owns own.old) (O.owns own.new) context.now self.now (O.rest own.old) (O.rest own.new) }
    {
        match self.slot_holder(own, context, src, slot) {
            Ok(cell) => Action::LoadSlot { dst, cell, slot },
            Err(refusal) => Action::Refuse { refusal },
        }
    }

    /// What a `Put` is to do.
    #[inline(always)]
    pub(crate) fn plan_put<C, O: OwnRegisters<C>>(
        &self,
        own: &mut O,
        context: &C,
        src: u8,
        slot: u8,
        val: u8,
    ) -> Action
        requires of_layout { src < self.now.layout.registers }
        requires val_of_layout { val < self.now.layout.registers }
        requires known { MayCallNow (O.owns own.old context.now) self.now }
        ensures action { Always (O.owns own.new context.now) self.now (λ heap state.
            IsAction self.now heap state (Put src slot val) result) }
        ensures owns { Leaves (O.owns own.old) (O.owns own.new) context.now self.now (O.rest own.old) (O.rest own.new) }
    {
        match self.slot_holder(own, context, src, slot) {
            Ok(cell) => Action::StoreSlot {
                cell,
                slot,
                value: self.value_in(own, context, val),
            },
            Err(refusal) => Action::Refuse { refusal },
        }
    }
}
