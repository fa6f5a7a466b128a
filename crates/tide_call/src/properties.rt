//! What operations on properties that a cell has are to do. It reads no word but the caller's own.
ghost use Rattle.std.specs.Prelude.{◌≡◌, ◌<◌, ℕ, List, Option, None, Some, true, IfErr, IfOk};
ghost use Rattle.tide_words.specs.tide_layout.Slots.{HasElement};
ghost use Rattle.tide_model.specs.Applied.{place_of};
ghost use Rattle.tide_model.specs.Layout.{cell_count};
ghost use Rattle.tide_model.specs.Numbers.{is_among};
ghost use Rattle.tide_model.specs.Refused.{first_of, holder_refusal, property_refusal};
ghost use Rattle.tide_model.specs.declared.op.Op.TheVariants.{GetProp, SetProp};
ghost use Rattle.tide_model.specs.declared.op.Refusal.{Refusal as TheRefusal};
ghost use Rattle.tide_model.specs.declared.val.Val.TheVariants.{Cell};
ghost use Rattle.tide_call.specs.Callers.{Always, Leaves, MayCallNow};
ghost use Rattle.tide_call.specs.Actions.{IsAction};
ghost use Rattle.tide_call.specs.Properties.{IsPropertyOf};

use crate::action::Action;
use crate::own::OwnWords;
use crate::planner::Planner;
use tide_model::Refusal;
use tide_shape::ShapeTable;
use tide_words::{TABLE, class_of};

/// A property: the cell that has it, and the element that it stands in.
#[derive(Clone, Copy)]
struct Property {
    cell: u32,
    array: u32,
    place: u8,
}

impl<'a, S: ShapeTable> Planner<'a, S> {
    /// The cell in a register, which has properties and which the caller claims, or why an operation on these is
    /// refused.
    pub(crate) fn property_holder<C, O: OwnWords<C>>(
        &self,
        own: &mut O,
        context: &C,
        src: u8,
    ) -> Result<u32, Refusal>
        requires of_layout { src < self.now.layout.registers }
        requires known { MayCallNow (O.owns own.old context.now) self.now }
        ensures refused { IfErr result (λ refusal. Always (O.owns own.new context.now) self.now (λ heap state.
            (further : ℕ → List (Option TheRefusal)) →
            holder_refusal self.now.layout state self.now.who src further ≡ Some refusal)) }
        ensures granted { IfOk result (λ cell. Always (O.owns own.new context.now) self.now (λ heap state.
            (further : ℕ → List (Option TheRefusal)) →
            holder_refusal self.now.layout state self.now.who src further ≡ first_of (further cell))) }
        ensures cell { IfOk result (λ cell. Always (O.owns own.new context.now) self.now (λ heap state.
            state.registers self.now.who src ≡ Cell cell)) }
        ensures within { IfOk result (λ cell. cell < cell_count self.now.layout) }
        ensures claimed { IfOk result (λ cell. is_among self.now.claims cell ≡ true) }
        ensures owns { Leaves (O.owns own.old) (O.owns own.new) context.now self.now (O.rest own.old) (O.rest own.new) }
    {
        let cell = self.cell_in(own, context, src)?;
        if class_of(self.layout(), cell) == TABLE {
            return Err(Refusal::IsTable);
        }
        if !self.claims().contains(cell) {
            return Err(Refusal::NotHeld);
        }
        Ok(cell)
    }

    /// Where a property of the cell in a register stands, or why it can't be read or written.
    fn find_property<C, O: OwnWords<C>>(
        &self,
        own: &mut O,
        context: &C,
        src: u8,
        key: u32,
    ) -> Result<Property, Refusal>
        requires of_layout { src < self.now.layout.registers }
        requires known { MayCallNow (O.owns own.old context.now) self.now }
        ensures refused { IfErr result (λ refusal. Always (O.owns own.new context.now) self.now (λ heap state.
            property_refusal self.now.layout state self.now.who src key ≡ Some refusal)) }
        ensures property { IfOk result (λ found. Always (O.owns own.new context.now) self.now (λ heap state.
            IsPropertyOf self.now state src key found.cell found.array found.place)) }
        ensures owns { Leaves (O.owns own.old) (O.owns own.new) context.now self.now (O.rest own.old) (O.rest own.new) }
    {
        let cell = self.property_holder(own, context, src)?;
        let shape = self.shape_of(own, context, cell);
        let Some(place) = self.shapes().place(shape, key) else {
            return Err(Refusal::Absent);
        };
        let Some(array) = self.array_of(own, context, cell) else {
            return Err(Refusal::Absent);
        };
        Ok(Property {
            cell,
            array,
            place: place as u8,
        })
    }

    /// What a `GetProp` is to do.
    #[inline(always)]
    pub(crate) fn plan_get_property<C, O: OwnWords<C>>(
        &self,
        own: &mut O,
        context: &C,
        dst: u8,
        src: u8,
        key: u32,
    ) -> Action
        requires of_layout { src < self.now.layout.registers }
        requires known { MayCallNow (O.owns own.old context.now) self.now }
        ensures action { Always (O.owns own.new context.now) self.now (λ heap state.
            IsAction self.now heap state (GetProp dst src key) result) }
        ensures owns { Leaves (O.owns own.old) (O.owns own.new) context.now self.now (O.rest own.old) (O.rest own.new) }
    {
        match self.find_property(own, context, src, key) {
            Ok(Property { array, place, .. }) => Action::LoadElement { dst, array, place },
            Err(refusal) => Action::Refuse { refusal },
        }
    }

    /// What a `SetProp` is to do.
    #[inline(always)]
    pub(crate) fn plan_set_property<C, O: OwnWords<C>>(
        &self,
        own: &mut O,
        context: &C,
        src: u8,
        key: u32,
        val: u8,
    ) -> Action
        requires of_layout { src < self.now.layout.registers }
        requires val_of_layout { val < self.now.layout.registers }
        requires known { MayCallNow (O.owns own.old context.now) self.now }
        ensures action { Always (O.owns own.new context.now) self.now (λ heap state.
            IsAction self.now heap state (SetProp src key val) result) }
        ensures owns { Leaves (O.owns own.old) (O.owns own.new) context.now self.now (O.rest own.old) (O.rest own.new) }
    {
        match self.find_property(own, context, src, key) {
            Ok(found) => Action::StoreElement {
                cell: found.cell,
                array: found.array,
                place: found.place,
                value: self.value_in(own, context, val),
            },
            Err(refusal) => Action::Refuse { refusal },
        }
    }
}
