//! What the addition of a property is to do. It reads no word but the caller's own.
ghost use Rattle.std.specs.Prelude.{◌≡◌, ◌+◌, ◌<◌, ℕ, None, Some, true, IfErr, IfOk};
ghost use Rattle.tide_model.specs.Layout.{array_class_for, cell_count};
ghost use Rattle.tide_model.specs.Numbers.{is_among};
ghost use Rattle.tide_model.specs.Refused.{refusal_of};
ghost use Rattle.tide_model.specs.declared.op.Op.TheVariants.{Add};
ghost use Rattle.tide_model.specs.declared.val.Val.TheVariants.{Cell};
ghost use Rattle.tide_call.specs.Callers.{Always, Leaves, MayCallNow};
ghost use Rattle.tide_call.specs.declared.action.Action.TheVariants.{Grow};
ghost use Rattle.tide_call.specs.Actions.{IsAddition, IsAction};

use crate::action::{Action, Addition};
use crate::own::OwnWords;
use crate::planner::Planner;
use tide_model::{Refusal, Val};
use tide_shape::{ShapeTable, array_class_for, capacity};

/// The addition in an array that is still to be taken, in place of the one that the cell has, if it has one.
fn growth(addition: Addition, array: Option<u32>, value: Val) -> Action
    requires { addition.count < 64 }
    ensures { result ≡ Grow addition array (array_class_for (addition.count + 1)) value }
{
    Action::Grow {
        addition,
        array,
        class: array_class_for(u32::from(addition.count) + 1),
        value,
    }
}

impl<'a, S: ShapeTable> Planner<'a, S> {
    /// The addition of a key to the cell in a register, or why it can't be added. Want of room is apart.
    fn find_addition<C, O: OwnWords<C>>(
        &self,
        own: &mut O,
        context: &C,
        src: u8,
        key: u32,
    ) -> Result<Addition, Refusal>
        requires of_layout { src < self.now.layout.registers }
        requires known { MayCallNow (O.owns own.old context.now) self.now }
        ensures refused { IfErr result (λ refusal. Always (O.owns own.new context.now) self.now (λ heap state.
            (val : ℕ) → refusal_of self.now.layout self.now.shapes state self.now.who (Add src key val) ≡
            Some refusal)) }
        ensures granted { IfOk result (λ addition. Always (O.owns own.new context.now) self.now (λ heap state.
            (val : ℕ) → refusal_of self.now.layout self.now.shapes state self.now.who (Add src key val) ≡ None)) }
        ensures cell { IfOk result (λ addition. Always (O.owns own.new context.now) self.now (λ heap state.
            state.registers self.now.who src ≡ Cell addition.cell)) }
        ensures addition { IfOk result (λ addition. Always (O.owns own.new context.now) self.now (λ heap state.
            IsAddition self.now state key addition)) }
        ensures few { IfOk result (λ addition. addition.count < 64) }
        ensures within { IfOk result (λ addition. addition.cell < cell_count self.now.layout) }
        ensures claimed { IfOk result (λ addition. is_among self.now.claims addition.cell ≡ true) }
        ensures owns { Leaves (O.owns own.old) (O.owns own.new) context.now self.now (O.rest own.old) (O.rest own.new) }
    {
        let cell = self.property_holder(own, context, src)?;
        let shape = self.shape_of(own, context, cell);
        if self.shapes().place(shape, key).is_some() {
            return Err(Refusal::Present);
        }
        let Some(next) = self.shapes().next(shape, key) else {
            return Err(Refusal::NoShape);
        };
        Ok(Addition {
            cell,
            shape,
            next,
            count: self.shapes().count(shape) as u8,
        })
    }

    /// What an `Add` is to do.
    pub(crate) fn plan_add<C, O: OwnWords<C>>(
        &self,
        own: &mut O,
        context: &C,
        src: u8,
        key: u32,
        val: u8,
    ) -> Action
        requires of_layout { src < self.now.layout.registers }
        requires val_of_layout { val < self.now.layout.registers }
        requires known { MayCallNow (O.owns own.old context.now) self.now }
        ensures action { Always (O.owns own.new context.now) self.now (λ heap state.
            IsAction self.now heap state (Add src key val) result) }
        ensures owns { Leaves (O.owns own.old) (O.owns own.new) context.now self.now (O.rest own.old) (O.rest own.new) }
    {
        let addition = match self.find_addition(own, context, src, key) {
            Ok(addition) => addition,
            Err(refusal) => return Action::Refuse { refusal },
        };
        let value = self.value_in(own, context, val);
        let count = u32::from(addition.count);
        let Some(array) = self.array_of(own, context, addition.cell) else {
            return growth(addition, None, value);
        };
        if count == capacity(count) {
            return growth(addition, Some(array), value);
        }
        Action::Append {
            addition,
            array,
            value,
        }
    }
}
