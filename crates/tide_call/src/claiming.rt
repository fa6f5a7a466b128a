//! What operations on claims are to do. It reads no word but the caller's own.
ghost use Rattle.std.specs.Prelude.{◌≡◌, ◌<◌};
ghost use Rattle.tide_model.specs.State.{State};
ghost use Rattle.tide_words.specs.heap.Heap.{Heap};
ghost use Rattle.tide_model.specs.declared.op.Op.TheVariants.{Claim, Release, Unclaim};
ghost use Rattle.tide_call.specs.Callers.{Always, IsCallerOf, Leaves, MayCallNow};
ghost use Rattle.tide_call.specs.Actions.{IsAction};

use crate::action::Action;
use crate::own::OwnRegisters;
use crate::planner::Planner;
use tide_model::Refusal;
use tide_shape::ShapeTable;

impl<'a, S: ShapeTable> Planner<'a, S> {
    /// What a `Claim` is to do. Whether others claim the cell, its claim word tells, which isn't the caller's own.
    pub(crate) fn plan_claim<C, O: OwnRegisters<C>>(
        &self,
        own: &mut O,
        context: &C,
        src: u8,
    ) -> Action
        requires of_layout { src < self.now.layout.registers }
        requires known { MayCallNow (O.owns own.old context.now) self.now }
        ensures action { Always (O.owns own.new context.now) self.now (λ heap state.
            IsAction self.now heap state (Claim src) result) }
        ensures owns { Leaves (O.owns own.old) (O.owns own.new) context.now self.now (O.rest own.old) (O.rest own.new) }
    {
        match self.cell_in(own, context, src) {
            Ok(cell) => Action::Claim {
                cell,
                full: self.claims().is_full(),
            },
            Err(refusal) => Action::Refuse { refusal },
        }
    }

    /// What a `Release` is to do.
    pub(crate) fn plan_release<C, O: OwnRegisters<C>>(
        &self,
        own: &mut O,
        context: &C,
        src: u8,
    ) -> Action
        requires of_layout { src < self.now.layout.registers }
        requires known { MayCallNow (O.owns own.old context.now) self.now }
        ensures action { Always (O.owns own.new context.now) self.now (λ heap state.
            IsAction self.now heap state (Release src) result) }
        ensures owns { Leaves (O.owns own.old) (O.owns own.new) context.now self.now (O.rest own.old) (O.rest own.new) }
    {
        match self.cell_in(own, context, src) {
            Ok(cell) if self.claims().contains(cell) => Action::Release { cell },
            Ok(_) => Action::Refuse {
                refusal: Refusal::NotHeld,
            },
            Err(refusal) => Action::Refuse { refusal },
        }
    }

    /// What an `Unclaim` is to do.
    pub(crate) fn plan_unclaim(&self) -> Action
        ensures action { (heap : Heap) (state : State) → IsCallerOf self.now state →
            IsAction self.now heap state Unclaim result }
    {
        match self.claims().oldest() {
            Some(cell) => Action::Release { cell },
            None => Action::Refuse {
                refusal: Refusal::NotHeld,
            },
        }
    }
}
