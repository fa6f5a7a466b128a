//! `Planner::plan_call`: what a call is to do, of whichever operation. It reads no word but the caller's own.
ghost use Rattle.std.specs.Prelude.{◌≡◌, ◌<◌, true};
ghost use Rattle.tide_model.specs.Lawful.{FitsLayout};
ghost use Rattle.tide_model.specs.declared.op.Op.TheVariants.{Group};
ghost use Rattle.tide_call.specs.Callers.{Always, Leaves, MayCallNow};
ghost use Rattle.tide_call.specs.Actions.{IsAction, is_told_by_registers};

use crate::action::Action;
use crate::own::{OwnRegisters, OwnWords};
use crate::planner::Planner;
use tide_model::{Op, Val};
use tide_shape::ShapeTable;
use tide_words::TABLE;

impl<'a, S: ShapeTable> Planner<'a, S> {
    /// What a `Group` is to do.
    fn plan_group<C, O: OwnRegisters<C>>(
        &self,
        own: &mut O,
        context: &C,
        src: u8,
        group: u32,
    ) -> Action
        requires of_layout { src < self.now.layout.registers }
        requires known { MayCallNow (O.owns own.old context.now) self.now }
        ensures action { Always (O.owns own.new context.now) self.now (λ heap state.
            IsAction self.now heap state (Group src group) result) }
        ensures owns { Leaves (O.owns own.old) (O.owns own.new) context.now self.now (O.rest own.old) (O.rest own.new) }
    {
        match self.cell_in(own, context, src) {
            Ok(cell) => Action::Join { cell, group },
            Err(refusal) => Action::Refuse { refusal },
        }
    }

    /// What a call is to do whose mutator's registers and claims alone tell it: the first refusal that these tell, or
    /// what it does then. It takes no memory.
    #[inline(always)]
    pub fn plan_by_registers<C, O: OwnRegisters<C>>(
        &self,
        own: &mut O,
        context: &C,
        op: Op,
    ) -> Action
        requires fits { FitsLayout self.now.layout op }
        requires told { is_told_by_registers op ≡ true }
        requires known { MayCallNow (O.owns own.old context.now) self.now }
        ensures action { Always (O.owns own.new context.now) self.now (λ heap state.
            IsAction self.now heap state op result) }
        ensures owns { Leaves (O.owns own.old) (O.owns own.new) context.now self.now (O.rest own.old) (O.rest own.new) }
    {
        match op {
            Op::Alloc { dst, class } => Action::Allocate { dst, class },
            Op::Table { dst } => Action::Allocate { dst, class: TABLE },
            Op::Get { dst, src, slot } => self.plan_get(own, context, dst, src, slot),
            Op::Put { src, slot, val } => self.plan_put(own, context, src, slot, val),
            Op::Move { dst, src } => Action::Fill {
                dst,
                value: self.value_in(own, context, src),
            },
            Op::Set { dst, n } => Action::Fill {
                dst,
                value: Val::Int(n),
            },
            Op::Drop { dst } => Action::Fill {
                dst,
                value: Val::Empty,
            },
            Op::Claim { src } => self.plan_claim(own, context, src),
            Op::Release { src } => self.plan_release(own, context, src),
            Op::Unclaim => self.plan_unclaim(),
            Op::StrongSet { at, val } => Action::StoreStrong {
                at,
                value: self.value_in(own, context, val),
            },
            Op::StrongGet { dst, at } => Action::LoadStrong { dst, at },
            Op::WeakSet { at, val } => Action::StoreWeak {
                at,
                value: self.value_in(own, context, val),
            },
            Op::WeakGet { dst, at } => Action::LoadWeak { dst, at },
            Op::Group { src, n } => self.plan_group(own, context, src, n),
            Op::Retire => Action::Retire,
            _ => Action::Ask,
        }
    }

    /// What a call of the operation is to do: the first refusal that the caller's own words tell, or what it does then.
    /// Whether another mutator claims a cell, and whether a class has room, they don't tell. It takes no memory.
    #[inline(always)]
    pub fn plan_call<C, O: OwnWords<C>>(&self, own: &mut O, context: &C, op: Op) -> Action
        requires fits { FitsLayout self.now.layout op }
        requires known { MayCallNow (O.owns own.old context.now) self.now }
        ensures action { Always (O.owns own.new context.now) self.now (λ heap state.
            IsAction self.now heap state op result) }
        ensures owns { Leaves (O.owns own.old) (O.owns own.new) context.now self.now (O.rest own.old) (O.rest own.new) }
    {
        match op {
            Op::Add { src, key, val } => self.plan_add(own, context, src, key, val),
            Op::GetProp { dst, src, key } => self.plan_get_property(own, context, dst, src, key),
            Op::SetProp { src, key, val } => self.plan_set_property(own, context, src, key, val),
            Op::PairSet { src, key, val } => self.plan_pair_set(own, context, src, key, val),
            Op::PairGet { dst, src, key } => self.plan_pair_get(own, context, dst, src, key),
            Op::PairDel { src, key } => self.plan_pair_delete(own, context, src, key),
            _ => self.plan_by_registers(own, context, op),
        }
    }
}
