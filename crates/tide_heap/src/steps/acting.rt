//! A participant's operation on a word. Which kind of step it makes is picked by its caller.
ghost use Rattle.std.specs.Prelude.{◌≡◌, true};
ghost use Rattle.tide_core.specs.tide_layout.Region.{place_in, size_of};
ghost use Rattle.tide_core.specs.machine.Kind.{act_of, index_of, region_of};
ghost use Rattle.tide_core.specs.declared.machine.view.Role.TheVariants.{Member};
ghost use Rattle.tide_heap.specs.steps.Calls.{CanStep, HasActed};
ghost use Rattle.tide_heap.specs.steps.Follows.{May, StandsAt, Tells};
ghost use Rattle.tide_heap.specs.steps.Steps.{kind_of};
ghost use Rattle.tide_heap.specs.steps.Works.{is_plain};

use crate::heap::Heap;
use crate::shapes::HeapShapes;
use crate::steps::pass::Pass;
use crate::steps::plays::{Finds, Intent, Puts};
use crate::steps::step::Step;
use atomic_table::Seat;
use std::marker::Brand;
use tide_core::{Act, View};

/// Does an operation on a word. Answers the word that was there, and of a store the one that was stored.
pub(crate) fn act_as<S: HeapShapes, J: Intent>(
    seat: &mut Seat<(), View>,
    heap: &Heap<S>,
    at: usize,
    act: Act,
    _step: Step,
) -> u64
    requires own { seat.old.table_id ≡ heap.now.table.shared.table_id }
    requires layout { heap.now.key.layout ≡ J.layout }
    requires shapes { S.lists heap.now.key.shapes ≡ J.shapes }
    requires role { seat.old.me.0.role ≡ Member }
    requires may { May J.layout J.shapes seat.old.me.0 J.kind at act }
    ensures same { (seat.new.table_id ≡ seat.old.table_id) × (seat.new.id ≡ seat.old.id) }
    ensures step { Tells act J.layout J.shapes J.kind seat.old.me.0 result seat.new.me.0 }
{
    // Each is one sequentially consistent operation on one word, so all steps of all participants have one order. The
    // history's entries have that order (`stepped`, tide_core/specs/machine/Machine.antt).
    let table = &heap.table.shared;
    match act {
        Act::Load => table.load::<Finds<J>>(seat, at),
        Act::Store(word) => {
            table.store::<Puts<J>>(seat, at, word);
            word
        }
        Act::Swap => table.swap::<Finds<J>>(seat, at, 0),
        Act::And(mask) => table.fetch_and::<Finds<J>>(seat, at, mask),
        Act::Or(mask) => table.fetch_or::<Finds<J>>(seat, at, mask),
        Act::Exchange { old, new } => table.compare_exchange::<Finds<J>>(seat, at, old, new),
    }
}

impl Pass {
    /// Makes a step that leaves its numbers, by this operation on this word.
    pub(crate) fn make_step<S: HeapShapes>(
        &mut self,
        heap: &Heap<S>,
        at: usize,
        act: Act,
        step: Step,
    ) -> u64
        requires plain { is_plain (kind_of heap.now.key.layout step) ≡ true }
        requires stands { StandsAt heap.now.key.layout self.old.seat.me.0.who (kind_of heap.now.key.layout step) at }
        requires acts { act ≡ act_of (kind_of heap.now.key.layout step) }
        requires may { CanStep S.lists heap.now self.old (kind_of heap.now.key.layout step) }
        ensures step { HasActed S.lists act heap.now (kind_of heap.now.key.layout step) self.old result self.new }
    {
        act_as::<S, Brand>(&mut self.seat, heap, at, act, step)
    }
}
