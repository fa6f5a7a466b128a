//! Carrying out an action: its steps, in their order, and the reply. It decides nothing.
ghost use Rattle.std.specs.Prelude.{◌≡◌, true};
ghost use Rattle.tide_heap.specs.tide_call.declared.action.Action.TheVariants.{Allocate};
ghost use Rattle.tide_mutator.specs.calls.Actions.{is_acted, is_rest};
ghost use Rattle.tide_mutator.specs.owed.Acting.{HasAnswered, MayAct};

use crate::calls::groups::join;
use crate::calls::growing::grow;
use crate::calls::leaving::leave;
use crate::calls::properties::{append, get_property, put_property};
use crate::calls::registers::{ask, fill, refuse};
use crate::cells::births::allocate;
use crate::cells::claiming::{claim, release};
use crate::cells::cursor::AllocationCursor;
use crate::cells::handles::{get_strong, get_weak, put_strong, put_weak};
use crate::cells::pairs::{drop_pair, get_pair, put_pair};
use crate::cells::slots::{get, put};
use crate::owed::Call;
use tide_heap::{Action, Heap, HeapShapes, Pass};
use tide_model::{Reply, Turnstile};

/// Carries out an action of a handle, of a pair or of a group, or one to retire or to ask for a cycle.
#[inline(always)]
fn act_on_rest<S: HeapShapes>(pass: &mut Pass, heap: &Heap<S>, call: Call, action: Action) -> Reply
    requires may { MayAct S.lists heap.now pass.old call action }
    requires rest { is_rest action ≡ true }
    ensures answered { HasAnswered S.lists heap.now call action result pass.old pass.new }
{
    match action {
        Action::StoreStrong { at, value } => put_strong(pass, heap, call, at, value),
        Action::LoadStrong { dst, at } => get_strong(pass, heap, call, dst, at),
        Action::StoreWeak { at, value } => put_weak(pass, heap, call, at, value),
        Action::LoadWeak { dst, at } => get_weak(pass, heap, call, dst, at),
        Action::StorePair {
            table,
            place,
            key,
            value,
        } => put_pair(pass, heap, call, table, place, key, value),
        Action::ClearPair { table, place } => drop_pair(pass, heap, call, table, place),
        Action::Show {
            dst,
            table,
            place,
            value,
        } => get_pair(pass, heap, call, dst, table, place, value),
        Action::Join { cell, group } => join(pass, heap, call, cell, group),
        Action::Retire => leave(pass, heap, call),
        _ => ask(pass, heap, call),
    }
}

/// Carries out any action but a growth.
#[inline(always)]
fn act_without_growth<S: HeapShapes, T: Turnstile>(
    pass: &mut Pass,
    heap: &Heap<S>,
    turnstile: &T,
    cursor: &mut AllocationCursor,
    call: Call,
    action: Action,
) -> Reply
    requires may { MayAct S.lists heap.now pass.old call action }
    requires acted { is_acted action ≡ true }
    ensures answered { HasAnswered S.lists heap.now call action result pass.old pass.new }
{
    match action {
        Action::Refuse { refusal } => refuse(pass, heap, call, refusal),
        Action::Allocate { dst, class } => allocate(
            pass, heap, turnstile, cursor, call, dst, class,
        ),
        Action::LoadSlot { dst, cell, slot } => get(pass, heap, call, dst, cell, slot),
        Action::StoreSlot { cell, slot, value } => put(
            pass, heap, turnstile, call, cell, slot, value,
        ),
        Action::Fill { dst, value } => fill(pass, heap, call, dst, value),
        Action::Claim { cell, full } => claim(pass, heap, call, cell, full),
        Action::Release { cell } => release(pass, heap, call, cell),
        Action::LoadElement { dst, array, place } => {
            get_property(pass, heap, call, dst, array, place)
        }
        Action::StoreElement {
            cell,
            array,
            place,
            value,
        } => put_property(pass, heap, turnstile, call, cell, array, place, value),
        Action::Append {
            addition,
            array,
            value,
        } => append(pass, heap, turnstile, call, addition, array, value),
        _ => act_on_rest(pass, heap, call, action),
    }
}

/// Carries out the action of a call, whose number its call word tells then.
#[inline(always)]
pub(crate) fn act<S: HeapShapes, T: Turnstile>(
    pass: &mut Pass,
    heap: &Heap<S>,
    turnstile: &T,
    cursor: &mut AllocationCursor,
    call: Call,
    action: Action,
) -> Reply
    requires may { MayAct S.lists heap.now pass.old call action }
    ensures answered { HasAnswered S.lists heap.now call action result pass.old pass.new }
{
    match action {
        Action::Grow {
            addition,
            array,
            class,
            value,
        } => grow(
            pass, heap, turnstile, cursor, call, addition, array, class, value,
        ),
        _ => act_without_growth(pass, heap, turnstile, cursor, call, action),
    }
}
