//! A realm one of whose handles another mutator sets: of that handle nothing is claimed then, and nothing else breaks.
ghost use Rattle.std.specs.Prelude.{◌≡◌};
ghost use Rattle.tide.specs.tide_mutator.calls.Viewed as works;
ghost use Rattle.tide.specs.tide_weakref.Calls.{IsRunning};
ghost use Rattle.tide.specs.tide_weakref.Viewed.{jobs_of, view_of};
ghost use Rattle.tide.specs.tide_weakref.Worked.{IsReady};

use crate::parts::{begin, heap_layout, new_realm};
use std::alloc::Global;
use tide::{FreePass, Heap, Memory, Mutator, Op, Paths, Realm, Shapes, Start, Val};

/// The realm makes a reference, and the other mutator sets its weak handle, to nothing and to a cell of its own: the
/// reference leads there, though its target lives. A second reference, whose handle is left alone, leads to its target.
fn meddle(heap: &Heap<Shapes>, realm: &mut Realm, other: &mut Mutator) -> Option<bool>
    requires ready { IsReady heap.now.table.shared.table_id heap.now.key.layout realm.old }
    requires runs { IsRunning heap.now.table.shared.table_id heap.now.key.layout other.old }
    requires registers { (heap.now.key.layout.registers ≡ 4) × ((jobs_of realm.old).scratch ≡ 3) }
    requires fresh { ((view_of realm.old).born ≡ 0) × ((works.view_of other.old).born ≡ 0) }
{
    let turnstile = &FreePass;
    realm.call(heap, Op::Alloc { dst: 0, class: 0 }, turnstile);
    let Ok(r) = realm.make_ref(heap, 0, turnstile) else {
        return None;
    };
    other.try_call(heap, Op::WeakSet { at: 0, val: 0 }, turnstile);
    let lost = realm.deref(heap, r, 1, turnstile) == Ok(Val::Empty);
    other.try_call(heap, Op::Alloc { dst: 0, class: 0 }, turnstile);
    other.try_call(heap, Op::WeakSet { at: 0, val: 0 }, turnstile);
    let foreign = realm.deref(heap, r, 1, turnstile) == Ok(Val::Cell(1));
    let Ok(own) = realm.make_ref(heap, 0, turnstile) else {
        return None;
    };
    let found = realm.deref(heap, own, 1, turnstile) == Ok(Val::Cell(0));
    realm.end_job(heap, turnstile);
    Some(lost && foreign && found)
}

/// A part of both, from their tickets to the freeze after it.
fn run_both(alloc: Global, shapes: Shapes) -> Result<Option<bool>, Memory> {
    let Start {
        heap,
        mut collector,
        mut mutators,
        visitors: _,
    } = Start::new(alloc, heap_layout(2), shapes)?;
    let (Some(second), Some(first)) = (mutators.pop(), mutators.pop()) else {
        return Ok(None);
    };
    let mut realm = new_realm(alloc, first, 2, 4)?;
    let mut other = Mutator::new(second);
    collector.open_first(&heap, 20);
    begin(&heap, &mut collector, &mut realm);
    let ticket = collector.ticket(&heap);
    other.begin(&heap, ticket);
    Ok(meddle(&heap, &mut realm, &mut other))
}

/// Another mutator sets the handle of a realm's reference. Answers whether that led where the other one set it, and
/// another reference to its own target.
pub fn foreign_handle_breaks_no_other(alloc: Global) -> Option<bool> {
    let shapes = Shapes::new(alloc, &Paths::new(alloc)).ok()?;
    run_both(alloc, shapes).ok()?
}
