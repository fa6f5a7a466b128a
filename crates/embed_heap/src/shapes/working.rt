//! A heap over a settled table, and a mutator on it. The heap isn't closed, as the mutator keeps its claim.
ghost use Rattle.std.specs.Prelude.{◌≡◌, ◌<◌, IfOk, vec_len};
ghost use Rattle.tide.specs.tide_grow_shape.growers.Lists.{settled_lists};
ghost use Rattle.tide.specs.tide_core.machine.Frozen.{newcomer};
ghost use Rattle.tide.specs.tide_mutator.calls.Viewed.{table_of, view_of};
ghost use Rattle.tide.specs.tide_table.Started.{ArePasses, IsStarted};

use std::alloc::Global;
use tide::{
    Collector, FreePass, Heap, Layout, Memory, Mutator, Op, Pass, Reply, Settled, ShapeTable,
    Start, Ticket,
};

/// Takes a cell, claims it, and adds a property by the key 1, by the key 0, and by the key 1 again.
fn add_thrice<S: ShapeTable>(
    heap: &Heap<S>,
    mut mutator: Mutator,
    ticket: Ticket,
) -> (Reply, Reply, Reply)
    requires own { table_of mutator ≡ heap.now.table.shared.table_id }
    requires of_heap { ticket.seat.table_id ≡ heap.now.table.shared.table_id }
    requires new { view_of mutator ≡ newcomer 0 }
    requires part { 0 < ticket.seat.me.0.period }
    requires one { heap.now.key.layout.mutators ≡ 1 }
    requires two { heap.now.key.layout.registers ≡ 2 }
{
    let turnstile = &FreePass;
    mutator.begin(heap, ticket);
    mutator.call(heap, Op::Alloc { dst: 0, class: 0 }, turnstile);
    mutator.call(heap, Op::Claim { src: 0 }, turnstile);
    let (a, b) = (0, 1);
    let early = mutator.call(heap, add(b), turnstile);
    let first = mutator.call(heap, add(a), turnstile);
    let then = mutator.call(heap, add(b), turnstile);
    mutator.stop(heap);
    (early, first, then)
}

/// Adds a property to the cell in register 0, with the value in register 1.
fn add(key: u32) -> Op
    ensures { result ≡ Op.Add 0 key 1 }
{
    Op::Add {
        src: 0,
        key,
        val: 1,
    }
}

/// Opens the first part, and makes the mutator's calls in it.
fn run_part(heap: &Heap<Settled>, mut collector: Collector, pass: Pass) -> (Reply, Reply, Reply)
    requires own { collector.seat.table_id ≡ heap.now.table.shared.table_id }
    requires of_heap { pass.seat.table_id ≡ heap.now.table.shared.table_id }
    requires started { IsStarted heap.now.key.layout (settled_lists heap.now.key.shapes) collector.seat.me.0 }
    requires new { pass.seat.me.0 ≡ newcomer 0 }
    requires one { (heap.now.key.layout.mutators ≡ 1) × (heap.now.key.layout.visitors ≡ 0) }
    requires two { heap.now.key.layout.registers ≡ 2 }
{
    collector.open_first(heap, 8);
    let ticket = collector.ticket(heap);
    add_thrice(heap, Mutator::new(pass), ticket)
}

/// A heap of a layout, over a settled table.
fn start_over(alloc: Global, layout: Layout, shapes: Settled) -> Result<Start<Settled>, Memory>
    ensures layout { IfOk result (λ s. s.heap.key.layout ≡ layout) }
    ensures collector { IfOk result (λ s. s.collector.seat.table_id ≡ s.heap.table.shared.table_id) }
    ensures started { IfOk result (λ s.
        IsStarted s.heap.key.layout (settled_lists s.heap.key.shapes) s.collector.seat.me.0) }
    ensures mutators { IfOk result (λ s. (vec_len s.mutators ≡ layout.mutators)
        × ArePasses s.heap.table.shared.table_id 0 s.mutators.items) }
{
    Start::new(alloc, layout, shapes)
}

/// Starts a small heap over the shapes, and runs a part of one mutator on it. `None` where memory ran out.
pub fn run(alloc: Global, shapes: Settled) -> Option<(Reply, Reply, Reply)> {
    let layout = Layout::new([1, 0, 0, 0, 1], [1, 1, 0, 0, 0], 2, 2, 2, 1, 0);
    let Ok(start) = start_over(alloc, layout, shapes) else {
        return None;
    };
    let Start {
        heap,
        collector,
        mut mutators,
        visitors: _,
    } = start;
    let pass = mutators.pop()?;
    Some(run_part(&heap, collector, pass))
}
