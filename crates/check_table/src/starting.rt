//! Heaps that start. It opens no part.
ghost use Rattle.std.specs.Prelude.{◌≡◌, [], IfOk, IfSome, vec_len};
ghost use Rattle.check_table.specs.Pairs.{HasStarted};
ghost use Rattle.check_table.specs.Working.{IsSmall};
ghost use Rattle.tide_heap.specs.tide_core.machine.Frozen.{newcomer};
ghost use Rattle.tide_heap.specs.tide_freeze.Books.{AreBooks};
ghost use Rattle.tide_shape.specs.Lists.{lists_of};
ghost use Rattle.tide_table.specs.Started.{ArePasses, IsStarted};

use crate::pacing::PACING;
use crate::pair::Pair;
use std::alloc::Global;
use tide_heap::{Books, Layout};
use tide_model::Memory;
use tide_shape::{Paths, Shapes};
use tide_table::{Collector, Heap, Pass, Start};

/// A heap of a layout, without declared paths.
pub fn start(alloc: Global, layout: Layout) -> Result<Start<Shapes>, Memory>
    ensures layout { IfOk result (λ s. s.heap.key.layout ≡ layout) }
    ensures collector { IfOk result (λ s. s.collector.seat.table_id ≡ s.heap.table.shared.table_id) }
    ensures started { IfOk result (λ s. IsStarted layout (lists_of s.heap.key.shapes) s.collector.seat.me.0) }
    ensures mutators { IfOk result (λ s. (vec_len s.mutators ≡ layout.mutators)
        × ArePasses s.heap.table.shared.table_id 0 s.mutators.items) }
{
    let Ok(shapes) = Shapes::new(alloc, &Paths::new(alloc)) else {
        return Err(Memory);
    };
    Start::new(alloc, layout, shapes)
}

/// A heap of one mutator, with its pass.
#[derive(Drop)]
pub struct Single {
    pub heap: Heap<Shapes>,
    pub collector: Collector,
    pub pass: Pass,
    ghost own: { collector.seat.table_id ≡ heap.table.shared.table_id },
    ghost of_heap: { pass.seat.table_id ≡ heap.table.shared.table_id },
    ghost newcomer: { pass.seat.me.0 ≡ newcomer 0 },
}

/// A heap of a layout that has one mutator.
pub fn start_single(alloc: Global, layout: Layout) -> Result<Option<Single>, Memory>
    requires one { layout.mutators ≡ 1 }
    ensures layout { IfOk result (λ o. IfSome o (λ s. s.heap.key.layout ≡ layout)) }
    ensures started { IfOk result (λ o. IfSome o (λ s.
        IsStarted layout (lists_of s.heap.key.shapes) s.collector.seat.me.0)) }
{
    let Start {
        heap,
        collector,
        mut mutators,
        visitors: _,
    } = start(alloc, layout)?;
    let Some(pass) = mutators.pop() else {
        return Ok(None);
    };
    Ok(Some(Single {
        heap,
        collector,
        pass,
    }))
}

/// A pair of what was started for two mutators, with the books of nothing.
fn pair_of(start: Start<Shapes>, books: Books) -> Option<Pair>
    requires small { IsSmall start.heap.key.layout }
    requires own { start.collector.seat.table_id ≡ start.heap.table.shared.table_id }
    requires started { IsStarted start.heap.key.layout (lists_of start.heap.key.shapes) start.collector.seat.me.0 }
    requires two { vec_len start.mutators ≡ 2 }
    requires passes { ArePasses start.heap.table.shared.table_id 0 start.mutators.items }
    requires books { AreBooks start.heap.key.layout [] books }
    ensures started { IfSome result HasStarted }
{
    let Start {
        heap,
        collector,
        mut mutators,
        visitors: _,
    } = start;
    let (Some(other), Some(one)) = (mutators.pop(), mutators.pop()) else {
        return None;
    };
    Some(Pair {
        heap,
        collector,
        one,
        other,
        books,
    })
}

/// A small heap of two mutators.
pub fn start_pair(alloc: Global) -> Result<Option<Pair>, Memory>
    ensures started { IfOk result (λ o. IfSome o HasStarted) }
{
    let layout = Layout::new([1, 0, 0, 0, 1], [1, 0, 0, 0, 0], 4, 2, 2, 2, 0);
    let books = Books::new(alloc, &layout, PACING, 4, 256)?;
    let start = start(alloc, layout)?;
    Ok(pair_of(start, books))
}
