//! Starting a heap for a mutator and a visitor. It opens no part.
ghost use Rattle.embed_heap.specs.visitor.Shares.{HasStarted};
ghost use Rattle.std.specs.Prelude.{◌≡◌, IfOk, IfSome};

use crate::visitor::shared::Shared;
use std::alloc::Global;
use tide::{Books, GreyList, Layout, Memory, Mutator, Pacing, Shapes, Start, Visitor};

/// A cycle begins once four cells were born, and each freeze makes two cells black at least, of the ten calls and
/// visits of a period.
const PACING: Pacing = Pacing {
    calls: 10,
    visits: 10,
    headroom: 100,
    trigger: 4,
};

/// The layout of its heap: a block of cells with two slots and one of tables, two of arrays, a mutator and a visitor.
pub fn layout() -> Layout
    ensures mutators { result.mutators ≡ 1 }
    ensures visitors { result.visitors ≡ 1 }
{
    Layout::new([1, 0, 0, 0, 1], [1, 1, 0, 0, 0], 4, 2, 2, 1, 1)
}

/// A heap without cells that a mutator and a visitor share.
pub fn start(alloc: Global, shapes: Shapes) -> Result<Option<Shared>, Memory>
    ensures started { IfOk result (λ o. IfSome o HasStarted) }
{
    start_over(alloc, layout(), PACING, shapes)
}

/// The same of any layout with one mutator and one visitor, and with another pace. The visitor's stack has a place for
/// each cell, and none for notes, since it runs no constraint.
pub fn start_over(
    alloc: Global,
    layout: Layout,
    pacing: Pacing,
    shapes: Shapes,
) -> Result<Option<Shared>, Memory>
    requires mutators { layout.mutators ≡ 1 }
    requires visitors { layout.visitors ≡ 1 }
    ensures started { IfOk result (λ o. IfSome o HasStarted) }
{
    let books = Books::new(alloc, &layout, pacing, 4, 512)?;
    let stack = GreyList::without_notes(alloc, layout.cells())?;
    let Start {
        heap,
        collector,
        mut mutators,
        mut visitors,
    } = Start::new(alloc, layout, shapes)?;
    let (Some(mutator), Some(visitor)) = (mutators.pop(), visitors.pop()) else {
        return Ok(None);
    };
    Ok(Some(Shared {
        heap,
        collector,
        mutator: Mutator::new(mutator),
        visitor: Visitor::new(visitor, stack),
        books,
    }))
}
