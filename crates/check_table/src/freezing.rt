//! The freeze code that runs over words with a history, here over a heap of shared words that stands still.
ghost use Rattle.std.specs.Prelude.{◌≡◌, IfOk};
ghost use Rattle.check_table.specs.Standing.{opened_once, StandsStill};
ghost use Rattle.tide_heap.specs.tide_freeze.Books.{AreBooks};
ghost use Rattle.tide_heap.specs.tide_core.machine.Frozen.{newcomer};
ghost use Rattle.tide_shape.specs.Lists.{lists_of};
ghost use Rattle.tide_table.specs.Started.{IsStarted};

use crate::callers::{begin_part, stop_and_freeze};
use tide_heap::{Books, Layout, freeze};
use tide_model::Memory;
use tide_shape::Shapes;
use tide_table::{Collector, Frozen, Heap, Pass};

/// Opens the first part, in which the one mutator begins and stops without a call, and freezes.
pub fn stand_still<'a>(
    heap: &'a Heap<Shapes>,
    collector: &'a mut Collector,
    pass: &mut Pass,
) -> Frozen<'a, Shapes>
    requires own { collector.old.seat.table_id ≡ heap.now.table.shared.table_id }
    requires of_heap { pass.old.seat.table_id ≡ heap.now.table.shared.table_id }
    requires started { IsStarted heap.now.key.layout (lists_of heap.now.key.shapes) collector.old.seat.me.0 }
    requires newcomer { pass.old.seat.me.0 ≡ newcomer 0 }
    requires one { (heap.now.key.layout.mutators ≡ 1) × (heap.now.key.layout.visitors ≡ 0) }
    ensures heap { result.heap.now ≡ heap.now }
    ensures stands { StandsStill heap.now.key.layout (lists_of heap.now.key.shapes) 5
        result.collector.now.seat.me.0 }
{
    collector.open_first(heap, 5);
    begin_part(heap, collector, pass);
    stop_and_freeze(heap, collector, pass)
}

/// What two freezes answered: how many calls each mutator has in the part that opens next.
#[derive(Clone, Copy)]
pub struct Runs {
    pub nothing_due: u32,
    pub must: u32,
}

/// Freezes with nothing due, and then once more, forced. Answers both, and leaves the ends in the report.
pub fn freeze_twice(
    frozen: &mut Frozen<'_, Shapes>,
    layout: &Layout,
    books: &mut Books,
) -> Result<Runs, Memory>
    requires stands { StandsStill layout.now (lists_of frozen.old.heap.now.key.shapes) 5
        frozen.old.collector.now.seat.me.0 }
    requires layout { frozen.old.heap.now.key.layout ≡ layout.now }
    requires books { AreBooks layout.now (opened_once 5) books.old }
{
    books.make_room(layout)?;
    let nothing_due = freeze(frozen, layout, books, false);
    books.make_room(layout)?;
    let must = freeze(frozen, layout, books, true);
    Ok(Runs { nothing_due, must })
}
