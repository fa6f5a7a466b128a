//! What a freeze did, worked out from what is known before and after it. It freezes nothing.
ghost use Rattle.std.specs.Prelude.{◌≡◌, ◌-◌, ◌<◌, ◌^◌, sum};
ghost use Rattle.tide_heap.specs.tide_freeze.Books.{AreBooks};
ghost use Rattle.tide_model.specs.Cycle.{begin_count};
ghost use Rattle.tide_model.specs.Freeze.{marks_after};
ghost use Rattle.tide_sched.specs.Paces.{pace_of};
ghost use Rattle.tide_statistics.specs.Few.{PausesAreFew};
ghost use Rattle.tide_table.specs.Foreseen.{begun_of, told_of, visits_noted, HasForeseen};
ghost use Rattle.tide_table.specs.Pauses.{last_pauses};
ghost use Rattle.tide_table.specs.Standing.{MayEnterVisits, StandsStill};

use crate::collector::Collector;
use tide_heap::{Books, Heap, HeapShapes};
use tide_sched::due;
use tide_statistics::{BegunTold, FreezeTold, PauseTold};

/// What is known of a freeze before it: whether a cycle marks, how many cells visitors made black for it in the part,
/// and the cycle that will begin, if one will, a full one or not.
#[derive(Clone, Copy)]
pub struct Foreseen {
    marked: bool,
    pub visited: u64,
    begun: Option<bool>,
}

/// The cycle of this number that begins in a freeze, if one does, a full one or not.
fn begun_of(is_forced: bool, marked: bool, is_triggered: bool, number: u64) -> Option<bool>
    ensures { result ≡ begun_of is_forced marked is_triggered number }
{
    if is_forced || (!marked && is_triggered) {
        Some(is_forced || number % 4 == 0)
    } else {
        None
    }
}

/// What a freeze did, from whether a cycle marked before it and marks behind it, the cycle that began in it, if one
/// did, and how many cells the last two pauses made black. A cycle that begins finds that the one before it ended.
fn told_of(marked: bool, begun: Option<bool>, pauses: (u32, u32), marks: bool) -> FreezeTold
    ensures is { result ≡ told_of marked begun pauses marks }
    ensures few { PausesAreFew result }
{
    let last = PauseTold {
        visits: pauses.1,
        ended: !marks,
    };
    let Some(full) = begun else {
        let went_on = if marked { Some(last) } else { None };
        return FreezeTold {
            went_on,
            begun: None,
        };
    };
    let before = PauseTold {
        visits: pauses.0,
        ended: true,
    };
    let went_on = if marked { Some(before) } else { None };
    let begun = Some(BegunTold { full, pause: last });
    FreezeTold { went_on, begun }
}

/// How many cells visitors made black in a part, if a cycle marks.
fn visited<S: HeapShapes>(collector: &Collector, heap: &Heap<S>, marks: bool) -> u64
    requires marks { marks ≡ marks_after heap.now.key.layout collector.now.seat.me.0.seen }
    requires visits { MayEnterVisits heap.now.key.layout collector.now.seat.me.0 }
    ensures { result ≡ sum (visits_noted heap.now.key.layout collector.now.seat.me.0) }
{
    if marks {
        collector.visits_told(heap)
    } else {
        0
    }
}

/// What is known of a freeze before it, where so many cycles began.
pub fn foresee<S: HeapShapes>(
    collector: &mut Collector,
    heap: &Heap<S>,
    books: &Books,
    begun: u64,
    is_forced: bool,
) -> Foreseen
    requires own { collector.old.seat.table_id ≡ heap.now.table.shared.table_id }
    requires still { StandsStill heap.now.key.layout (S.lists heap.now.key.shapes) collector.old.seat.me.0 }
    requires visits { MayEnterVisits heap.now.key.layout collector.old.seat.me.0 }
    requires books { AreBooks heap.now.key.layout collector.old.seat.me.0.seen books.now }
    requires begun { begun ≡ begin_count collector.old.seat.me.0.seen }
    requires few { begun < 2 ^ 64 - 1 }
    ensures own { collector.new.seat.table_id ≡ collector.old.seat.table_id }
    ensures same { collector.new.seat.me.0 ≡ collector.old.seat.me.0 }
    ensures foreseen { HasForeseen (pace_of books.now.pacing) heap.now.key.layout collector.old.seat.me.0 is_forced
        result }
{
    let marked = collector.is_marking(heap);
    let visited = visited(collector, heap, marked);
    let is_triggered = due(u64::from(books.births.since_end), books.pacing.trigger);
    let begun = begun_of(is_forced, marked, is_triggered, begun + 1);
    Foreseen {
        marked,
        visited,
        begun,
    }
}

impl Foreseen {
    /// What the freeze did, once it is done.
    pub fn told<S: HeapShapes>(self, collector: &mut Collector, heap: &Heap<S>) -> FreezeTold
        requires own { collector.old.seat.table_id ≡ heap.now.table.shared.table_id }
        requires still { StandsStill heap.now.key.layout (S.lists heap.now.key.shapes) collector.old.seat.me.0 }
        ensures own { collector.new.seat.table_id ≡ collector.old.seat.table_id }
        ensures same { collector.new.seat.me.0 ≡ collector.old.seat.me.0 }
        ensures is { result ≡ told_of self.marked self.begun (last_pauses collector.old.seat.me.0.seen)
            (marks_after heap.now.key.layout collector.old.seat.me.0.seen) }
        ensures few { PausesAreFew result }
    {
        let pauses = collector.pauses();
        let marks = collector.is_marking(heap);
        told_of(self.marked, self.begun, pauses, marks)
    }
}
