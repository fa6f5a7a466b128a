//! A heap is closed, and hands over its history.
ghost use Rattle.std.specs.Prelude.{◌≡◌, ◌<◌, ℕ, true, false};
ghost use Rattle.tide_model.specs.History.{state_after};
ghost use Rattle.tide_model.specs.Lawful.{IsLawful};
ghost use Rattle.tide_heap.specs.Parties.{In};

use crate::collector::Collector;
use crate::plays::Tickets;
use atomic_table::Seat;
use tide_heap::{Heap, HeapShapes, Key, View};

/// What a heap leaves: its history, and the layout and shapes that it had, among them how many mutators and visitors
/// it had. `Collector::close` alone makes it.
#[derive(Drop)]
pub struct Closed<S: HeapShapes> {
    pub(crate) seat: Seat<(), View>,
    pub(crate) key: Key<S>,
}

impl Collector {
    /// Closes a heap whose mutators have all retired, and hands its history over.
    pub fn close<S: HeapShapes + Drop>(self, heap: Heap<S>) -> Closed<S>
        requires own { self.seat.table_id ≡ heap.table.shared.table_id }
        requires frozen { self.seat.me.0.frozen ≡ true }
        requires gone { (i : ℕ) → i < heap.key.layout.mutators → In i self.seat.me.0.gone }
        ensures history { result.seat.me.0.seen ≡ self.seat.me.0.seen }
        ensures heap { result.key ≡ heap.key }
        ensures lawful { IsLawful heap.key.layout (S.lists heap.key.shapes) self.seat.me.0.seen }
        ensures retired { (i : ℕ) → i < heap.key.layout.mutators →
            (state_after heap.key.layout self.seat.me.0.seen).active i ≡ false }
    {
        let Heap { table, key } = heap;
        let Collector { mut seat, .. } = self;
        let copy = table.shared.split_seat::<Tickets>(&mut seat);
        table.close_with(seat).free();
        Closed { seat: copy, key }
    }
}
