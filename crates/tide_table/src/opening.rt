//! The opening of the first part. It knows no participant.
ghost use Rattle.std.specs.Prelude.{◌≡◌};
ghost use Rattle.tide_heap.specs.Turns.{opened};
ghost use Rattle.tide_table.specs.Started.{IsStarted};

use crate::collector::Collector;
use tide_heap::{Heap, HeapShapes};

impl Collector {
    /// Opens the first part of a heap that has just started, in which each mutator has `run` calls.
    pub fn open_first<S: HeapShapes>(&mut self, heap: &Heap<S>, run: u32)
        requires own { self.old.seat.table_id ≡ heap.now.table.shared.table_id }
        requires started { IsStarted heap.now.key.layout (S.lists heap.now.key.shapes) self.old.seat.me.0 }
        ensures own { self.new.seat.table_id ≡ self.old.seat.table_id }
        ensures opened { self.new.seat.me.0 ≡ opened heap.now.key.layout run self.old.seat.me.0 }
    {
        // No part was opened yet, so the number of this one is 1.
        let Ok(()) = self.open(heap, run) else {
            unreachable!();
        };
    }
}
