//! What the collector tells of a heap that stands still: whether a cycle marks, how many cells visitors told to have made
//! black in the part, and how many the last two pauses. It marks nothing and enters nothing but pauses.
ghost use Rattle.std.specs.Prelude.{◌≡◌, true};
ghost use Rattle.tide_heap.specs.Turns.{entered_with};
ghost use Rattle.tide_model.specs.Freeze.{marks_after};
ghost use Rattle.tide_model.specs.History.{plain};
ghost use Rattle.tide_model.specs.Lawful.{Stands};
ghost use Rattle.tide_model.specs.declared.entry.Entry.TheVariants.{Pause};
ghost use Rattle.tide_table.specs.Pauses.{last_pauses};
ghost use Rattle.tide_table.specs.Standing.{StandsStill};
ghost use Rattle.tide_table.specs.VisitsTold.{unentered, AreTold};

use crate::collector::Collector;
use crate::plays::{Choice, Enters};
use tide_heap::{Heap, HeapShapes, Region, word_phase};

impl Collector {
    /// Enters that a pause made so many cells black, and keeps the number.
    pub(crate) fn enter_pause_as<S: HeapShapes, J: Choice>(&mut self, heap: &Heap<S>, visits: u32)
        requires own { self.old.seat.table_id ≡ heap.now.table.shared.table_id }
        requires frozen { self.old.seat.me.0.frozen ≡ true }
        requires stands { Stands heap.now.key.layout (S.lists heap.now.key.shapes) self.old.seat.me.0.seen J.event }
        requires pause { J.event ≡ plain (Pause visits) }
        ensures same { (self.new.seat.table_id ≡ self.old.seat.table_id) × (self.new.seat.id ≡ self.old.seat.id) }
        ensures entered { self.new.seat.me.0 ≡ entered_with J.event self.old.seat.me.0 }
    {
        heap.table.shared.load::<Enters<J>>(&mut self.seat, 0);
        self.pauses = (self.pauses.1, visits);
    }

    /// How many cells the pause before the last made black, and how many the last one.
    pub fn pauses(&self) -> (u32, u32)
        requires { self.now.seat.me.0.frozen ≡ true }
        ensures { result ≡ last_pauses self.now.seat.me.0.seen }
    {
        self.pauses
    }

    /// Whether a cycle marks.
    pub fn is_marking<S: HeapShapes>(&mut self, heap: &Heap<S>) -> bool
        requires own { self.old.seat.table_id ≡ heap.now.table.shared.table_id }
        requires still { StandsStill heap.now.key.layout (S.lists heap.now.key.shapes) self.old.seat.me.0 }
        ensures own { self.new.seat.table_id ≡ self.old.seat.table_id }
        ensures same { self.new.seat.me.0 ≡ self.old.seat.me.0 }
        ensures marks { result ≡ marks_after heap.now.key.layout self.old.seat.me.0.seen }
    {
        let phase = self.load(heap, heap.layout().place(Region::Phase, 0));
        word_phase(phase).1
    }

    /// How many cells all visitors together told to have made black in a part of a cycle, before that is entered.
    pub fn visits_told<S: HeapShapes>(&self, heap: &Heap<S>) -> u64
        requires told { AreTold heap.now.key.layout self.now.seat.me.0.run self.now.seat.me.0.visited }
        ensures { result ≡ unentered self.now.seat.me.0.visited }
    {
        let visitors = usize::from(heap.layout().visitors());
        let mut visits = 0;
        for visitor in 0..visitors {
            visits += u64::from(self.visits[visitor]);
        }
        visits
    }
}
