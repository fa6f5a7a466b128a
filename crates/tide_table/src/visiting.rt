//! The visits that a visitor's note told are entered into the history of a frozen heap. It counts none itself.
ghost use Rattle.std.specs.Prelude.{◌≡◌, ◌<◌, ◌+◌, ℕ, Contains, false, true};
ghost use Rattle.tide_model.specs.History.{is_call_of, is_open, state_after};
ghost use Rattle.tide_model.specs.Lawful.{Stands};
ghost use Rattle.tide_heap.specs.tide_core.machine.World.{first_visitor};
ghost use Rattle.tide_heap.specs.Turns.{visits_entered, visits_over};
ghost use Rattle.tide_table.specs.Blacks.{BlacksStay};
ghost use Rattle.tide_table.specs.Pauses.{is_pause};
ghost use Rattle.tide_heap.specs.tide_words.heap.Heap.{heap_of};
ghost use Rattle.tide_heap.specs.tide_words.heap.Reading.{ReadsAs};

use crate::collector::Collector;
use crate::frozen::Frozen;
use crate::plays::{Choice, EntersVisits};
use std::marker::Brand;
use tide_heap::{Heap, HeapShapes};

impl Collector {
    fn enter_visits_as<S: HeapShapes, J: Choice>(
        &mut self,
        heap: &Heap<S>,
        _visitor: u32,
        _visits: u32,
    )
        requires own { self.old.seat.table_id ≡ heap.now.table.shared.table_id }
        requires frozen { self.old.seat.me.0.frozen ≡ true }
        requires stands { Stands heap.now.key.layout (S.lists heap.now.key.shapes) self.old.seat.me.0.seen J.event }
        requires no_call { (p : ℕ) → is_call_of p J.event.entry ≡ false }
        requires no_open { is_open J.event.entry ≡ false }
        requires no_pause { is_pause J.event.entry ≡ false }
        ensures same { (self.new.seat.table_id ≡ self.old.seat.table_id) × (self.new.seat.id ≡ self.old.seat.id) }
        ensures entered { self.new.seat.me.0 ≡ visits_over J.number J.event self.old.seat.me.0 }
    {
        heap.table.shared.load::<EntersVisits<J>>(&mut self.seat, 0);
    }
}

impl<'a, S: HeapShapes> Frozen<'a, S> {
    /// Enters the visits of a visitor, counted from 0, whose note told so many, and that it has done its part. They are
    /// entered once.
    pub fn enter_visits(&mut self, visitor: u32, visits: u32)
        requires visitor { visitor < self.old.heap.now.key.layout.visitors }
        requires told { Contains self.old.collector.now.seat.me.0.visited
            (record { who = first_visitor + visitor; visits = visits; done = true }) }
        requires reads { ReadsAs self.old.heap.now.key.layout (S.lists self.old.heap.now.key.shapes)
            (heap_of self.old.heap.now.key.layout self.old.collector.now.seat.me.0.words)
            (state_after self.old.heap.now.key.layout self.old.collector.now.seat.me.0.seen) }
        requires blacks { BlacksStay self.old.heap.now.key.layout self.old.collector.now.seat.me.0 }
        ensures same { (self.new.collector.ghost_name ≡ self.old.collector.ghost_name)
            × (self.new.heap.now ≡ self.old.heap.now) }
        ensures entered { self.new.collector.now.seat.me.0
            ≡ visits_entered visitor visits self.old.collector.now.seat.me.0 }
    {
        self.collector
            .enter_visits_as::<S, Brand>(self.heap, visitor, visits);
    }
}
