//! A standing heap is closed, and hands over its history.
ghost use Rattle.std.specs.Prelude.{ℕ, ◌≡◌, ◌<◌, Bool, List, false, slice_index};
ghost use Rattle.tide_model.specs.History.{state_after};
ghost use Rattle.tide_model.specs.Periods.{IsLegal};
ghost use Rattle.tide_posts.specs.Schedule.{IsLegalWhere, have_stops};
ghost use Rattle.tide_sched.specs.Paces.{pace_of};
ghost use Rattle.tide_server.specs.Keepers.{view_of};
ghost use Rattle.tide_server.specs.Turned.{IsFinished};
ghost use Rattle.tide_table.specs.Census.{live_in};

use crate::keeper::Keeper;
use crate::standing::Standing;
use tide_posts::HeapShapes;
use tide_table::{Closed, live_by_class};

impl Keeper {
    /// How many cells of each class live in a heap whose last turn answered that it is over: of the classes with 2, 4, 8
    /// and 16 slots, and of tables.
    pub fn live_cells<S: HeapShapes>(&mut self, standing: &Standing<S>) -> [u32; 5]
        requires finished { IsFinished standing.now.heap.key.layout (S.lists standing.now.heap.key.shapes)
            standing.now.heap.table.shared.table_id self.old }
        ensures finished { IsFinished standing.now.heap.key.layout (S.lists standing.now.heap.key.shapes)
            standing.now.heap.table.shared.table_id self.new }
        ensures same { (view_of self.new ≡ view_of self.old) × (self.new.books ≡ self.old.books) }
        ensures sums { (self.new.sums ≡ self.old.sums) × (self.new.stopped ≡ self.old.stopped) }
        ensures live { (class : ℕ) → class < 5 → slice_index result class ≡ live_in standing.now.heap.key.layout
            (state_after standing.now.heap.key.layout (view_of self.old).seen) class }
    {
        live_by_class(&mut self.collector, &standing.heap)
    }

    /// Closes a heap whose last turn answered that it is over, and hands its history over. It is legal, with who stopped
    /// early in which part; where nobody did, as any is.
    pub fn finish<S: HeapShapes + Drop>(self, standing: Standing<S>) -> Closed<S>
        requires finished { IsFinished standing.heap.key.layout (S.lists standing.heap.key.shapes)
            standing.heap.table.shared.table_id self }
        ensures history { result.seat.me.0.seen ≡ self.collector.seat.me.0.seen }
        ensures heap { result.key ≡ standing.heap.key }
        ensures where_early { (stops : List (List Bool)) × (self.stopped ≡ have_stops standing.heap.key.layout stops)
            × IsLegalWhere (pace_of self.books.pacing) standing.heap.key.layout (S.lists standing.heap.key.shapes) stops
            result.seat.me.0.seen }
        ensures legal { self.stopped ≡ false → IsLegal (pace_of self.books.pacing) standing.heap.key.layout
            (S.lists standing.heap.key.shapes) result.seat.me.0.seen }
    {
        let Keeper { collector, .. } = self;
        let Standing { heap, .. } = standing;
        collector.close(heap)
    }
}
