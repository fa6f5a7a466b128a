//! Tickets and ends are posted, and the first part is opened.
ghost use Rattle.std.specs.Prelude.{ℕ, ◌≡◌, ◌<◌, ◌≤◌, ◌+◌, ◌⊎◌, ◌↔◌, [], false, true, if◌then◌else◌};
ghost use Rattle.tide_posts.specs.Name.{places};
ghost use Rattle.tide_posts.specs.Posts.{TicketTells};
ghost use Rattle.tide_posts.specs.Among.{Among, times};
ghost use Rattle.tide_posts.specs.tide_heap.Turns.{opened};
ghost use Rattle.tide_server.specs.Keepers.{IsKeeperOf, has_left, ticket_count};
ghost use Rattle.tide_table.specs.Started.{IsStarted};

use crate::keeper::Keeper;
use crate::standing::Standing;
use tide_posts::{HeapShapes, Layout};

impl Keeper {
    /// Whether the participant at a place is a mutator that has left for good.
    pub(crate) fn has_left(&self, layout: &Layout, place: usize) -> bool
        ensures { result ≡ has_left layout.now self.now.left place }
    {
        place < usize::from(layout.mutators()) && self.left[place]
    }

    /// Posts a ticket of the open part at each place whose participant hasn't left.
    pub(crate) fn hand_out<S: HeapShapes>(&mut self, standing: &Standing<S>)
        requires of { IsKeeperOf standing.now.heap.key.layout standing.now.heap.table.shared.table_id
            standing.now.hands.shared.table_id self.old }
        requires running { self.old.collector.seat.me.0.frozen ≡ false }
        requires tells { TicketTells standing.now.heap.key.layout self.old.collector.seat.me.0 }
        requires rounds { (place : ℕ) → place < places standing.now.heap.key.layout →
            has_left standing.now.heap.key.layout self.old.left place ≡ false →
            times place self.old.seat.seat.me.0.tickets + 1 ≡ self.old.collector.seat.me.0.period }
        requires due { (place : ℕ) → place < places standing.now.heap.key.layout →
            Among place self.old.seat.seat.me.0.free }
        ensures of { IsKeeperOf standing.now.heap.key.layout standing.now.heap.table.shared.table_id
            standing.now.hands.shared.table_id self.new }
        ensures view { self.new.collector.seat.me.0 ≡ self.old.collector.seat.me.0 }
        ensures books { self.new.books ≡ self.old.books }
        ensures sums { self.new.sums ≡ self.old.sums }
        ensures over { self.new.seat.seat.me.0.over ≡ self.old.seat.seat.me.0.over }
        ensures ends { self.new.seat.seat.me.0.ends ≡ self.old.seat.seat.me.0.ends }
        ensures posted { self.new.seat.seat.me.0.given
            ≡ self.old.seat.seat.me.0.given + ticket_count standing.now.heap.key.layout self.old.left }
        ensures tickets { (place : ℕ) → place < places standing.now.heap.key.layout →
            times place self.new.seat.seat.me.0.tickets ≡ times place self.old.seat.seat.me.0.tickets
            + (if has_left standing.now.heap.key.layout self.old.left place then 0 else 1) }
        ensures notes { self.new.seat.seat.me.0.notes ≡ self.old.seat.seat.me.0.notes }
        ensures due { (place : ℕ) → has_left standing.now.heap.key.layout self.old.left place ≡ true →
            Among place self.new.seat.seat.me.0.free }
        ensures same { (self.new.next ≡ self.old.next) × (self.new.ended ≡ self.old.ended)
            × (self.new.left ≡ self.old.left) }
        ensures early { (self.new.early ≡ self.old.early) × (self.new.stopped ≡ self.old.stopped) }
    {
        let layout = standing.heap.layout();
        for place in 0..usize::from(layout.mutators()) + usize::from(layout.visitors()) {
            if self.has_left(layout, place) {
                continue;
            }
            let ticket = self.collector.ticket(&standing.heap);
            drop(self.seat.post_ticket(&standing.hands.shared, place, ticket));
        }
    }

    /// Posts an end at each visitor's place.
    pub(crate) fn post_ends<S: HeapShapes>(&mut self, standing: &Standing<S>)
        requires of { IsKeeperOf standing.now.heap.key.layout standing.now.heap.table.shared.table_id
            standing.now.hands.shared.table_id self.old }
        requires due { (place : ℕ) → place < places standing.now.heap.key.layout →
            Among place self.old.seat.seat.me.0.free }
        ensures of { IsKeeperOf standing.now.heap.key.layout standing.now.heap.table.shared.table_id
            standing.now.hands.shared.table_id self.new }
        ensures posted { self.new.seat.seat.me.0.given
            ≡ self.old.seat.seat.me.0.given + standing.now.heap.key.layout.visitors }
        ensures over { 0 < standing.now.heap.key.layout.visitors → self.new.seat.seat.me.0.over ≡ true }
        ensures ends { (place : ℕ) → Among place self.new.seat.seat.me.0.ends
            ↔ (Among place self.old.seat.seat.me.0.ends ⊎ ((standing.now.heap.key.layout.mutators ≤ place)
            × (place < places standing.now.heap.key.layout))) }
        ensures collector { self.new.collector ≡ self.old.collector }
        ensures books { self.new.books ≡ self.old.books }
        ensures sums { self.new.sums ≡ self.old.sums }
        ensures stopped { self.new.stopped ≡ self.old.stopped }
    {
        let layout = standing.heap.layout();
        let mutators = usize::from(layout.mutators());
        for place in mutators..mutators + usize::from(layout.visitors()) {
            self.seat.post_end(&standing.hands.shared, place);
        }
    }

    /// Opens the first part of a heap that has just started, in which each mutator has `run` calls, and posts its
    /// tickets.
    pub(crate) fn open_first<S: HeapShapes>(&mut self, standing: &Standing<S>, run: u32)
        requires of { IsKeeperOf standing.now.heap.key.layout standing.now.heap.table.shared.table_id
            standing.now.hands.shared.table_id self.old }
        requires started { IsStarted standing.now.heap.key.layout (S.lists standing.now.heap.key.shapes)
            self.old.collector.seat.me.0 }
        requires some { 0 < run }
        requires none { self.old.seat.seat.me.0.tickets ≡ [] }
        requires due { (place : ℕ) → place < places standing.now.heap.key.layout →
            Among place self.old.seat.seat.me.0.free }
        ensures of { IsKeeperOf standing.now.heap.key.layout standing.now.heap.table.shared.table_id
            standing.now.hands.shared.table_id self.new }
        ensures opened { self.new.collector.seat.me.0
            ≡ opened standing.now.heap.key.layout run self.old.collector.seat.me.0 }
        ensures books { self.new.books ≡ self.old.books }
        ensures sums { self.new.sums ≡ self.old.sums }
        ensures over { self.new.seat.seat.me.0.over ≡ self.old.seat.seat.me.0.over }
        ensures ends { self.new.seat.seat.me.0.ends ≡ self.old.seat.seat.me.0.ends }
        ensures posted { self.new.seat.seat.me.0.given
            ≡ self.old.seat.seat.me.0.given + ticket_count standing.now.heap.key.layout self.old.left }
        ensures tickets { (place : ℕ) → place < places standing.now.heap.key.layout →
            times place self.new.seat.seat.me.0.tickets
            ≡ (if has_left standing.now.heap.key.layout self.old.left place then 0 else 1) }
        ensures notes { self.new.seat.seat.me.0.notes ≡ self.old.seat.seat.me.0.notes }
        ensures due { (place : ℕ) → has_left standing.now.heap.key.layout self.old.left place ≡ true →
            Among place self.new.seat.seat.me.0.free }
        ensures same { (self.new.next ≡ self.old.next) × (self.new.ended ≡ self.old.ended)
            × (self.new.left ≡ self.old.left) }
        ensures early { (self.new.early ≡ self.old.early) × (self.new.stopped ≡ self.old.stopped) }
    {
        self.collector.open_first(&standing.heap, run);
        self.hand_out(standing);
    }
}
