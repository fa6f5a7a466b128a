//! What a helper does in a part, and its call that waits for one.
ghost use Rattle.std.specs.Prelude.{◌≡◌, ◌≤◌, ◌<◌, ◌+◌, [], IfOk, IsOk, None, Some, false, true};
ghost use Rattle.tide_model.specs.Layout.{cell_count};
ghost use Rattle.tide_posts.specs.Posts.{IsTicketFor};
ghost use Rattle.tide_server.specs.Helpers.{IsHelperOf};
ghost use Rattle.tide_server.specs.declared.helper.Worked.TheVariants as worked;
ghost use Rattle.tide_posts.specs.tide_heap.Done.{HasDonePart};
ghost use Rattle.tide_posts.specs.tide_heap.tide_core.machine.Visiting.{FitsIn};
ghost use Rattle.tide_table.specs.VisitsTold.{most_visits};
ghost use Rattle.tide_visitor.specs.Viewed.{stack_room_of, table_of, view_of};
ghost use Rattle.tide_visitor.specs.Visits.{IsVisitorOf, visit_frame};

use crate::helper::{Helper, Worked};
use crate::standing::Standing;
use std::sync::Wait;
use tide_model::{Memory, Turnstile};
use tide_posts::{Found, HandedIn, Heap, HeapShapes, Ticket};
use tide_shape::ShapeTable;
use tide_visitor::Visitor;

/// Visits as many cells as a mutator has calls in the part, if a cycle marks. It ends before only where it holds none,
/// and found no more.
fn visit_part<S: HeapShapes, T: Turnstile>(
    visitor: &mut Visitor,
    heap: &Heap<S>,
    turnstile: &T,
    run: u32,
    marks: bool,
)
    requires own { table_of visitor.old ≡ heap.now.table.shared.table_id }
    requires visitor { IsVisitorOf heap.now.key.layout (view_of visitor.old) }
    requires begun { (view_of visitor.old).runs ≡ true }
    requires run { run ≡ (view_of visitor.old).run }
    requires marks { marks ≡ (view_of visitor.old).marks }
    requires none_yet { (view_of visitor.old).visits ≡ 0 }
    requires bare { (view_of visitor.old).held ≡ [] }
    requires room { cell_count heap.now.key.layout ≤ stack_room_of visitor.old }
    ensures same { table_of visitor.new ≡ table_of visitor.old }
    ensures kept { visit_frame (view_of visitor.new) ≡ visit_frame (view_of visitor.old) }
    ensures most { (view_of visitor.new).visits ≤ most_visits (view_of visitor.old) }
    ensures done { HasDonePart heap.now.key.layout (view_of visitor.new) }
    ensures fits { FitsIn heap.now.key.layout (view_of visitor.new).held }
    ensures room { stack_room_of visitor.new ≡ stack_room_of visitor.old }
{
    if marks {
        visitor.drain(heap, run, turnstile);
    }
}

impl Helper {
    /// Takes part in the part of a ticket, and posts its note.
    fn take_part<S: HeapShapes, T: Turnstile>(
        &mut self,
        standing: &Standing<S>,
        ticket: Ticket,
        turnstile: &T,
    )
        requires of { IsHelperOf standing.now.heap.key.layout standing.now.heap.table.shared.table_id
            standing.now.hands.shared.table_id self.old }
        requires owes { self.old.seat.seat.me.0.due ≡ true }
        requires ticket { IsTicketFor (record {
          layout = standing.now.heap.key.layout;
          table_id = standing.now.heap.table.shared.table_id;
        }) self.old.seat.seat.me.0.taken ticket }
        requires later { (view_of self.old.visitor).period < ticket.seat.me.0.period }
        ensures of { IsHelperOf standing.now.heap.key.layout standing.now.heap.table.shared.table_id
            standing.now.hands.shared.table_id self.new }
        ensures posted { (self.new.seat.seat.me.0.given ≡ self.old.seat.seat.me.0.given + 1)
            × (self.new.seat.seat.me.0.taken ≡ self.old.seat.seat.me.0.taken) }
    {
        let run = ticket.run();
        let marks = ticket.marking();
        self.visitor.begin(&standing.heap, ticket);
        visit_part(&mut self.visitor, &standing.heap, turnstile, run, marks);
        let note = self.visitor.stop(&standing.heap);
        let handed = HandedIn { note, early: false };
        self.seat.post_note(&standing.hands.shared, handed, false);
    }

    /// Takes part in one part, where the ticket of it lies there: it visits as many cells as a mutator has calls, if a
    /// cycle marks. Or says that no part is opened any more, or `None` where nothing lies there yet. It waits for nobody
    /// and wakes nobody, and takes no memory. Where its keeper may wait, `rouse` follows.
    pub fn try_work<S: ShapeTable, T: Turnstile>(
        &mut self,
        standing: &Standing<S>,
        turnstile: &T,
    ) -> Option<Worked>
        requires of { IsHelperOf standing.now.heap.key.layout standing.now.heap.table.shared.table_id
            standing.now.hands.shared.table_id self.old }
        ensures of { IsHelperOf standing.now.heap.key.layout standing.now.heap.table.shared.table_id
            standing.now.hands.shared.table_id self.new }
        ensures again { result ≡ Some worked.Again →
            (self.new.seat.seat.me.0.given ≡ self.old.seat.seat.me.0.given + 1)
            × (self.new.seat.seat.me.0.taken ≡ self.old.seat.seat.me.0.taken + 1) }
        ensures over { result ≡ Some worked.Over → (self.new.seat.seat.me.0.over ≡ true)
            × (self.new.seat.seat.me.0.given ≡ self.old.seat.seat.me.0.given)
            × (self.new.seat.seat.me.0.taken ≡ self.old.seat.seat.me.0.taken) }
        ensures not_yet { result ≡ None → (self.new.seat.seat.me.0.given ≡ self.old.seat.seat.me.0.given)
            × (self.new.seat.seat.me.0.taken ≡ self.old.seat.seat.me.0.taken)
            × (self.new.seat.seat.me.0.over ≡ self.old.seat.seat.me.0.over) }
    {
        match self.seat.take_ticket(&standing.hands.shared) {
            Found::Nothing => None,
            Found::End => Some(Worked::Over),
            Found::Ticket(ticket) => {
                self.take_part(standing, ticket, turnstile);
                Some(Worked::Again)
            }
        }
    }

    /// Wakes the keeper, if it waits for its note.
    pub fn rouse<S: HeapShapes>(&self, standing: &Standing<S>)
        requires of { IsHelperOf standing.now.heap.key.layout standing.now.heap.table.shared.table_id
            standing.now.hands.shared.table_id self.now }
    {
        self.seat.rouse(&standing.hands.shared);
    }

    /// Takes part in one part, as soon as its ticket comes: it visits as many cells as a mutator has calls, if a cycle
    /// marks. Or says that no part is opened any more. It may wait for ever, and takes no memory.
    pub fn work<R: Wait, S: ShapeTable, T: Turnstile>(
        &mut self,
        rt: &R,
        standing: &Standing<S>,
        turnstile: &T,
    ) -> Result<Worked, Memory>
        requires of { IsHelperOf standing.now.heap.key.layout standing.now.heap.table.shared.table_id
            standing.now.hands.shared.table_id self.old }
        ensures served { IsOk result }
        ensures of { IsHelperOf standing.now.heap.key.layout standing.now.heap.table.shared.table_id
            standing.now.hands.shared.table_id self.new }
        ensures again { IfOk result (λ answer. answer ≡ worked.Again →
            (self.new.seat.seat.me.0.given ≡ self.old.seat.seat.me.0.given + 1)
            × (self.new.seat.seat.me.0.taken ≡ self.old.seat.seat.me.0.taken + 1)) }
        ensures over { IfOk result (λ answer. answer ≡ worked.Over → (self.new.seat.seat.me.0.over ≡ true)
            × (self.new.seat.seat.me.0.given ≡ self.old.seat.seat.me.0.given)
            × (self.new.seat.seat.me.0.taken ≡ self.old.seat.seat.me.0.taken)) }
    {
        for _ in rt.forever() {
            if let Some(worked) = self.try_work(standing, turnstile) {
                self.rouse(standing);
                return Ok(worked);
            }
            self.seat.wait_for_turn(rt, &standing.hands.shared);
        }
        unreachable!()
    }
}
