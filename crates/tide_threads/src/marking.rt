//! `CountingVisitor`: a visitor with the races that it met, and its share of a part.
ghost use Rattle.std.specs.Prelude.{◌≡◌, ◌≤◌, ℕ, [], true};
ghost use Rattle.tide_heap.specs.Done.{HasDonePart};
ghost use Rattle.tide_heap.specs.tide_core.machine.Frozen.{newcomer};
ghost use Rattle.tide_heap.specs.tide_core.machine.Visiting.{FitsIn};
ghost use Rattle.tide_model.specs.Layout.{cell_count};
ghost use Rattle.tide_table.specs.VisitsTold.{most_visits};
ghost use Rattle.tide_threads.specs.Marking.{HasMadeVisits, MayBeginVisits};
ghost use Rattle.tide_visitor.specs.Viewed.{stack_room_of, table_of, view_of};
ghost use Rattle.tide_visitor.specs.Visits.{visit_frame, IsVisitorOf};

use tide_heap::GreyList;
use tide_model::Turnstile;
use tide_shape::Shapes;
use tide_table::{Heap, Note, Pass, Ticket};
use tide_visitor::Visitor;

/// A visitor, with how many races it met in all parts, as far as 64 bits count them.
#[derive(Drop)]
pub struct CountingVisitor {
    pub(crate) visitor: Visitor,
    pub(crate) deferred: u64,
}

/// Visits as many cells as a mutator has calls in the part, if a cycle marks. It ends before only where it holds none,
/// and found no more.
fn visit_part<T: Turnstile>(
    visitor: &mut Visitor,
    heap: &Heap<Shapes>,
    turnstile: &T,
    run: u32,
    marks: bool,
)
    requires own { table_of visitor.old ≡ heap.now.table.shared.table_id }
    requires visitor { IsVisitorOf heap.now.key.layout (view_of visitor.old) }
    requires begun { (view_of visitor.old).runs ≡ true }
    requires run { run ≡ (view_of visitor.old).run }
    requires marks { marks ≡ (view_of visitor.old).marks }
    requires none_yet { (view_of visitor.old).visits ≡ 0 }
    requires bare { (view_of visitor.old).held ≡ [] }
    requires room { cell_count heap.now.key.layout ≤ stack_room_of visitor.old }
    ensures same { table_of visitor.new ≡ table_of visitor.old }
    ensures kept { visit_frame (view_of visitor.new) ≡ visit_frame (view_of visitor.old) }
    ensures most { (view_of visitor.new).visits ≤ most_visits (view_of visitor.old) }
    ensures done { HasDonePart heap.now.key.layout (view_of visitor.new) }
    ensures fits { FitsIn heap.now.key.layout (view_of visitor.new).held }
    ensures room { stack_room_of visitor.new ≡ stack_room_of visitor.old }
{
    if marks {
        visitor.drain(heap, run, turnstile);
    }
}

impl CountingVisitor {
    /// The visitor with this pass and this stack, which has visited nothing yet.
    pub(crate) fn new(pass: Pass, stack: GreyList) -> CountingVisitor
        requires newcomer { (who : ℕ) × (pass.seat.me.0 ≡ newcomer who) }
        requires empty { stack.cells ≡ [] }
        ensures table { table_of result.visitor ≡ pass.seat.table_id }
        ensures view { view_of result.visitor ≡ pass.seat.me.0 }
        ensures room { stack_room_of result.visitor ≡ stack.cap }
        ensures none_met { result.deferred ≡ 0 }
    {
        CountingVisitor {
            visitor: Visitor::new(pass, stack),
            deferred: 0,
        }
    }

    /// Begins a part with its ticket, visits as many cells as a mutator has calls if a cycle marks, and stops. It ends
    /// before only where it holds none, and found no more.
    pub(crate) fn play<T: Turnstile>(
        &mut self,
        heap: &Heap<Shapes>,
        turnstile: &T,
        ticket: Ticket,
    ) -> Note
        requires ready { MayBeginVisits heap.now.table.shared.table_id heap.now.key.layout ticket self.old }
        ensures made { HasMadeVisits heap.now.table.shared.table_id ticket.seat.me.0 self.old self.new result }
    {
        let run = ticket.run();
        let marks = ticket.marking();
        self.visitor.begin(heap, ticket);
        visit_part(&mut self.visitor, heap, turnstile, run, marks);
        let note = self.visitor.stop(heap);
        let met = u64::from(self.visitor.deferred());
        self.deferred = self.deferred.saturating_add(met);
        note
    }
}
