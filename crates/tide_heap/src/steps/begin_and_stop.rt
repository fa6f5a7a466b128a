//! A participant hears a ticket and begins, stops, and hands out its note. It makes no call.
ghost use Rattle.std.specs.Prelude.{◌≡◌, ◌↔◌, ◌<◌, ◌≤◌, ◌||◌, true, false};
ghost use Rattle.tide_core.specs.machine.May.{Rests};
ghost use Rattle.tide_core.specs.machine.Progress.{HasWholeRound};
ghost use Rattle.tide_core.specs.machine.kinds.Activate.{begun_view};
ghost use Rattle.tide_core.specs.machine.kinds.Split.{split_view};
ghost use Rattle.tide_core.specs.machine.kinds.StoreStopped.{stopped_view};
ghost use Rattle.tide_model.specs.Caller.{IsOwn};
ghost use Rattle.tide_model.specs.Periods.{open_count};
ghost use Rattle.tide_model.specs.Prefix.{IsPrefix};
ghost use Rattle.tide_heap.specs.Done.{done_by_numbers, HasDonePart};
ghost use Rattle.tide_heap.specs.Parties.{IsParty};
ghost use Rattle.tide_heap.specs.Turns.{heard_view, note_of};

use crate::heap::Heap;
use crate::shapes::HeapShapes;
use crate::steps::notes::{Note, Ticket};
use crate::steps::pass::Pass;
use crate::steps::plays::{Begins, DoneNotes, Hears, Notes, Stops};
use tide_core::Region;

impl Pass {
    /// Hears a ticket of a later part than the one that it stopped in last.
    pub fn join<S: HeapShapes>(&mut self, heap: &Heap<S>, ticket: Ticket)
        requires own { self.old.seat.table_id ≡ heap.now.table.shared.table_id }
        requires of_heap { ticket.seat.table_id ≡ heap.now.table.shared.table_id }
        requires parked { self.old.seat.me.0.runs ≡ false }
        requires stays { self.old.seat.me.0.left ≡ false }
        requires later { self.old.seat.me.0.period < ticket.seat.me.0.period }
        ensures same { (self.new.seat.table_id ≡ self.old.seat.table_id) × (self.new.seat.id ≡ self.old.seat.id) }
        ensures heard { self.new.seat.me.0 ≡ heard_view self.old.seat.me.0 ticket.seat.me.0 }
    {
        self.numbers.part = ticket.period;
        self.numbers.run = ticket.run;
        self.numbers.marking = ticket.marking;
        self.numbers.cycle = ticket.cycle;
        self.numbers.base = ticket.base;
        let seat = ticket.seat;
        heap.table.shared.join_seat::<Hears>(&mut self.seat, seat);
    }

    /// Begins the part whose ticket it heard, with a load of the Period word, which has the number of the part.
    pub fn activate<S: HeapShapes>(&mut self, heap: &Heap<S>) -> u64
        requires own { self.old.seat.table_id ≡ heap.now.table.shared.table_id }
        requires parked { self.old.seat.me.0.runs ≡ false }
        requires stays { self.old.seat.me.0.left ≡ false }
        requires later { self.old.seat.me.0.period < self.old.seat.me.0.ticket }
        ensures same { (self.new.seat.table_id ≡ self.old.seat.table_id) × (self.new.seat.id ≡ self.old.seat.id) }
        ensures begun { self.new.seat.me.0 ≡ begun_view self.old.seat.me.0 }
        ensures found { result ≡ self.old.seat.me.0.ticket }
        ensures earlier { IsPrefix self.old.seat.me.0.earlier self.new.seat.me.0.seen }
        ensures told { IsPrefix self.old.seat.me.0.told self.new.seat.me.0.seen }
        ensures own { IsOwn self.new.seat.me.0.who self.new.seat.me.0.seen self.new.seat.me.0.mine }
    {
        // The word has the number that its ticket tells: the next part is opened after a freeze, which waits for this
        // participant's note. Phase, cycle and base are those of the ticket till then (`NumbersRead`: `told`,
        // tide_core/specs/machine/points/Seen.antt).
        let period = heap.table.shared.load::<Begins>(&mut self.seat, 0);
        if self.numbers.begun != self.numbers.part {
            self.numbers.begun = self.numbers.part;
            self.numbers.born = 0;
            self.numbers.visits = 0;
        }
        period
    }

    /// Begins a part: hears its ticket, and loads the Period word. It has seen what it had, and what the ticket tells.
    pub fn begin<S: HeapShapes>(&mut self, heap: &Heap<S>, ticket: Ticket)
        requires own { self.old.seat.table_id ≡ heap.now.table.shared.table_id }
        requires of_heap { ticket.seat.table_id ≡ heap.now.table.shared.table_id }
        requires parked { self.old.seat.me.0.runs ≡ false }
        requires stays { self.old.seat.me.0.left ≡ false }
        requires later { self.old.seat.me.0.period < ticket.seat.me.0.period }
        ensures same { (self.new.seat.table_id ≡ self.old.seat.table_id) × (self.new.seat.id ≡ self.old.seat.id) }
        ensures begun { self.new.seat.me.0 ≡ begun_view (heard_view self.old.seat.me.0 ticket.seat.me.0) }
        ensures earlier { IsPrefix self.old.seat.me.0.seen self.new.seat.me.0.seen }
        ensures told { IsPrefix ticket.seat.me.0.seen self.new.seat.me.0.seen }
        ensures mine { self.new.seat.me.0.mine ≡ self.old.seat.me.0.mine }
        ensures own { IsOwn self.new.seat.me.0.who self.new.seat.me.0.seen self.new.seat.me.0.mine }
    {
        self.join(heap, ticket);
        self.activate(heap);
    }

    /// Stores the number of its part to its Stopped word. It owes nothing any more.
    pub fn store_stopped<S: HeapShapes>(&mut self, heap: &Heap<S>)
        requires own { self.old.seat.table_id ≡ heap.now.table.shared.table_id }
        requires party { IsParty heap.now.key.layout self.old.seat.me.0.who }
        requires runs { self.old.seat.me.0.runs ≡ true }
        requires owes_nothing { Rests self.old.seat.me.0 }
        ensures same { (self.new.seat.table_id ≡ self.old.seat.table_id) × (self.new.seat.id ≡ self.old.seat.id) }
        ensures stopped { self.new.seat.me.0 ≡ stopped_view self.old.seat.me.0 }
        ensures opens { open_count self.old.seat.me.0.seen ≤ self.old.seat.me.0.ticket }
    {
        let index = heap.stopped_index(self.numbers.who);
        let at = heap.layout().place(Region::Stopped, index);
        let part = u64::from(self.numbers.part);
        // All that its calls owed is stored before: who doesn't run owes and holds nothing (`ParkedIsEmpty`,
        // tide_core/specs/machine/points/Seen.antt). The word tells in which part that was so last (`StopsAreTold`,
        // points/Stops.antt).
        heap.table.shared.store::<Stops>(&mut self.seat, at, part);
    }

    /// Hands out its note of the part that it has stopped in. It does so once. The note says that it has done its part
    /// exactly where that is so. Where its numbers don't tell, `whole` says whether its round is whole.
    pub fn split<S: HeapShapes>(&mut self, heap: &Heap<S>, whole: bool) -> Note
        requires own { self.old.seat.table_id ≡ heap.now.table.shared.table_id }
        requires stopped { self.old.seat.me.0.runs ≡ false }
        requires began { self.old.seat.me.0.begun ≡ self.old.seat.me.0.ticket }
        requires once { self.old.seat.me.0.period < self.old.seat.me.0.ticket }
        requires round { done_by_numbers self.old.seat.me.0 ≡ false →
            ((whole ≡ true) ↔ HasWholeRound heap.now.key.layout self.old.seat.me.0) }
        ensures same { (self.new.seat.table_id ≡ self.old.seat.table_id) × (self.new.seat.id ≡ self.old.seat.id) }
        ensures split { self.new.seat.me.0 ≡ split_view self.old.seat.me.0 }
        ensures note { (result.seat.table_id ≡ self.old.seat.table_id)
            × (result.seat.me.0 ≡ note_of (done_by_numbers self.old.seat.me.0 || whole) self.old.seat.me.0) }
        ensures done { (result.seat.me.0.done ≡ true) ↔ HasDonePart heap.now.key.layout self.old.seat.me.0 }
    {
        let done = self.has_done(whole);
        let seat = if done {
            heap.table.shared.split_seat::<DoneNotes>(&mut self.seat)
        } else {
            heap.table.shared.split_seat::<Notes>(&mut self.seat)
        };
        Note {
            seat,
            numbers: self.numbers,
            done,
        }
    }

    /// Whether it has done its part: it is no visitor, no cycle marks, it made as many cells black as it was to run
    /// for, or its round is whole, as `whole` says.
    fn has_done(&self, whole: bool) -> bool
        ensures { result ≡ (done_by_numbers self.now.seat.me.0 || whole) }
    {
        let numbers = self.numbers;
        numbers.who < 16 || !numbers.marking || !(numbers.visits < numbers.run) || whole
    }

    /// Stops, and hands out its note, which says that it has done its part exactly where that is so.
    pub fn stop<S: HeapShapes>(&mut self, heap: &Heap<S>, whole: bool) -> Note
        requires own { self.old.seat.table_id ≡ heap.now.table.shared.table_id }
        requires party { IsParty heap.now.key.layout self.old.seat.me.0.who }
        requires runs { self.old.seat.me.0.runs ≡ true }
        requires rests { Rests self.old.seat.me.0 }
        requires began { self.old.seat.me.0.begun ≡ self.old.seat.me.0.ticket }
        requires once { self.old.seat.me.0.period < self.old.seat.me.0.ticket }
        requires round { done_by_numbers self.old.seat.me.0 ≡ false →
            ((whole ≡ true) ↔ HasWholeRound heap.now.key.layout self.old.seat.me.0) }
        ensures same { (self.new.seat.table_id ≡ self.old.seat.table_id) × (self.new.seat.id ≡ self.old.seat.id) }
        ensures stopped { self.new.seat.me.0 ≡ split_view (stopped_view self.old.seat.me.0) }
        ensures opens { open_count self.old.seat.me.0.seen ≤ self.old.seat.me.0.ticket }
        ensures note { (result.seat.table_id ≡ self.old.seat.table_id) × (result.seat.me.0
            ≡ note_of (done_by_numbers self.old.seat.me.0 || whole) (stopped_view self.old.seat.me.0)) }
        ensures done { (result.seat.me.0.done ≡ true) ↔ HasDonePart heap.now.key.layout self.old.seat.me.0 }
    {
        self.store_stopped(heap);
        self.split(heap, whole)
    }
}
