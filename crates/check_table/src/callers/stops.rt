//! A mutator begins a part, and stops in it, after which the part of an only one is frozen. It makes no call.
ghost use Rattle.std.specs.Prelude.{◌≡◌, ◌<◌, ℕ, true, false};
ghost use Rattle.tide_heap.specs.Parties.{In, IsParty};
ghost use Rattle.tide_heap.specs.Turns.{heard_view, note_of, noted, ticket_of, Freezes};
ghost use Rattle.tide_heap.specs.tide_core.machine.May.{Rests};
ghost use Rattle.tide_heap.specs.tide_core.machine.kinds.Activate.{begun_view};
ghost use Rattle.tide_heap.specs.tide_core.machine.kinds.Split.{split_view};
ghost use Rattle.tide_heap.specs.tide_core.machine.kinds.StoreStopped.{stopped_view};

use tide_table::{Collector, Frozen, Heap, HeapShapes, Numbers, Pass};

/// Begins a part with its ticket, and answers its number.
pub fn begin_part<S: HeapShapes>(heap: &Heap<S>, collector: &mut Collector, pass: &mut Pass) -> u32
    requires own { collector.old.seat.table_id ≡ heap.now.table.shared.table_id }
    requires of_heap { pass.old.seat.table_id ≡ heap.now.table.shared.table_id }
    requires running { collector.old.seat.me.0.frozen ≡ false }
    requires parked { pass.old.seat.me.0.runs ≡ false }
    requires stays { pass.old.seat.me.0.left ≡ false }
    requires later { pass.old.seat.me.0.period < collector.old.seat.me.0.period }
    ensures same { (collector.new.seat.table_id ≡ collector.old.seat.table_id)
        × (collector.new.seat.me.0 ≡ collector.old.seat.me.0) }
    ensures begun { (pass.new.seat.table_id ≡ pass.old.seat.table_id)
        × (pass.new.seat.me.0 ≡ begun_view (heard_view pass.old.seat.me.0 (ticket_of collector.old.seat.me.0))) }
    ensures period { result ≡ collector.old.seat.me.0.period }
{
    let ticket = collector.ticket(heap);
    let period = ticket.period();
    pass.begin(heap, ticket);
    period
}

/// Stops in the open part, and hands the note in. Answers what the note tells.
pub fn stop_part<S: HeapShapes>(
    heap: &Heap<S>,
    collector: &mut Collector,
    pass: &mut Pass,
) -> Numbers
    requires own { collector.old.seat.table_id ≡ heap.now.table.shared.table_id }
    requires of_heap { pass.old.seat.table_id ≡ heap.now.table.shared.table_id }
    requires running { collector.old.seat.me.0.frozen ≡ false }
    requires mutator { pass.old.seat.me.0.who < heap.now.key.layout.mutators }
    requires runs { pass.old.seat.me.0.runs ≡ true }
    requires rests { Rests pass.old.seat.me.0 }
    requires began { pass.old.seat.me.0.begun ≡ pass.old.seat.me.0.ticket }
    requires once { pass.old.seat.me.0.period < pass.old.seat.me.0.ticket }
    requires now { pass.old.seat.me.0.ticket ≡ collector.old.seat.me.0.period }
    ensures same { collector.new.seat.table_id ≡ collector.old.seat.table_id }
    ensures stopped { (pass.new.seat.table_id ≡ pass.old.seat.table_id)
        × (pass.new.seat.me.0 ≡ split_view (stopped_view pass.old.seat.me.0)) }
    ensures is_in { In pass.old.seat.me.0.who collector.new.seat.me.0.notes }
    ensures noted { collector.new.seat.me.0 ≡ noted collector.old.seat.me.0
        (note_of true (stopped_view pass.old.seat.me.0)) }
{
    prove!(heap.layout().mutators() <= 16);
    let note = pass.stop(heap, false);
    let numbers = note.numbers();
    collector.take(heap, note);
    numbers
}

/// The only participant stops in the open part, and the part is frozen.
pub fn stop_and_freeze<'a, S: HeapShapes>(
    heap: &'a Heap<S>,
    collector: &'a mut Collector,
    pass: &mut Pass,
) -> Frozen<'a, S>
    requires own { collector.old.seat.table_id ≡ heap.now.table.shared.table_id }
    requires of_heap { pass.old.seat.table_id ≡ heap.now.table.shared.table_id }
    requires running { collector.old.seat.me.0.frozen ≡ false }
    requires mutator { pass.old.seat.me.0.who < heap.now.key.layout.mutators }
    requires runs { pass.old.seat.me.0.runs ≡ true }
    requires rests { Rests pass.old.seat.me.0 }
    requires began { pass.old.seat.me.0.begun ≡ pass.old.seat.me.0.ticket }
    requires once { pass.old.seat.me.0.period < pass.old.seat.me.0.ticket }
    requires of_part { pass.old.seat.me.0.ticket ≡ collector.old.seat.me.0.period }
    requires alone { (i : ℕ) → IsParty heap.now.key.layout i → i ≡ pass.old.seat.me.0.who }
    ensures heap { result.heap.now ≡ heap.now }
    ensures frozen { Freezes heap.now.key.layout (S.lists heap.now.key.shapes) (noted collector.old.seat.me.0
        (note_of true (stopped_view pass.old.seat.me.0))) result.collector.now.seat.me.0 }
{
    stop_part(heap, collector, pass);
    collector.freeze(heap)
}
