//! The collector's side of a part: tickets are handed out before it, and notes are taken in after it.
ghost use Rattle.std.specs.Prelude.{◌≡◌, ℕ, [], Some, false, slice_get};
ghost use Rattle.crossbeam_utils.specs.Padded.{padded_value};
ghost use Rattle.crossbeam_utils.specs.declared.cache_padded.CachePadded.{CachePadded};
ghost use Rattle.tide_heap.specs.declared.steps.notes.Note.{Note};
ghost use Rattle.tide_threads.specs.Acting.{before_all, noted_all, notes_in, told_in};
ghost use Rattle.tide_threads.specs.Playing.{Both, GaveNote, MayTake, WasHanded};
ghost use Rattle.tide_threads.specs.declared.participant.Participant.{Participant};

use crate::participant::Participant;
use crossbeam_utils::CachePadded;
use tide_shape::Shapes;
use tide_table::{Collector, Heap};

/// Hands a ticket to a participant, unless it has left for good.
fn hand_to(collector: &mut Collector, heap: &Heap<Shapes>, padded: &mut CachePadded<Participant>)
    requires own { collector.old.seat.table_id ≡ heap.now.table.shared.table_id }
    requires running { collector.old.seat.me.0.frozen ≡ false }
    ensures same { (collector.new.seat.table_id ≡ collector.old.seat.table_id)
        × (collector.new.seat.me.0 ≡ collector.old.seat.me.0) }
    ensures handed { WasHanded heap.now.table.shared.table_id collector.old.seat.me.0
        (padded_value padded.old) (padded_value padded.new) }
{
    let participant: &mut Participant = padded;
    if !participant.worker.has_left() {
        participant.ticket = Some(collector.ticket(heap));
    }
}

/// Hands out the tickets of the open part.
pub(crate) fn hand_out(
    collector: &mut Collector,
    heap: &Heap<Shapes>,
    participants: &mut [CachePadded<Participant>],
)
    requires own { collector.old.seat.table_id ≡ heap.now.table.shared.table_id }
    requires running { collector.old.seat.me.0.frozen ≡ false }
    ensures same { (collector.new.seat.table_id ≡ collector.old.seat.table_id)
        × (collector.new.seat.me.0 ≡ collector.old.seat.me.0) }
    ensures handed { Both (WasHanded heap.now.table.shared.table_id collector.old.seat.me.0)
        participants.old participants.new }
{
    for padded in participants.iter_mut() {
        hand_to(collector, heap, padded);
    }
}

/// Takes a participant's note in, if it has one.
fn take_from(collector: &mut Collector, heap: &Heap<Shapes>, padded: &mut CachePadded<Participant>)
    requires own { collector.old.seat.table_id ≡ heap.now.table.shared.table_id }
    requires running { collector.old.seat.me.0.frozen ≡ false }
    requires may { (note : Note) → (padded_value padded.old).note ≡ Some note →
        MayTake heap.now.table.shared.table_id collector.old.seat.me.0.period note }
    ensures same { collector.new.seat.table_id ≡ collector.old.seat.table_id }
    ensures taken { collector.new.seat.me.0
        ≡ noted_all (before_all (told_in (padded_value padded.old).note) []) collector.old.seat.me.0 }
    ensures gave { GaveNote (padded_value padded.old) (padded_value padded.new) }
{
    let participant: &mut Participant = padded;
    if let Some(note) = participant.note.take() {
        collector.take(heap, note);
    }
}

/// Takes the notes of the open part in.
pub(crate) fn take_in(
    collector: &mut Collector,
    heap: &Heap<Shapes>,
    participants: &mut [CachePadded<Participant>],
)
    requires own { collector.old.seat.table_id ≡ heap.now.table.shared.table_id }
    requires running { collector.old.seat.me.0.frozen ≡ false }
    requires may { (who : ℕ) (padded : CachePadded Participant) (note : Note) →
        slice_get participants.old who ≡ Some padded → (padded_value padded).note ≡ Some note →
        MayTake heap.now.table.shared.table_id collector.old.seat.me.0.period note }
    ensures same { collector.new.seat.table_id ≡ collector.old.seat.table_id }
    ensures taken { collector.new.seat.me.0 ≡ noted_all (notes_in participants.old) collector.old.seat.me.0 }
    ensures gave { Both GaveNote participants.old participants.new }
{
    for padded in participants.iter_mut() {
        take_from(collector, heap, padded);
    }
}
