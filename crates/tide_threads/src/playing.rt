//! A part on threads: each participant does its part on one of them. It opens no part and freezes none.
ghost use Rattle.std.specs.Prelude.{◌≡◌, ◌<◌, ◌≤◌, ℕ, All, IfOk, Some, false, length, max, min, slice_get};
ghost use Rattle.crossbeam_utils.specs.Padded.{padded_value};
ghost use Rattle.crossbeam_utils.specs.declared.cache_padded.CachePadded.{CachePadded};
ghost use Rattle.tide_shape.specs.Lists.{lists_of};
ghost use Rattle.tide_threads.specs.Acting.{busy_in, is_busy};
ghost use Rattle.tide_threads.specs.Playing.{AllServed, Both, DidPart, MayHear, MayPlay, TookTurn};
ghost use Rattle.tide_threads.specs.declared.participant.Participant.{Participant};

use crate::collecting::hand_out;
use crate::participant::Participant;
use crossbeam_utils::CachePadded;
use std::marker::Sync;
use std::thread;
use std::thread::Threads;
use tide_model::{Memory, Turnstile};
use tide_shape::Shapes;
use tide_table::{Collector, Heap};

/// One participant's part.
fn play_one<T: Turnstile>(padded: &mut CachePadded<Participant>, heap: &Heap<Shapes>, turnstile: &T)
    requires may { MayPlay heap.now.table.shared.table_id heap.now.key.layout (lists_of heap.now.key.shapes)
        (padded_value padded.old) }
    ensures did { DidPart heap.now.table.shared.table_id heap.now.key.layout (lists_of heap.now.key.shapes)
        (padded_value padded.old) (padded_value padded.new) }
{
    let participant: &mut Participant = padded;
    participant.play_part(heap, turnstile);
}

/// Whether a participant has something to do with its ticket.
fn is_busy(padded: &CachePadded<Participant>) -> bool
    ensures { result ≡ is_busy (padded_value padded.now) }
{
    padded.is_busy()
}

/// On how many threads the part of each participant is played: on one, the caller's own, where at most one of them has
/// something to do, and else on as many as there are participants, and on no more than so many.
fn threads_for(participants: &[CachePadded<Participant>], threads: usize) -> usize
    ensures alone { busy_in participants.now ≤ 1 → result ≡ 1 }
    ensures beside { 1 < busy_in participants.now → result ≡ min (length participants.now) (max threads 1) }
    ensures some { 0 < result }
{
    let busy = participants.iter().filter(|padded| is_busy(padded)).count();
    if busy > 1 {
        participants.len().min(threads.max(1))
    } else {
        1
    }
}

/// The part of each participant, on no more than so many threads. Those of one thread do their parts in turn.
fn play_all<R: Threads + Sync, T: Turnstile>(
    rt: &R,
    threads: usize,
    heap: &Heap<Shapes>,
    turnstile: &T,
    participants: &mut [CachePadded<Participant>],
)
    requires may { All (λ padded. MayPlay heap.now.table.shared.table_id heap.now.key.layout
        (lists_of heap.now.key.shapes) (padded_value padded)) participants.old }
    ensures did { Both (DidPart heap.now.table.shared.table_id heap.now.key.layout (lists_of heap.now.key.shapes))
        participants.old participants.new }
{
    let count = threads_for(participants, threads);
    thread::for_each_mut(
        rt,
        participants,
        count,
        &|_, padded|
            requires { MayPlay heap.now.table.shared.table_id heap.now.key.layout (lists_of heap.now.key.shapes)
                (padded_value padded.old) }
            ensures { DidPart heap.entry.now.table.shared.table_id heap.entry.now.key.layout
                (lists_of heap.entry.now.key.shapes) (padded_value padded.old) (padded_value padded.new) }
        { play_one(padded, heap, turnstile) },
    );
}

/// Whether a participant stopped before its share was over, where memory served all of them.
fn have_ended(participants: &[CachePadded<Participant>]) -> Result<bool, Memory>
    ensures { IfOk result (AllServed participants.now) }
{
    let mut ended = false;
    for padded in participants {
        if padded.outcome? {
            ended = true;
        }
    }
    Ok(ended)
}

/// Hands the tickets of the open part out, and has it played. Answers whether a participant stopped before its share
/// was over.
pub(crate) fn play_part<R: Threads + Sync, T: Turnstile>(
    rt: &R,
    threads: usize,
    heap: &Heap<Shapes>,
    turnstile: &T,
    collector: &mut Collector,
    participants: &mut [CachePadded<Participant>],
) -> Result<bool, Memory>
    requires own { collector.old.seat.table_id ≡ heap.now.table.shared.table_id }
    requires running { collector.old.seat.me.0.frozen ≡ false }
    requires may { (who : ℕ) (padded : CachePadded Participant) → slice_get participants.old who ≡ Some padded →
        MayHear heap.now.table.shared.table_id heap.now.key.layout (lists_of heap.now.key.shapes)
        collector.old.seat.me.0 (padded_value padded) }
    ensures same { (collector.new.seat.table_id ≡ collector.old.seat.table_id)
        × (collector.new.seat.me.0 ≡ collector.old.seat.me.0) }
    ensures turns { IfOk result (λ ended. Both (TookTurn heap.now.table.shared.table_id heap.now.key.layout
        (lists_of heap.now.key.shapes) collector.old.seat.me.0) participants.old participants.new) }
    ensures served { IfOk result (AllServed participants.new) }
{
    hand_out(collector, heap, participants);
    play_all(rt, threads, heap, turnstile, participants);
    have_ended(participants)
}
