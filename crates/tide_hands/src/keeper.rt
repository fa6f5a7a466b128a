//! The keeper's side: it posts tickets and ends, and takes notes.
ghost use Rattle.std.specs.Prelude.{ℕ, ◌≡◌, ◌≢◌, ◌<◌, ◌+◌, ◌∷◌, IfSome, None, true, false, if◌then◌else◌};
ghost use Rattle.tide_hands.specs.Among.{Among, times};
ghost use Rattle.tide_hands.specs.Seats.{IsIdle, IsPosted, frame};

use crate::parcel::Parcel;
use crate::steps::{give, look, put};
use crate::table::{HandTable, Keyed, Parcels};
use crate::view::HandView;
use crate::words::{ENDED, NOTE_DUE, NOTE_LIES, TICKET_DUE, TICKET_LIES};
use atomic_table::Seat;
use std::sync::Wait;

/// The keeper's seat, between two calls.
#[derive(Drop)]
pub struct KeeperSeat<T, N, I> {
    pub(crate) seat: Seat<Parcel<T, N>, HandView<I>>,
    ghost keeper: { seat.me.0.keeper ≡ true },
    ghost idle: { IsIdle seat.me },
}

impl<T: Drop, N: Drop, I> KeeperSeat<T, N, I> {
    /// Posts a ticket at a place, where one is due; else the ticket comes back. It wakes nobody.
    pub fn post_ticket<P: Parcels<T, N, I>, K: Keyed<I>>(
        &mut self,
        table: &HandTable<T, N, I, P, K>,
        place: usize,
        ticket: T,
    ) -> Option<T>
        requires own { self.old.seat.table_id ≡ table.now.table_id }
        requires within { (place < table.now.table_id.words) × (place < table.now.table_id.slots) }
        requires ticket { P.ticket_ok self.old.seat.me.0.name (times place self.old.seat.me.0.tickets + 1) ticket }
        ensures same { (self.new.seat.table_id ≡ self.old.seat.table_id) × (self.new.seat.id ≡ self.old.seat.id) }
        ensures kept { frame self.new.seat.me.0 ≡ frame self.old.seat.me.0 }
        ensures over { self.new.seat.me.0.over ≡ self.old.seat.me.0.over }
        ensures ends { self.new.seat.me.0.ends ≡ self.old.seat.me.0.ends }
        ensures taken { (self.new.seat.me.0.taken ≡ self.old.seat.me.0.taken)
            × (self.new.seat.me.0.notes ≡ self.old.seat.me.0.notes) }
        ensures posted { IsPosted place ticket self.old.seat.me.0 self.new.seat.me.0 result }
        ensures sure { Among place self.old.seat.me.0.free → result ≡ None }
        ensures free { (q : ℕ) → q ≢ place → Among q self.old.seat.me.0.free → Among q self.new.seat.me.0.free }
    {
        match look(table, &mut self.seat, place) {
            TICKET_DUE => {
                drop(put(
                    table,
                    &mut self.seat,
                    place,
                    Parcel::Ticket(ticket),
                    TICKET_LIES,
                ));
                None
            }
            NOTE_LIES => {
                give(table, &mut self.seat, place, NOTE_LIES);
                Some(ticket)
            }
            _ => Some(ticket),
        }
    }

    /// Says at a place that no ticket comes any more, where one is due. Answers whether it was. It wakes nobody.
    pub fn post_end<P: Parcels<T, N, I>, K: Keyed<I>>(
        &mut self,
        table: &HandTable<T, N, I, P, K>,
        place: usize,
    ) -> bool
        requires own { self.old.seat.table_id ≡ table.now.table_id }
        requires within { (place < table.now.table_id.words) × (place < table.now.table_id.slots) }
        ensures same { (self.new.seat.table_id ≡ self.old.seat.table_id) × (self.new.seat.id ≡ self.old.seat.id) }
        ensures kept { frame self.new.seat.me.0 ≡ frame self.old.seat.me.0 }
        ensures taken { (self.new.seat.me.0.taken ≡ self.old.seat.me.0.taken)
            × (self.new.seat.me.0.notes ≡ self.old.seat.me.0.notes) }
        ensures tickets { self.new.seat.me.0.tickets ≡ self.old.seat.me.0.tickets }
        ensures posted { result ≡ true → (self.new.seat.me.0.over ≡ true)
            × (self.new.seat.me.0.given ≡ self.old.seat.me.0.given + 1) × (self.new.seat.me.0.at ≡ place) }
        ensures ends { self.new.seat.me.0.ends
            ≡ (if result then place ∷ self.old.seat.me.0.ends else self.old.seat.me.0.ends) }
        ensures stays { result ≡ false → (self.new.seat.me.0.over ≡ self.old.seat.me.0.over)
            × (self.new.seat.me.0.given ≡ self.old.seat.me.0.given) }
        ensures sure { Among place self.old.seat.me.0.free → result ≡ true }
        ensures free { (q : ℕ) → q ≢ place → Among q self.old.seat.me.0.free → Among q self.new.seat.me.0.free }
    {
        match look(table, &mut self.seat, place) {
            TICKET_DUE => {
                drop(put(table, &mut self.seat, place, Parcel::Nothing, ENDED));
                true
            }
            NOTE_LIES => {
                give(table, &mut self.seat, place, NOTE_LIES);
                false
            }
            _ => false,
        }
    }

    /// Wakes the member that waits at a place, if it does: so behind each post there, where it may wait.
    pub fn rouse<P: Parcels<T, N, I>, K: Keyed<I>>(
        &self,
        table: &HandTable<T, N, I, P, K>,
        place: usize,
    )
        requires own { self.now.seat.table_id ≡ table.now.table_id }
        requires within { place < table.now.table_id.words }
    {
        table.wake_one(place);
    }

    /// The note that lies at a place, with its flag, where one does. A ticket is due then.
    pub fn take_note<P: Parcels<T, N, I>, K: Keyed<I>>(
        &mut self,
        table: &HandTable<T, N, I, P, K>,
        place: usize,
    ) -> Option<(N, bool)>
        requires own { self.old.seat.table_id ≡ table.now.table_id }
        requires within { (place < table.now.table_id.words) × (place < table.now.table_id.slots) }
        ensures same { (self.new.seat.table_id ≡ self.old.seat.table_id) × (self.new.seat.id ≡ self.old.seat.id) }
        ensures kept { frame self.new.seat.me.0 ≡ frame self.old.seat.me.0 }
        ensures over { self.new.seat.me.0.over ≡ self.old.seat.me.0.over }
        ensures ends { self.new.seat.me.0.ends ≡ self.old.seat.me.0.ends }
        ensures given { (self.new.seat.me.0.given ≡ self.old.seat.me.0.given)
            × (self.new.seat.me.0.tickets ≡ self.old.seat.me.0.tickets) }
        ensures note { IfSome result (λ note. P.note_ok self.old.seat.me.0.name place
            (times place self.old.seat.me.0.tickets) note.0 note.1) }
        ensures taken { IfSome result (λ note. (self.new.seat.me.0.taken ≡ self.old.seat.me.0.taken + 1)
            × (self.new.seat.me.0.notes ≡ place ∷ self.old.seat.me.0.notes)) }
        ensures none { result ≡ None → (self.new.seat.me.0.taken ≡ self.old.seat.me.0.taken)
            × (self.new.seat.me.0.notes ≡ self.old.seat.me.0.notes) }
        ensures due { IfSome result (λ note. Among place self.new.seat.me.0.free) }
        ensures free { (q : ℕ) → Among q self.old.seat.me.0.free → Among q self.new.seat.me.0.free }
    {
        match look(table, &mut self.seat, place) {
            NOTE_LIES => match put(table, &mut self.seat, place, Parcel::Nothing, TICKET_DUE) {
                Parcel::Note(note, flag) => Some((note, flag)),
                Parcel::Nothing => unreachable!(),
                Parcel::Ticket(_) => unreachable!(),
            },
            TICKET_DUE => {
                give(table, &mut self.seat, place, TICKET_DUE);
                None
            }
            _ => None,
        }
    }

    /// Waits while it is the member's turn at a place. It may return before, and wait for ever.
    pub fn wait_for_note<R: Wait, P: Parcels<T, N, I>, K: Keyed<I>>(
        &self,
        rt: &R,
        table: &HandTable<T, N, I, P, K>,
        place: usize,
    )
        requires own { self.now.seat.table_id ≡ table.now.table_id }
        requires within { place < table.now.table_id.words }
    {
        // Who posts a note wakes who waits (`rouse`), and who takes a ticket doesn't. A word that was changed since it
        // was seen is not parked on.
        match table.peek(place) {
            TICKET_LIES => table.park(rt, place, TICKET_LIES as u32),
            NOTE_DUE => table.park(rt, place, NOTE_DUE as u32),
            _ => {}
        }
    }

    /// The note of a place, with its flag. It waits for it, maybe for ever.
    pub fn await_note<R: Wait, P: Parcels<T, N, I>, K: Keyed<I>>(
        &mut self,
        rt: &R,
        table: &HandTable<T, N, I, P, K>,
        place: usize,
    ) -> (N, bool)
        requires own { self.old.seat.table_id ≡ table.now.table_id }
        requires within { (place < table.now.table_id.words) × (place < table.now.table_id.slots) }
        ensures same { (self.new.seat.table_id ≡ self.old.seat.table_id) × (self.new.seat.id ≡ self.old.seat.id) }
        ensures kept { frame self.new.seat.me.0 ≡ frame self.old.seat.me.0 }
        ensures over { self.new.seat.me.0.over ≡ self.old.seat.me.0.over }
        ensures ends { self.new.seat.me.0.ends ≡ self.old.seat.me.0.ends }
        ensures given { (self.new.seat.me.0.given ≡ self.old.seat.me.0.given)
            × (self.new.seat.me.0.tickets ≡ self.old.seat.me.0.tickets) }
        ensures note { P.note_ok self.old.seat.me.0.name place (times place self.old.seat.me.0.tickets)
            result.0 result.1 }
        ensures taken { (self.new.seat.me.0.taken ≡ self.old.seat.me.0.taken + 1)
            × (self.new.seat.me.0.notes ≡ place ∷ self.old.seat.me.0.notes) }
        ensures due { Among place self.new.seat.me.0.free }
        ensures free { (q : ℕ) → Among q self.old.seat.me.0.free → Among q self.new.seat.me.0.free }
    {
        for _ in rt.forever() {
            if let Some(found) = self.take_note(table, place) {
                return found;
            }
            self.wait_for_note(rt, table, place);
        }
        unreachable!()
    }
}
