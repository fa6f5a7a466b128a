//! A member's side: it takes tickets, or finds an end, and posts notes.
ghost use Rattle.std.specs.Prelude.{◌≡◌, ◌<◌, ◌+◌, IfSome, None, false, true};
ghost use Rattle.tide_hands.specs.Seats.{IsFound, IsIdle, frame};

use crate::found::Found;
use crate::parcel::Parcel;
use crate::steps::{give, look, put};
use crate::table::{HandTable, Keyed, Parcels};
use crate::view::HandView;
use crate::words::{ENDED, NOTE_DUE, NOTE_LIES, TICKET_DUE, TICKET_LIES};
use atomic_table::Seat;
use std::sync::Wait;

/// A member's seat, between two calls, and its place.
#[derive(Drop)]
pub struct MemberSeat<T, N, I> {
    pub(crate) seat: Seat<Parcel<T, N>, HandView<I>>,
    pub(crate) place: usize,
    ghost member: { seat.me.0.keeper ≡ false },
    ghost its: { place ≡ seat.me.0.place },
    ghost within: { (place < seat.table_id.words) × (place < seat.table_id.slots) },
    ghost idle: { IsIdle seat.me },
}

impl<T: Drop, N: Drop, I> MemberSeat<T, N, I> {
    /// Its place in the table.
    pub fn place(&self) -> usize
        ensures { result ≡ self.now.place }
    {
        self.place
    }

    /// The ticket that lies at its place, where one does; a note is due then. Or an end, where one was posted.
    pub fn take_ticket<P: Parcels<T, N, I>, K: Keyed<I>>(
        &mut self,
        table: &HandTable<T, N, I, P, K>,
    ) -> Found<T>
        requires own { self.old.seat.table_id ≡ table.now.table_id }
        ensures same { (self.new.seat.table_id ≡ self.old.seat.table_id) × (self.new.seat.id ≡ self.old.seat.id)
            × (self.new.place ≡ self.old.place) }
        ensures kept { frame self.new.seat.me.0 ≡ frame self.old.seat.me.0 }
        ensures given { self.new.seat.me.0.given ≡ self.old.seat.me.0.given }
        ensures found { IsFound (P.ticket_ok self.old.seat.me.0.name (self.old.seat.me.0.taken + 1))
            self.old.seat.me.0 self.new.seat.me.0 result }
    {
        let place = self.place;
        match look(table, &mut self.seat, place) {
            TICKET_DUE | NOTE_LIES => Found::Nothing,
            TICKET_LIES => match put(table, &mut self.seat, place, Parcel::Nothing, NOTE_DUE) {
                Parcel::Ticket(ticket) => Found::Ticket(ticket),
                Parcel::Nothing => unreachable!(),
                Parcel::Note(_, _) => unreachable!(),
            },
            NOTE_DUE => {
                give(table, &mut self.seat, place, NOTE_DUE);
                Found::Nothing
            }
            ENDED => {
                give(table, &mut self.seat, place, ENDED);
                Found::End
            }
            _ => unreachable!(),
        }
    }

    /// Waits while it is the keeper's turn at its place. It may return before, and wait for ever.
    pub fn wait_for_turn<R: Wait, P: Parcels<T, N, I>, K: Keyed<I>>(
        &self,
        rt: &R,
        table: &HandTable<T, N, I, P, K>,
    )
        requires own { self.now.seat.table_id ≡ table.now.table_id }
    {
        // Only the keeper changes the word at its turn, and it wakes who waits (`rouse`). A word that was changed since
        // it was seen is not parked on.
        match table.peek(self.place) {
            TICKET_DUE => table.park(rt, self.place, TICKET_DUE as u32),
            NOTE_LIES => table.park(rt, self.place, NOTE_LIES as u32),
            _ => {}
        }
    }

    /// Waits while an end lies at its place, as it does for ever from then on. It may return before.
    pub fn wait_at_end<R: Wait, P: Parcels<T, N, I>, K: Keyed<I>>(
        &self,
        rt: &R,
        table: &HandTable<T, N, I, P, K>,
    )
        requires own { self.now.seat.table_id ≡ table.now.table_id }
    {
        match table.peek(self.place) {
            ENDED => table.park(rt, self.place, ENDED as u32),
            _ => {}
        }
    }

    /// The next ticket at its place, or `None` where an end was posted. It waits for them, maybe for ever.
    pub fn await_ticket<R: Wait, P: Parcels<T, N, I>, K: Keyed<I>>(
        &mut self,
        rt: &R,
        table: &HandTable<T, N, I, P, K>,
    ) -> Option<T>
        requires own { self.old.seat.table_id ≡ table.now.table_id }
        ensures same { (self.new.seat.table_id ≡ self.old.seat.table_id) × (self.new.seat.id ≡ self.old.seat.id)
            × (self.new.place ≡ self.old.place) }
        ensures kept { frame self.new.seat.me.0 ≡ frame self.old.seat.me.0 }
        ensures given { self.new.seat.me.0.given ≡ self.old.seat.me.0.given }
        ensures ticket { IfSome result (P.ticket_ok self.old.seat.me.0.name (self.old.seat.me.0.taken + 1)) }
        ensures taken { IfSome result (λ ticket. (self.new.seat.me.0.taken ≡ self.old.seat.me.0.taken + 1)
            × (self.new.seat.me.0.due ≡ true)) }
        ensures over { result ≡ None → (self.new.seat.me.0.over ≡ true)
            × (self.new.seat.me.0.taken ≡ self.old.seat.me.0.taken) }
    {
        for _ in rt.forever() {
            match self.take_ticket(table) {
                Found::Ticket(ticket) => return Some(ticket),
                Found::End => return None,
                Found::Nothing => self.wait_for_turn(rt, table),
            }
        }
        unreachable!()
    }

    /// Posts the note that is due at its place. It wakes nobody.
    pub fn post_note<P: Parcels<T, N, I>, K: Keyed<I>>(
        &mut self,
        table: &HandTable<T, N, I, P, K>,
        note: N,
        flag: bool,
    )
        requires own { self.old.seat.table_id ≡ table.now.table_id }
        requires due { self.old.seat.me.0.due ≡ true }
        requires note { P.note_ok self.old.seat.me.0.name self.old.place self.old.seat.me.0.taken note flag }
        ensures same { (self.new.seat.table_id ≡ self.old.seat.table_id) × (self.new.seat.id ≡ self.old.seat.id)
            × (self.new.place ≡ self.old.place) }
        ensures kept { frame self.new.seat.me.0 ≡ frame self.old.seat.me.0 }
        ensures taken { self.new.seat.me.0.taken ≡ self.old.seat.me.0.taken }
        ensures posted { self.new.seat.me.0.given ≡ self.old.seat.me.0.given + 1 }
    {
        let place = self.place;
        let NOTE_DUE = look(table, &mut self.seat, place) else {
            unreachable!()
        };
        drop(put(
            table,
            &mut self.seat,
            place,
            Parcel::Note(note, flag),
            NOTE_LIES,
        ));
    }

    /// Wakes the keeper, if it waits at its place: so behind each post, where it may wait.
    pub fn rouse<P: Parcels<T, N, I>, K: Keyed<I>>(&self, table: &HandTable<T, N, I, P, K>)
        requires own { self.now.seat.table_id ≡ table.now.table_id }
    {
        table.wake_one(self.place);
    }
}
