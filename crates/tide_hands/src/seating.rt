//! How a table is made, and its seats. Nothing is handed over.
ghost use Rattle.std.specs.Prelude.{◌≡◌, ◌<◌, IfOk, []};
ghost use Rattle.tide_hands.specs.Rule.{keeper_after, keeper_view, member_view};

use crate::keeper::KeeperSeat;
use crate::member::MemberSeat;
use crate::parcel::Parcel;
use crate::table::{HandTable, Hands, Keyed, Parcels};
use crate::view::HandView;
use atomic_table::{Split, Table};
use std::alloc::{AllocError, Global};

/// A table for so many members, and its keeper's seat. A ticket is due at each place.
pub fn open_table<T: Drop, N: Drop, I, P: Parcels<T, N, I>, K: Keyed<I>>(
    alloc: Global,
    key: &K,
    count: usize,
) -> Result<
    (
        Table<Parcel<T, N>, HandView<I>, K, Hands<T, N, I, P, K>, Global>,
        KeeperSeat<T, N, I>,
    ),
    AllocError,
>
    requires count { count ≡ K.count key.now }
    ensures key { IfOk result (λ made. made.0.shared.key ≡ key.now) }
    ensures sized { IfOk result (λ made. (made.0.shared.table_id.words ≡ count)
        × (made.0.shared.table_id.slots ≡ count)) }
    ensures own { IfOk result (λ made. made.1.seat.table_id ≡ made.0.shared.table_id) }
    ensures keeper { IfOk result (λ made. made.1.seat.me ≡ (keeper_view (K.name key.now) count, [])) }
{
    let words = vec![in alloc; 0u64; count]?;
    let mut slots = Vec::new(alloc);
    for _ in 0..count {
        slots.push(Parcel::Nothing)?;
    }
    match Table::new(alloc, words.as_slice(), slots, key) {
        Ok((table, seat)) => Ok((table, KeeperSeat { seat })),
        Err(_) => Err(AllocError),
    }
}

/// The keeper seats one more member.
pub(crate) struct NextMember;

impl<I> Split<HandView<I>> for NextMember {
    ghost left = { keeper_after };

    ghost right = { member_view };
}

impl<T: Drop, N: Drop, I> KeeperSeat<T, N, I> {
    /// The seat of the next member, which has the next place.
    pub fn seat_member<P: Parcels<T, N, I>, K: Keyed<I>>(
        &mut self,
        table: &HandTable<T, N, I, P, K>,
        place: usize,
    ) -> MemberSeat<T, N, I>
        requires own { self.old.seat.table_id ≡ table.now.table_id }
        requires next { place ≡ self.old.seat.me.0.next }
        requires room { place < K.count table.now.key }
        requires within { (place < table.now.table_id.words) × (place < table.now.table_id.slots) }
        ensures same { (self.new.seat.table_id ≡ self.old.seat.table_id) × (self.new.seat.id ≡ self.old.seat.id) }
        ensures keeper { self.new.seat.me ≡ (keeper_after self.old.seat.me.0, []) }
        ensures member { (result.seat.table_id ≡ self.old.seat.table_id)
            × (result.seat.me ≡ (member_view self.old.seat.me.0, [])) }
    {
        let seat = table.split_seat::<NextMember>(&mut self.seat);
        MemberSeat { seat, place }
    }
}
