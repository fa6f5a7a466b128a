//! A look, which takes the slot at the seat's turn, and a store that gives it home. What they are for is the callers'.
ghost use Rattle.std.specs.Prelude.{◌≡◌, ◌<◌, ◌∷◌, suc, [], true, false};
ghost use Rattle.atomic_table.specs.Table.{step};
ghost use mathlib.Core.Option.{none};
ghost use Rattle.tide_hands.specs.Rule.{Content, Gave, Lies, Looked, is_move, resting, round_after};
ghost use Rattle.tide_hands.specs.Seats.{IsIdle};

use crate::parcel::Parcel;
use crate::table::{HandTable, Keyed, Parcels};
use crate::view::HandView;
use atomic_table::{Play, Seat};
use std::marker::PhantomData;

/// What a look tells.
pub(crate) struct Looks<T, N, I, P> {
    of: PhantomData<(T, N, I, P)>,
}

impl<T, N, I, P: Parcels<T, N, I>> Play<Parcel<T, N>, HandView<I>> for Looks<T, N, I, P> {
    ghost then = { λ step me found after. Looked P.ticket_ok P.note_ok me.0.name step me found after };
}

/// Loads the word of a place. At the turn of the seat the slot is taken.
pub(crate) fn look<T, N, I, P: Parcels<T, N, I>, K: Keyed<I>>(
    table: &HandTable<T, N, I, P, K>,
    seat: &mut Seat<Parcel<T, N>, HandView<I>>,
    place: usize,
) -> u64
    requires own { seat.old.table_id ≡ table.now.table_id }
    requires within { (place < table.now.table_id.words) × (place < table.now.table_id.slots) }
    requires idle { IsIdle seat.old.me }
    requires its { seat.old.me.0.keeper ≡ false → place ≡ seat.old.me.0.place }
    ensures same { (seat.new.table_id ≡ seat.old.table_id) × (seat.new.id ≡ seat.old.id) }
    ensures looked { Looked P.ticket_ok P.note_ok seat.old.me.0.name (step table.now.table_id.slots place 0 0 none)
        seat.old.me result seat.new.me }
{
    table.load::<Looks<T, N, I, P>>(seat, place)
}

/// What a store tells that gives a slot home.
pub(crate) struct Gives<T, N, I, P> {
    of: PhantomData<(T, N, I, P)>,
}

impl<T, N, I, P: Parcels<T, N, I>> Play<Parcel<T, N>, HandView<I>> for Gives<T, N, I, P> {
    ghost then = { λ step me stored after. Gave P.ticket_ok P.note_ok me.0.name step me stored after };
}

/// Gives the slot that the seat holds home, as it is: the word says what lies there.
pub(crate) fn give<T, N, I, P: Parcels<T, N, I>, K: Keyed<I>>(
    table: &HandTable<T, N, I, P, K>,
    seat: &mut Seat<Parcel<T, N>, HandView<I>>,
    place: usize,
    word: u64,
)
    requires own { seat.old.table_id ≡ table.now.table_id }
    requires within { (place < table.now.table_id.words) × (place < table.now.table_id.slots) }
    requires holds { seat.old.me.0.out ≡ suc place }
    requires its { seat.old.me.0.keeper ≡ false → place ≡ seat.old.me.0.place }
    requires moves { is_move seat.old.me.0.found word ≡ true }
    requires lies { Lies P.ticket_ok P.note_ok seat.old.me.0.name place (round_after place word seat.old.me.0) word
        seat.old.me.1 }
    ensures same { (seat.new.table_id ≡ seat.old.table_id) × (seat.new.id ≡ seat.old.id) }
    ensures gave { seat.new.me ≡ (resting word seat.old.me.0, []) }
{
    // Who finds this word has what lies there: the slot is home once the word is stored (`IsHome`, specs/Rule.antt).
    table.store::<Gives<T, N, I, P>>(seat, place, word);
}

/// Puts a parcel into the slot that the seat holds, and gives it home. What lay there comes back.
pub(crate) fn put<T, N, I, P: Parcels<T, N, I>, K: Keyed<I>>(
    table: &HandTable<T, N, I, P, K>,
    seat: &mut Seat<Parcel<T, N>, HandView<I>>,
    place: usize,
    parcel: Parcel<T, N>,
    word: u64,
) -> Parcel<T, N>
    requires own { seat.old.table_id ≡ table.now.table_id }
    requires within { (place < table.now.table_id.words) × (place < table.now.table_id.slots) }
    requires holds { seat.old.me.0.out ≡ suc place }
    requires slot { (old : _) × (seat.old.me.1 ≡ (place, old) ∷ []) }
    requires its { seat.old.me.0.keeper ≡ false → place ≡ seat.old.me.0.place }
    requires moves { is_move seat.old.me.0.found word ≡ true }
    requires content { Content P.ticket_ok P.note_ok seat.old.me.0.name place (round_after place word seat.old.me.0) word
        parcel }
    ensures same { (seat.new.table_id ≡ seat.old.table_id) × (seat.new.id ≡ seat.old.id) }
    ensures gave { seat.new.me ≡ (resting word seat.old.me.0, []) }
    ensures came { seat.old.me.1 ≡ (place, result) ∷ [] }
{
    let old = table.exchange(seat, place, parcel);
    give(table, seat, place, word);
    old
}
