//! The table and its rule. It makes no step.
ghost use Rattle.std.specs.Prelude.{ℕ, Bool};
ghost use Rattle.tide_hands.specs.Rule.{Rule, keeper_view};

use crate::parcel::Parcel;
use crate::view::HandView;
use atomic_table::{Shared, TableRule};
use std::marker::PhantomData;

/// What a ticket and a note that lie in a slot are, by the name of what they are of, and by a number: the tickets of a
/// place are numbered from 1, and a note has that of its ticket. A note is that of a place, and has a flag beside it.
pub trait Parcels<T, N, I> {
    ghost ticket_ok: { I → ℕ → T → Type 0 };

    ghost note_ok: { I → ℕ → ℕ → N → Bool → Type 0 };
}

/// What a table is made for: a name, and how many members there are.
pub trait Keyed<I> {
    ghost name: { Self → I };

    ghost count: { Self → ℕ };
}

/// The rule of the table.
pub struct Hands<T, N, I, P, K> {
    of: PhantomData<(T, N, I, P, K)>,
}

impl<T, N, I, P: Parcels<T, N, I>, K: Keyed<I>> TableRule<Parcel<T, N>, HandView<I>, K>
    for Hands<T, N, I, P, K> {
    ghost holds = { λ key. Rule P.ticket_ok P.note_ok (K.name key) (K.count key) };

    ghost first = { λ key. keeper_view (K.name key) (K.count key) };
}

/// The shared side of a table of slots and words.
pub type HandTable<T, N, I, P, K> = Shared<Parcel<T, N>, HandView<I>, K, Hands<T, N, I, P, K>>;
