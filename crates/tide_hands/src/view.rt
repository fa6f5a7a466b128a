//! What a seat knows.
use std::collections::LinkedList;

/// What a seat of the table knows. No value of it is made: it is what a seat has beside it, for contracts to speak of.
pub struct HandView<I> {
    /// It is the keeper's seat.
    pub keeper: bool,
    /// A member's place.
    pub place: u64,
    /// Which slot is out with it, as its place and 1 more; else 0.
    pub out: u64,
    /// The keeper's: how many members have a seat.
    pub next: u64,
    /// The keeper's: places at which a ticket is due, as far as it knows.
    pub free: LinkedList<u64>,
    /// The keeper's: places at which it posted a ticket, and of which it took a note, each as often as it did.
    pub tickets: LinkedList<u64>,
    pub notes: LinkedList<u64>,
    /// The keeper's: places at which it posted an end.
    pub ends: LinkedList<u64>,
    /// An end was posted, as far as it knows.
    pub over: bool,
    /// A member's: it has taken a ticket, and its note is due.
    pub due: bool,
    /// The place and the word of its last look at its turn.
    pub at: u64,
    pub found: u64,
    /// How many parcels and ends it has posted, and how many parcels it has taken.
    pub given: u64,
    pub taken: u64,
    /// The name of what is handed over.
    pub name: I,
}
