//! What the word of a place says.

/// A ticket or an end is due. It is the keeper's turn.
pub(crate) const TICKET_DUE: u64 = 0;

/// A ticket lies in the slot.
pub(crate) const TICKET_LIES: u64 = 1;

/// The ticket was taken, and a note is due.
pub(crate) const NOTE_DUE: u64 = 2;

/// A note lies in the slot. It is the keeper's turn.
pub(crate) const NOTE_LIES: u64 = 3;

/// No ticket comes any more.
pub(crate) const ENDED: u64 = 4;
