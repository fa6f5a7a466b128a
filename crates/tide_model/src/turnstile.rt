//! Where a test may hold a participant. A turnstile changes nothing of the store.
use std::marker::Sync;

/// A place in a call or a visit at which a turnstile is met.
#[derive(Clone, Copy, Debug, PartialEq, Eq)]
pub enum Place {
    /// Before a mutator's call or a visitor's drain.
    Call,
    /// Between a field's store and the barrier's load.
    Linked,
    /// After the nuked structure is stored.
    Nuked,
    /// After the array reference is stored.
    Stored,
    /// After a mutator took a block to sweep it, before the first of its words is made 0.
    Taken,
    /// After a visitor made a cell black.
    Blackened,
    /// Before a visitor reads a structure for the second time.
    Scanned,
}

/// Where participants may be held, so that a test can fix an interleaving.
pub trait Turnstile: Sync {
    /// Returns when the participant may go on, and changes nothing of the store.
    ///
    /// `who` is a mutator's number, or 16 plus a visitor's. `what` is the number of the call, modulo 2^32, at
    /// `Call` of a mutator, 0 at `Call` of a visitor, the block at `Taken`, and the cell at the other places.
    fn at(&self, who: u32, place: Place, what: u32);
}

/// The turnstile that holds nobody.
#[derive(Clone, Copy)]
pub struct FreePass;

impl Turnstile for FreePass {
    fn at(&self, _who: u32, _place: Place, _what: u32) {}
}
