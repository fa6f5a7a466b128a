//! `Member`: a mutator of a standing heap, on a thread of its caller's. It makes no call.
ghost use Rattle.std.specs.Prelude.{◌≡◌, ◌≤◌, None, false, is_some, length, true};
ghost use Rattle.tide_model.specs.Script.{retry_of};
ghost use Rattle.tide_mutator.specs.owed.Standing.{claims_of};
ghost use Rattle.tide_mutator.specs.calls.Viewed.{table_of, view_of};
ghost use Rattle.tide_posts.specs.tide_heap.tide_core.machine.Frozen.{newcomer};

use tide_model::Op;
use tide_mutator::Mutator;
use tide_posts::{HandedIn, HeapName, MemberSeat, Pass, Ticket};

/// A mutator of a standing heap, between two calls.
#[derive(Drop)]
pub struct Member {
    pub(crate) mutator: Mutator,
    pub(crate) seat: MemberSeat<Ticket, HandedIn, HeapName>,
    /// How many calls it has left in its part.
    pub(crate) left: u32,
    /// The operation that is to be tried again: its last call was refused for room a first time.
    pub(crate) retry: Option<Op>,
    /// Its last call ended its share.
    pub(crate) ended: bool,
    /// It has begun a part, and not handed its note in.
    pub(crate) works: bool,
    ghost its: { (view_of mutator).who ≡ seat.place },
    ghost before: { (view_of mutator).period ≤ seat.seat.me.0.taken },
    ghost numbered: { works ≡ true → (view_of mutator).ticket ≡ seat.seat.me.0.taken },
    ghost retry_is: { retry ≡ retry_of (view_of mutator).who (view_of mutator).mine },
    ghost owes: { works ≡ true → seat.seat.me.0.due ≡ true },
}

impl Member {
    /// A mutator that has made no call yet, with its seat.
    pub(crate) fn new(pass: Pass, seat: MemberSeat<Ticket, HandedIn, HeapName>) -> Member
        requires newcomer { pass.seat.me.0 ≡ newcomer seat.place }
        ensures table { table_of result.mutator ≡ pass.seat.table_id }
        ensures view { view_of result.mutator ≡ newcomer seat.place }
        ensures seat { result.seat ≡ seat }
        ensures rests { result.works ≡ false }
    {
        Member {
            mutator: Mutator::new(pass),
            seat,
            left: 0,
            retry: None,
            ended: false,
            works: false,
        }
    }

    /// Its number, which counts from 0.
    pub fn number(&self) -> usize
        ensures { result ≡ (view_of self.now.mutator).who }
    {
        self.seat.place()
    }

    /// Whether its last call was refused for room a first time: then the same operation comes next.
    pub fn retries(&self) -> bool
        ensures is { result ≡ is_some (retry_of (view_of self.now.mutator).who (view_of self.now.mutator).mine) }
        ensures settled { result ≡ false →
            retry_of (view_of self.now.mutator).who (view_of self.now.mutator).mine ≡ None }
    {
        self.retry.is_some()
    }

    /// The operation that comes next, where its last call was refused for room a first time.
    pub fn retry(&self) -> Option<Op>
        ensures { result ≡ retry_of (view_of self.now.mutator).who (view_of self.now.mutator).mine }
    {
        self.retry
    }

    /// Whether it is in the midst of a part.
    pub fn works(&self) -> bool
        ensures { result ≡ self.now.works }
    {
        self.works
    }

    /// How many cells it claims.
    pub fn claims(&self) -> u32
        ensures { result ≡ length (claims_of (view_of self.now.mutator)) }
    {
        self.mutator.claims()
    }
}
