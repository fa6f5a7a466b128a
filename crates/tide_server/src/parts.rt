//! A member's part, from its ticket to its note. It waits for nobody.
ghost use Rattle.std.specs.Prelude.{◌≡◌, ◌≢◌, ◌≤◌, ◌<◌, ◌+◌, ◌||◌, [], None, is_some, true, false};
ghost use Rattle.tide_model.specs.Lawful.{FitsLayout};
ghost use Rattle.tide_model.specs.Caller.{MakesCall};
ghost use Rattle.tide_model.specs.Periods.{open_count};
ghost use Rattle.tide_model.specs.Prefix.{IsPrefix};
ghost use Rattle.tide_model.specs.Script.{retry_after, retry_of};
ghost use Rattle.tide_model.specs.Share.{is_asked};
ghost use Rattle.tide_model.specs.declared.op.Op.TheVariants.{Retire};
ghost use Rattle.tide_model.specs.declared.op.Reply.TheVariants.{Done as IsDone};
ghost use Rattle.tide_mutator.specs.calls.Called.{is_of_claims};
ghost use Rattle.tide_mutator.specs.calls.Viewed.{table_of, view_of};
ghost use Rattle.tide_mutator.specs.owed.Standing.{claims_of};
ghost use Rattle.tide_posts.specs.Posts.{IsTicketFor};
ghost use Rattle.tide_posts.specs.Schedule.{OpensLater};
ghost use Rattle.tide_posts.specs.Shares.{HasShared};
ghost use Rattle.tide_posts.specs.tide_heap.tide_core.machine.kinds.Split.{split_view};
ghost use Rattle.tide_posts.specs.tide_heap.tide_core.machine.kinds.StoreStopped.{stopped_view};
ghost use Rattle.tide_server.specs.Members.{IsMemberOf, MayEnd, MayMake, Retries, StopsAfter, caller_of, is_over};
ghost use Rattle.tide_server.specs.declared.parts.Offered.TheVariants as offered;

use crate::member::Member;
use crate::standing::Standing;
use std::sync::atomic::Ordering;
use tide_model::{Op, Refusal, Reply, Turnstile};
use tide_mutator::Mutator;
use tide_posts::{Found, HandedIn, HeapName, HeapShapes, MemberSeat, Ticket};
use tide_shape::ShapeTable;

/// What a member finds when it is offered a part.
#[derive(Clone, Copy, PartialEq, Eq)]
pub enum Offered {
    /// A ticket lay there, and it has begun that part.
    Begun,
    /// Nothing lies there yet.
    NotYet,
    /// No part is opened any more.
    Over,
}

/// The operation that is to be tried again after a call: where it was refused for room a first time.
fn retry_after(retry: Option<Op>, op: Op, reply: Reply) -> Option<Op>
    ensures { result ≡ retry_after retry (op, reply) }
{
    match (retry, reply) {
        (None, Reply::Refused(Refusal::Full { .. })) => Some(op),
        _ => None,
    }
}

/// Whether a call ends its mutator's share: a cycle was asked for, or it was refused for room a first time.
fn ends(reply: Reply, retry: Option<Op>) -> bool
    ensures { result ≡ (is_asked reply || is_some retry) }
{
    matches!(reply, Reply::Asked) || retry.is_some()
}

/// Stops a mutator, and posts its note, which tells that it made its share of the part.
fn stop_and_post<S: HeapShapes>(
    mutator: &mut Mutator,
    seat: &mut MemberSeat<Ticket, HandedIn, HeapName>,
    standing: &Standing<S>,
    ended: bool,
    early: bool,
)
    requires own { table_of mutator.old ≡ standing.now.heap.table.shared.table_id }
    requires seated { seat.old.seat.table_id ≡ standing.now.hands.shared.table_id }
    requires named { seat.old.seat.me.0.name ≡ record {
      layout = standing.now.heap.key.layout;
      table_id = standing.now.heap.table.shared.table_id;
    } }
    requires its { (view_of mutator.old).who ≡ seat.old.place }
    requires mutator { (view_of mutator.old).who < standing.now.heap.key.layout.mutators }
    requires owes { seat.old.seat.me.0.due ≡ true }
    requires runs { (view_of mutator.old).runs ≡ true }
    requires of_part { (view_of mutator.old).begun ≡ (view_of mutator.old).ticket }
    requires once { (view_of mutator.old).period < (view_of mutator.old).ticket }
    requires numbered { (view_of mutator.old).ticket ≡ seat.old.seat.me.0.taken }
    requires shared { HasShared (view_of mutator.old).who (view_of mutator.old).ticket (view_of mutator.old).run
        (view_of mutator.old).seen (view_of mutator.old).mine (view_of mutator.old).left ended early }
    requires still { (view_of mutator.old).visits ≡ 0 }
    ensures same { table_of mutator.new ≡ table_of mutator.old }
    ensures stopped { view_of mutator.new ≡ split_view (stopped_view (view_of mutator.old)) }
    ensures opens { open_count (view_of mutator.old).seen ≤ (view_of mutator.old).ticket }
    ensures seated { (seat.new.seat.table_id ≡ seat.old.seat.table_id) × (seat.new.place ≡ seat.old.place) }
    ensures named { seat.new.seat.me.0.name ≡ seat.old.seat.me.0.name }
    ensures posted { (seat.new.seat.me.0.given ≡ seat.old.seat.me.0.given + 1)
        × (seat.new.seat.me.0.taken ≡ seat.old.seat.me.0.taken) }
{
    let note = mutator.stop(&standing.heap);
    if ended {
        // A hint for who polls: the keeper's freeze waits for each note in any case.
        standing.wanted.store(true, Ordering::SeqCst);
    }
    seat.post_note(&standing.hands.shared, HandedIn { note, early }, ended);
}

impl Member {
    /// Whether its share of the part is over: its calls are used up, or the last one ended it. It may hand its note in
    /// then, and has to before its next call.
    pub fn is_over(&self) -> bool
        ensures is { result ≡ is_over self.now }
        ensures over { result ≡ true → (self.now.works ≡ true) × MayEnd self.now }
        ensures goes_on { result ≡ false → self.now.works ≡ true → MayMake self.now }
    {
        self.works && (self.left == 0 || self.ended)
    }

    /// Whether a freeze is wanted, as far as it can tell: since the last one, some member handed its note in after a
    /// call that asked for a cycle, or found no room a first time. Who has calls of its share left may come early then.
    /// One load.
    pub fn poll<S: HeapShapes>(&self, standing: &Standing<S>) -> bool {
        standing.wanted.load(Ordering::SeqCst)
    }

    /// Begins the part of a ticket.
    fn begin<S: HeapShapes>(&mut self, standing: &Standing<S>, ticket: Ticket)
        requires of { IsMemberOf standing.now.heap.key.layout standing.now.heap.table.shared.table_id
            standing.now.hands.shared.table_id self.old }
        requires stays { (view_of self.old.mutator).left ≡ false }
        requires parked { self.old.works ≡ false }
        requires owes { self.old.seat.seat.me.0.due ≡ true }
        requires ticket { IsTicketFor (record {
          layout = standing.now.heap.key.layout;
          table_id = standing.now.heap.table.shared.table_id;
        }) self.old.seat.seat.me.0.taken ticket }
        requires later { (view_of self.old.mutator).period < ticket.seat.me.0.period }
        ensures of { IsMemberOf standing.now.heap.key.layout standing.now.heap.table.shared.table_id
            standing.now.hands.shared.table_id self.new }
        ensures begun { (self.new.works ≡ true) × MayMake self.new }
        ensures same { caller_of self.new ≡ caller_of self.old }
        ensures seen { IsPrefix (view_of self.old.mutator).seen (view_of self.new.mutator).seen }
        ensures later { OpensLater standing.now.heap.key.layout (view_of self.old.mutator).seen
            (view_of self.new.mutator).seen }
        ensures seat { self.new.seat ≡ self.old.seat }
    {
        self.left = ticket.run();
        self.ended = false;
        self.works = true;
        self.mutator.begin(&standing.heap, ticket);
    }

    /// Begins its next part, where the ticket of it lies there.
    pub fn offer<S: HeapShapes>(&mut self, standing: &Standing<S>) -> Offered
        requires of { IsMemberOf standing.now.heap.key.layout standing.now.heap.table.shared.table_id
            standing.now.hands.shared.table_id self.old }
        requires stays { (view_of self.old.mutator).left ≡ false }
        requires parked { self.old.works ≡ false }
        ensures of { IsMemberOf standing.now.heap.key.layout standing.now.heap.table.shared.table_id
            standing.now.hands.shared.table_id self.new }
        ensures same { caller_of self.new ≡ caller_of self.old }
        ensures seen { IsPrefix (view_of self.old.mutator).seen (view_of self.new.mutator).seen }
        ensures given { self.new.seat.seat.me.0.given ≡ self.old.seat.seat.me.0.given }
        ensures begun { result ≡ offered.Begun → (self.new.works ≡ true) × MayMake self.new
            × (self.new.seat.seat.me.0.taken ≡ self.old.seat.seat.me.0.taken + 1) }
        ensures later { result ≡ offered.Begun → OpensLater standing.now.heap.key.layout (view_of self.old.mutator).seen
            (view_of self.new.mutator).seen }
        ensures not_yet { result ≢ offered.Begun → (self.new.works ≡ false) × (self.new.mutator ≡ self.old.mutator)
            × (self.new.seat.seat.me.0.taken ≡ self.old.seat.seat.me.0.taken) }
        ensures over { result ≡ offered.Over → self.new.seat.seat.me.0.over ≡ true }
        ensures waits { result ≡ offered.NotYet → self.new.seat.seat.me.0.over ≡ self.old.seat.seat.me.0.over }
    {
        match self.seat.take_ticket(&standing.hands.shared) {
            Found::Nothing => Offered::NotYet,
            Found::End => Offered::Over,
            Found::Ticket(ticket) => {
                self.begin(standing, ticket);
                Offered::Begun
            }
        }
    }

    /// Stops, where its share of the part is over, and posts its note. It wakes nobody.
    pub(crate) fn stop_over<S: HeapShapes>(&mut self, standing: &Standing<S>)
        requires of { IsMemberOf standing.now.heap.key.layout standing.now.heap.table.shared.table_id
            standing.now.hands.shared.table_id self.old }
        requires stays { (view_of self.old.mutator).left ≡ false }
        requires works { self.old.works ≡ true }
        requires over { MayEnd self.old }
        ensures of { IsMemberOf standing.now.heap.key.layout standing.now.heap.table.shared.table_id
            standing.now.hands.shared.table_id self.new }
        ensures rests { self.new.works ≡ false }
        ensures same { caller_of self.new ≡ caller_of self.old }
        ensures seen { (view_of self.new.mutator).seen ≡ (view_of self.old.mutator).seen }
        ensures posted { self.new.seat.seat.me.0.given ≡ self.old.seat.seat.me.0.given + 1 }
        ensures took { self.new.seat.seat.me.0.taken ≡ self.old.seat.seat.me.0.taken }
    {
        stop_and_post(
            &mut self.mutator,
            &mut self.seat,
            standing,
            self.ended,
            false,
        );
        self.works = false;
    }

    /// Stops with calls of its share left, and posts its note, which tells so. It wakes nobody.
    pub(crate) fn stop_early<S: HeapShapes>(&mut self, standing: &Standing<S>)
        requires of { IsMemberOf standing.now.heap.key.layout standing.now.heap.table.shared.table_id
            standing.now.hands.shared.table_id self.old }
        requires stays { (view_of self.old.mutator).left ≡ false }
        requires works { self.old.works ≡ true }
        requires left { MayMake self.old }
        ensures of { IsMemberOf standing.now.heap.key.layout standing.now.heap.table.shared.table_id
            standing.now.hands.shared.table_id self.new }
        ensures rests { self.new.works ≡ false }
        ensures same { caller_of self.new ≡ caller_of self.old }
        ensures seen { (view_of self.new.mutator).seen ≡ (view_of self.old.mutator).seen }
        ensures posted { self.new.seat.seat.me.0.given ≡ self.old.seat.seat.me.0.given + 1 }
        ensures took { self.new.seat.seat.me.0.taken ≡ self.old.seat.seat.me.0.taken }
    {
        stop_and_post(&mut self.mutator, &mut self.seat, standing, false, true);
        self.works = false;
    }

    /// Makes one more call of its part, which it is in the midst of. It waits for nobody, and takes no memory.
    pub fn make<S: ShapeTable, T: Turnstile>(
        &mut self,
        standing: &Standing<S>,
        op: Op,
        turnstile: &T,
    ) -> Reply
        requires of { IsMemberOf standing.now.heap.key.layout standing.now.heap.table.shared.table_id
            standing.now.hands.shared.table_id self.old }
        requires stays { (view_of self.old.mutator).left ≡ false }
        requires works { self.old.works ≡ true }
        requires may { MayMake self.old }
        requires fits { FitsLayout standing.now.heap.key.layout op }
        requires goes_on { op ≢ Retire }
        requires retries { Retries (view_of self.old.mutator) op }
        ensures of { IsMemberOf standing.now.heap.key.layout standing.now.heap.table.shared.table_id
            standing.now.hands.shared.table_id self.new }
        ensures makes { MakesCall standing.now.heap.key.layout (S.lists standing.now.heap.key.shapes)
            (view_of self.old.mutator).who op result (view_of self.old.mutator).seen (view_of self.new.mutator).seen
            (view_of self.old.mutator).mine (view_of self.new.mutator).mine }
        ensures works { self.new.works ≡ true }
        ensures over { StopsAfter result self.new }
        ensures stays { (view_of self.new.mutator).left ≡ false }
        ensures claims { is_of_claims op ≡ false →
            claims_of (view_of self.new.mutator) ≡ claims_of (view_of self.old.mutator) }
        ensures seat { self.new.seat ≡ self.old.seat }
    {
        let reply = self.mutator.call(&standing.heap, op, turnstile);
        self.left -= 1;
        self.retry = retry_after(self.retry, op, reply);
        self.ended = ends(reply, self.retry);
        reply
    }

    /// Retires with a call of its part, and hands its last note in. It waits for nobody and wakes nobody, and takes no
    /// memory. No call may be made after it. Where its keeper may wait, `rouse` follows.
    pub fn retire<S: ShapeTable, T: Turnstile>(&mut self, standing: &Standing<S>, turnstile: &T)
        requires of { IsMemberOf standing.now.heap.key.layout standing.now.heap.table.shared.table_id
            standing.now.hands.shared.table_id self.old }
        requires stays { (view_of self.old.mutator).left ≡ false }
        requires works { self.old.works ≡ true }
        requires may { MayMake self.old }
        requires bare { claims_of (view_of self.old.mutator) ≡ [] }
        requires settled { retry_of (view_of self.old.mutator).who (view_of self.old.mutator).mine ≡ None }
        ensures of { IsMemberOf standing.now.heap.key.layout standing.now.heap.table.shared.table_id
            standing.now.hands.shared.table_id self.new }
        ensures makes { MakesCall standing.now.heap.key.layout (S.lists standing.now.heap.key.shapes)
            (view_of self.old.mutator).who Retire IsDone (view_of self.old.mutator).seen
            (view_of self.new.mutator).seen (view_of self.old.mutator).mine (view_of self.new.mutator).mine }
        ensures rests { self.new.works ≡ false }
        ensures left { (view_of self.new.mutator).left ≡ true }
        ensures posted { self.new.seat.seat.me.0.given ≡ self.old.seat.seat.me.0.given + 1 }
        ensures took { self.new.seat.seat.me.0.taken ≡ self.old.seat.seat.me.0.taken }
    {
        self.mutator.retire(&standing.heap, turnstile);
        stop_and_post(&mut self.mutator, &mut self.seat, standing, false, false);
        self.works = false;
    }
}
