//! The calls of a member that wait: each first begins the member's next part, where the member is in the midst of none,
//! or its share of that is over.
ghost use Rattle.std.specs.Prelude.{◌≡◌, ◌≢◌, ◌+◌, ◌<◌, [], false, true, IfOk, IsOk, None, if◌then◌else◌};
ghost use Rattle.tide_model.specs.Caller.{MakesCall};
ghost use Rattle.tide_model.specs.Lawful.{FitsLayout};
ghost use Rattle.tide_model.specs.Prefix.{IsPrefix};
ghost use Rattle.tide_model.specs.Script.{retry_of};
ghost use Rattle.tide_model.specs.declared.op.Op.TheVariants.{Retire};
ghost use Rattle.tide_model.specs.declared.op.Reply.TheVariants.{Done as IsDone};
ghost use Rattle.tide_mutator.specs.calls.Called.{is_of_claims};
ghost use Rattle.tide_mutator.specs.calls.Viewed.{view_of};
ghost use Rattle.tide_mutator.specs.owed.Standing.{claims_of};
ghost use Rattle.tide_posts.specs.Schedule.{OpensLater};
ghost use Rattle.tide_server.specs.Members.{IsMemberOf, MayMake, Retries, StopsAfter, begins_next, caller_of, is_over, last_part};

use crate::member::Member;
use crate::parts::Offered;
use crate::standing::Standing;
use std::sync::Wait;
use tide_model::{Memory, Op, Reply, Turnstile};
use tide_posts::HeapShapes;
use tide_shape::ShapeTable;

impl Member {
    /// Waits for its next ticket, and begins that part. It may wait for ever.
    fn begin_next<R: Wait, S: HeapShapes>(&mut self, rt: &R, standing: &Standing<S>)
        requires of { IsMemberOf standing.now.heap.key.layout standing.now.heap.table.shared.table_id
            standing.now.hands.shared.table_id self.old }
        requires stays { (view_of self.old.mutator).left ≡ false }
        requires parked { self.old.works ≡ false }
        ensures of { IsMemberOf standing.now.heap.key.layout standing.now.heap.table.shared.table_id
            standing.now.hands.shared.table_id self.new }
        ensures works { (self.new.works ≡ true) × MayMake self.new }
        ensures same { caller_of self.new ≡ caller_of self.old }
        ensures seen { IsPrefix (view_of self.old.mutator).seen (view_of self.new.mutator).seen }
        ensures later { OpensLater standing.now.heap.key.layout (view_of self.old.mutator).seen
            (view_of self.new.mutator).seen }
        ensures given { self.new.seat.seat.me.0.given ≡ self.old.seat.seat.me.0.given }
        ensures took { self.new.seat.seat.me.0.taken ≡ self.old.seat.seat.me.0.taken + 1 }
    {
        for _ in rt.forever() {
            match self.offer(standing) {
                Offered::Begun => return,
                Offered::NotYet => self.seat.wait_for_turn(rt, &standing.hands.shared),
                // A keeper posts ends to helpers alone.
                Offered::Over => self.seat.wait_at_end(rt, &standing.hands.shared),
            }
        }
        unreachable!()
    }

    /// Goes on with its part, or begins the next one, where it is in the midst of none, or its share of that is over. It
    /// may wait for ever.
    fn come_to_work<R: Wait, S: HeapShapes>(&mut self, rt: &R, standing: &Standing<S>)
        requires of { IsMemberOf standing.now.heap.key.layout standing.now.heap.table.shared.table_id
            standing.now.hands.shared.table_id self.old }
        requires stays { (view_of self.old.mutator).left ≡ false }
        ensures of { IsMemberOf standing.now.heap.key.layout standing.now.heap.table.shared.table_id
            standing.now.hands.shared.table_id self.new }
        ensures works { (self.new.works ≡ true) × MayMake self.new }
        ensures same { caller_of self.new ≡ caller_of self.old }
        ensures seen { IsPrefix (view_of self.old.mutator).seen (view_of self.new.mutator).seen }
        ensures later { begins_next self.old ≡ true → OpensLater standing.now.heap.key.layout (view_of self.old.mutator).seen
            (view_of self.new.mutator).seen }
        ensures posted { self.new.seat.seat.me.0.given
            ≡ self.old.seat.seat.me.0.given + (if is_over self.old then 1 else 0) }
        ensures took { self.new.seat.seat.me.0.taken
            ≡ self.old.seat.seat.me.0.taken + (if begins_next self.old then 1 else 0) }
    {
        if !self.works {
            self.begin_next(rt, standing);
            return;
        }
        if self.is_over() {
            self.hand_in(standing);
            self.begin_next(rt, standing);
        }
    }

    /// Makes a call. Where its share of the part is over, it first hands its note in; then, or where it is in the midst of
    /// no part, it waits for the next ticket, maybe for ever. It takes no memory.
    pub fn call<R: Wait, S: ShapeTable, T: Turnstile>(
        &mut self,
        rt: &R,
        standing: &Standing<S>,
        op: Op,
        turnstile: &T,
    ) -> Result<Reply, Memory>
        requires of { IsMemberOf standing.now.heap.key.layout standing.now.heap.table.shared.table_id
            standing.now.hands.shared.table_id self.old }
        requires stays { (view_of self.old.mutator).left ≡ false }
        requires fits { FitsLayout standing.now.heap.key.layout op }
        requires goes_on { op ≢ Retire }
        requires retries { Retries (view_of self.old.mutator) op }
        ensures served { IsOk result }
        ensures of { IsMemberOf standing.now.heap.key.layout standing.now.heap.table.shared.table_id
            standing.now.hands.shared.table_id self.new }
        ensures makes { IfOk result (λ reply. MakesCall standing.now.heap.key.layout
            (S.lists standing.now.heap.key.shapes) (view_of self.old.mutator).who op reply
            (view_of self.old.mutator).seen (view_of self.new.mutator).seen
            (view_of self.old.mutator).mine (view_of self.new.mutator).mine) }
        ensures later { begins_next self.old ≡ true → last_part self.old < last_part self.new }
        ensures periods { begins_next self.old ≡ true → OpensLater standing.now.heap.key.layout (view_of self.old.mutator).seen
            (view_of self.new.mutator).seen }
        ensures over { IfOk result (λ reply. StopsAfter reply self.new) }
        ensures stays { (view_of self.new.mutator).left ≡ false }
        ensures claims { is_of_claims op ≡ false →
            claims_of (view_of self.new.mutator) ≡ claims_of (view_of self.old.mutator) }
        ensures posted { self.new.seat.seat.me.0.given
            ≡ self.old.seat.seat.me.0.given + (if is_over self.old then 1 else 0) }
        ensures took { self.new.seat.seat.me.0.taken
            ≡ self.old.seat.seat.me.0.taken + (if begins_next self.old then 1 else 0) }
    {
        self.come_to_work(rt, standing);
        Ok(self.make(standing, op, turnstile))
    }

    /// Retires, and hands its last note in. Before that it begins a part where `call` does, and may wait for ever. No call
    /// may be made after it. It takes no memory.
    pub fn leave<R: Wait, S: ShapeTable, T: Turnstile>(
        &mut self,
        rt: &R,
        standing: &Standing<S>,
        turnstile: &T,
    ) -> Result<(), Memory>
        requires of { IsMemberOf standing.now.heap.key.layout standing.now.heap.table.shared.table_id
            standing.now.hands.shared.table_id self.old }
        requires stays { (view_of self.old.mutator).left ≡ false }
        requires bare { claims_of (view_of self.old.mutator) ≡ [] }
        requires settled { retry_of (view_of self.old.mutator).who (view_of self.old.mutator).mine ≡ None }
        ensures served { IsOk result }
        ensures of { IsMemberOf standing.now.heap.key.layout standing.now.heap.table.shared.table_id
            standing.now.hands.shared.table_id self.new }
        ensures makes { MakesCall standing.now.heap.key.layout (S.lists standing.now.heap.key.shapes)
            (view_of self.old.mutator).who Retire IsDone
            (view_of self.old.mutator).seen (view_of self.new.mutator).seen
            (view_of self.old.mutator).mine (view_of self.new.mutator).mine }
        ensures left { (view_of self.new.mutator).left ≡ true }
        ensures posted { self.new.seat.seat.me.0.given
            ≡ self.old.seat.seat.me.0.given + (if is_over self.old then 1 else 0) + 1 }
        ensures took { self.new.seat.seat.me.0.taken
            ≡ self.old.seat.seat.me.0.taken + (if begins_next self.old then 1 else 0) }
    {
        self.come_to_work(rt, standing);
        self.retire(standing, turnstile);
        self.rouse(standing);
        Ok(())
    }
}
