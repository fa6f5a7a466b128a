//! Members and helpers whose host waits in its own way: it tries again, and leaves the processor to others meanwhile.
ghost use Rattle.std.specs.Prelude.{◌≡◌, ◌≢◌, false, true};
ghost use Rattle.tide.specs.tide_model.Caller.{MakesCall};
ghost use Rattle.tide.specs.tide_model.Lawful.{FitsLayout};
ghost use Rattle.tide.specs.tide_model.Prefix.{IsPrefix};
ghost use Rattle.tide.specs.tide_model.declared.op.Op.TheVariants.{Retire};
ghost use Rattle.tide.specs.tide_mutator.calls.Called.{is_of_claims};
ghost use Rattle.tide.specs.tide_mutator.calls.Viewed.{view_of};
ghost use Rattle.tide.specs.tide_mutator.owed.Standing.{claims_of};
ghost use Rattle.tide.specs.tide_server.Helpers.{IsHelperOf};
ghost use Rattle.tide.specs.tide_server.Members.{IsMemberOf, MayMake, Retries, caller_of};
ghost use Rattle.tide.specs.tide_shape.Lists.{lists_of};

use std::sync::Wait;
use std::thread;
use tide::{Helper, Member, Offered, Op, Reply, Shapes, Standing, Turnstile, Worked};

/// Tries until a member may begin its next part, and begins that.
fn begin_next<R: Wait>(rt: &R, standing: &Standing<Shapes>, member: &mut Member)
    requires of { IsMemberOf standing.now.heap.key.layout standing.now.heap.table.shared.table_id
        standing.now.hands.shared.table_id member.old }
    requires stays { (view_of member.old.mutator).left ≡ false }
    requires parked { member.old.works ≡ false }
    ensures of { IsMemberOf standing.now.heap.key.layout standing.now.heap.table.shared.table_id
        standing.now.hands.shared.table_id member.new }
    ensures works { (member.new.works ≡ true) × MayMake member.new }
    ensures same { caller_of member.new ≡ caller_of member.old }
    ensures seen { IsPrefix (view_of member.old.mutator).seen (view_of member.new.mutator).seen }
{
    for _ in rt.forever() {
        if member.offer(standing) == Offered::Begun {
            return;
        }
        thread::yield_now();
    }
    unreachable!()
}

/// A member goes on with its part, or begins the next one, where its share of the last one is over.
pub fn come_to_work<R: Wait>(rt: &R, standing: &Standing<Shapes>, member: &mut Member)
    requires of { IsMemberOf standing.now.heap.key.layout standing.now.heap.table.shared.table_id
        standing.now.hands.shared.table_id member.old }
    requires stays { (view_of member.old.mutator).left ≡ false }
    ensures of { IsMemberOf standing.now.heap.key.layout standing.now.heap.table.shared.table_id
        standing.now.hands.shared.table_id member.new }
    ensures works { (member.new.works ≡ true) × MayMake member.new }
    ensures same { caller_of member.new ≡ caller_of member.old }
    ensures seen { IsPrefix (view_of member.old.mutator).seen (view_of member.new.mutator).seen }
{
    if !member.works() {
        begin_next(rt, standing, member);
        return;
    }
    if member.is_over() {
        member.hand_in(standing);
        begin_next(rt, standing, member);
    }
}

/// Makes a call.
pub fn call<R: Wait, T: Turnstile>(
    rt: &R,
    standing: &Standing<Shapes>,
    member: &mut Member,
    op: Op,
    turnstile: &T,
) -> Reply
    requires of { IsMemberOf standing.now.heap.key.layout standing.now.heap.table.shared.table_id
        standing.now.hands.shared.table_id member.old }
    requires stays { (view_of member.old.mutator).left ≡ false }
    requires fits { FitsLayout standing.now.heap.key.layout op }
    requires goes_on { op ≢ Retire }
    requires retries { Retries (view_of member.old.mutator) op }
    ensures of { IsMemberOf standing.now.heap.key.layout standing.now.heap.table.shared.table_id
        standing.now.hands.shared.table_id member.new }
    ensures makes { MakesCall standing.now.heap.key.layout (lists_of standing.now.heap.key.shapes)
        (view_of member.old.mutator).who op result (view_of member.old.mutator).seen
        (view_of member.new.mutator).seen (view_of member.old.mutator).mine (view_of member.new.mutator).mine }
    ensures stays { (view_of member.new.mutator).left ≡ false }
    ensures claims { is_of_claims op ≡ false →
        claims_of (view_of member.new.mutator) ≡ claims_of (view_of member.old.mutator) }
{
    come_to_work(rt, standing, member);
    member.make(standing, op, turnstile)
}

/// A helper takes part in its next part, or finds the end.
pub fn work<R: Wait, T: Turnstile>(
    rt: &R,
    standing: &Standing<Shapes>,
    helper: &mut Helper,
    turnstile: &T,
) -> Worked
    requires of { IsHelperOf standing.now.heap.key.layout standing.now.heap.table.shared.table_id
        standing.now.hands.shared.table_id helper.old }
    ensures of { IsHelperOf standing.now.heap.key.layout standing.now.heap.table.shared.table_id
        standing.now.hands.shared.table_id helper.new }
{
    for _ in rt.forever() {
        if let Some(worked) = helper.try_work(standing, turnstile) {
            return worked;
        }
        thread::yield_now();
    }
    unreachable!()
}
