//! A member makes a call: it comes to a freeze where one is wanted, and tries again what found no room.
ghost use Rattle.std.specs.Prelude.{◌≡◌, ◌≢◌, false, true};
ghost use Rattle.tide.specs.Asking.{Asks, MayCall, past_of};
ghost use Rattle.tide_server.specs.tide_model.Caller.{MakesCall};
ghost use Rattle.tide_server.specs.tide_model.Lawful.{FitsLayout};
ghost use Rattle.tide_server.specs.tide_model.declared.op.Op.TheVariants.{Retire};
ghost use Rattle.tide_server.specs.tide_mutator.calls.Called.{is_of_claims};
ghost use Rattle.tide_server.specs.tide_mutator.calls.Viewed.{view_of};
ghost use Rattle.tide_server.specs.tide_mutator.owed.Standing.{claims_of};
ghost use Rattle.tide_server.specs.Members.{IsMemberOf, Retries, StopsAfter, begins_next, caller_of, is_over};
ghost use Rattle.tide_server.specs.tide_model.Share.{is_asked};
ghost use Rattle.tide_server.specs.tide_posts.Schedule.{OpensLater};
ghost use Rattle.tide_server.specs.tide_shape.Lists.{lists_of};

use std::sync::Wait;
use tide_server::{FreePass, Member, Op, Reply, Shapes, Standing};

/// Comes early to a freeze, where one is wanted and the member has calls of its part left.
fn come_where_wanted(standing: &Standing<Shapes>, member: &mut Member)
    requires of { IsMemberOf standing.now.heap.key.layout standing.now.heap.table.shared.table_id
        standing.now.hands.shared.table_id member.old }
    requires stays { (view_of member.old.mutator).left ≡ false }
    ensures of { IsMemberOf standing.now.heap.key.layout standing.now.heap.table.shared.table_id
        standing.now.hands.shared.table_id member.new }
    ensures same { caller_of member.new ≡ caller_of member.old }
    ensures seen { (view_of member.new.mutator).seen ≡ (view_of member.old.mutator).seen }
    ensures next { begins_next member.old ≡ true → begins_next member.new ≡ true }
{
    if member.works() && !member.is_over() && member.poll(standing) {
        member.come_early(standing);
    }
}

/// Makes a call. First it comes to a freeze where one is wanted.
fn make<R: Wait>(rt: &R, standing: &Standing<Shapes>, member: &mut Member, op: Op) -> Reply
    requires of { IsMemberOf standing.now.heap.key.layout standing.now.heap.table.shared.table_id
        standing.now.hands.shared.table_id member.old }
    requires stays { (view_of member.old.mutator).left ≡ false }
    requires fits { FitsLayout standing.now.heap.key.layout op }
    requires goes_on { op ≢ Retire }
    requires retries { Retries (view_of member.old.mutator) op }
    ensures of { IsMemberOf standing.now.heap.key.layout standing.now.heap.table.shared.table_id
        standing.now.hands.shared.table_id member.new }
    ensures makes { MakesCall standing.now.heap.key.layout (lists_of standing.now.heap.key.shapes)
        (view_of member.old.mutator).who op result (view_of member.old.mutator).seen (view_of member.new.mutator).seen
        (view_of member.old.mutator).mine (view_of member.new.mutator).mine }
    ensures later { begins_next member.old ≡ true → OpensLater standing.now.heap.key.layout
        (view_of member.old.mutator).seen (view_of member.new.mutator).seen }
    ensures over { StopsAfter result member.new }
    ensures stays { (view_of member.new.mutator).left ≡ false }
    ensures claims { is_of_claims op ≡ false →
        claims_of (view_of member.new.mutator) ≡ claims_of (view_of member.old.mutator) }
{
    come_where_wanted(standing, member);
    match member.call(rt, standing, op, &FreePass) {
        Ok(reply) => reply,
        Err(_) => unreachable!(),
    }
}

/// Makes a call, and once more where it was refused for room. That is in a later part, behind a full cycle.
pub(crate) fn ask<R: Wait>(
    rt: &R,
    standing: &Standing<Shapes>,
    member: &mut Member,
    op: Op,
) -> Reply
    requires may { MayCall standing.now.heap.key.layout standing.now.heap.table.shared.table_id
        standing.now.hands.shared.table_id member.old }
    requires fits { FitsLayout standing.now.heap.key.layout op }
    requires goes_on { op ≢ Retire }
    ensures may { MayCall standing.now.heap.key.layout standing.now.heap.table.shared.table_id
        standing.now.hands.shared.table_id member.new }
    ensures asks { Asks standing.now.heap.key.layout (lists_of standing.now.heap.key.shapes)
        (view_of member.old.mutator).who op result (past_of member.old) (past_of member.new) }
    ensures later { begins_next member.old ≡ true → OpensLater standing.now.heap.key.layout
        (view_of member.old.mutator).seen (view_of member.new.mutator).seen }
    ensures over { is_asked result ≡ true → is_over member.new ≡ true }
    ensures who { (view_of member.new.mutator).who ≡ (view_of member.old.mutator).who }
    ensures claims { is_of_claims op ≡ false →
        claims_of (view_of member.new.mutator) ≡ claims_of (view_of member.old.mutator) }
{
    let reply = make(rt, standing, member, op);
    if !member.retries() {
        return reply;
    }
    make(rt, standing, member, op)
}

/// Gives up each claim that a member has, and leaves. It may wait for ever.
pub(crate) fn leave<R: Wait>(rt: &R, standing: &Standing<Shapes>, member: &mut Member)
    requires may { MayCall standing.now.heap.key.layout standing.now.heap.table.shared.table_id
        standing.now.hands.shared.table_id member.old }
    ensures left { (view_of member.new.mutator).left ≡ true }
{
    for _ in rt.forever() {
        if member.claims() == 0 {
            drop(member.leave(rt, standing, &FreePass));
            return;
        }
        ask(rt, standing, member, Op::Unclaim);
    }
    unreachable!()
}
