//! `Own`: a member that may make any call, with its heap.
ghost use Rattle.std.specs.Prelude.{◌≡◌, ◌≢◌, None, false, true};
ghost use Rattle.tide.specs.Asking.{Asks, IsSettledOf, MayCall, StandsIn, past_of};
ghost use Rattle.tide_server.specs.Members.{begins_next, is_over};
ghost use Rattle.tide_server.specs.Rests.{IsRestingOf};
ghost use Rattle.tide_server.specs.tide_model.Share.{is_asked};
ghost use Rattle.tide_server.specs.tide_model.Lawful.{FitsLayout};
ghost use Rattle.tide_server.specs.tide_model.Script.{retry_of};
ghost use Rattle.tide_server.specs.tide_model.declared.op.Op.TheVariants.{Retire};
ghost use Rattle.tide_server.specs.tide_mutator.calls.Viewed.{view_of};
ghost use Rattle.tide_server.specs.tide_posts.Schedule.{OpensLater};
ghost use Rattle.tide_server.specs.tide_shape.Lists.{lists_of};

use crate::asking::{ask, leave};
use std::sync::Wait;
use tide_server::{Layout, Member, Op, Reply, Resting, Shapes, Standing, fits};

/// A member that may make any call, with its heap.
#[derive(Drop)]
pub(crate) struct Own<'h> {
    pub(crate) standing: &'h Standing<Shapes>,
    pub(crate) member: Member,
    ghost of: { IsSettledOf standing.now.heap.key.layout standing.now.heap.table.shared.table_id
        standing.now.hands.shared.table_id member },
    ghost stands: { ∥ StandsIn member ∥₁ },
}

impl<'h> Own<'h> {
    pub(crate) fn new(standing: &'h Standing<Shapes>, member: Member) -> Own<'h>
        requires may { MayCall standing.now.heap.key.layout standing.now.heap.table.shared.table_id
            standing.now.hands.shared.table_id member }
        ensures heap { result.standing ≡ standing.entry }
        ensures member { result.member ≡ member }
    {
        Own { standing, member }
    }

    pub(crate) fn number(&self) -> usize
        ensures { result ≡ (view_of self.now.member.mutator).who }
    {
        self.member.number()
    }

    pub(crate) fn layout(&self) -> &Layout
        ensures { result.now ≡ self.now.standing.now.heap.key.layout }
    {
        self.standing.layout()
    }

    /// Whether it may make such a call: its operands are of its heap, and it isn't the last one.
    pub(crate) fn takes(&self, op: Op) -> bool
        ensures takes { result ≡ true → FitsLayout self.now.standing.now.heap.key.layout op × (op ≢ Retire) }
        ensures other { result ≡ false → ¬ (FitsLayout self.now.standing.now.heap.key.layout op × (op ≢ Retire)) }
    {
        op != Op::Retire && fits(self.standing.layout(), op)
    }

    /// Makes a call, and once more where it was refused for room.
    pub(crate) fn ask<R: Wait>(&mut self, rt: &R, op: Op) -> Reply
        requires fits { FitsLayout self.old.standing.now.heap.key.layout op }
        requires goes_on { op ≢ Retire }
        ensures heap { self.new.standing ≡ self.old.standing }
        ensures asks { Asks self.old.standing.now.heap.key.layout (lists_of self.old.standing.now.heap.key.shapes)
            (view_of self.old.member.mutator).who op result (past_of self.old.member) (past_of self.new.member) }
        ensures later { begins_next self.old.member ≡ true → OpensLater self.old.standing.now.heap.key.layout
            (view_of self.old.member.mutator).seen (view_of self.new.member.mutator).seen }
        ensures over { is_asked result ≡ true → is_over self.new.member ≡ true }
        ensures who { (view_of self.new.member.mutator).who ≡ (view_of self.old.member.mutator).who }
    {
        ask(rt, self.standing, &mut self.member, op)
    }

    /// Gives up each claim that it has, and leaves.
    pub(crate) fn leave<R: Wait>(self, rt: &R) {
        let Own {
            standing,
            mut member,
            ..
        } = self;
        leave(rt, standing, &mut member);
    }

    /// Comes to rest.
    pub(crate) fn rest(self) -> (&'h Standing<Shapes>, Resting)
        ensures heap { result.0 ≡ self.entry.standing }
        ensures rests { IsRestingOf self.entry.standing.now.heap.key.layout
            self.entry.standing.now.heap.table.shared.table_id self.entry.standing.now.hands.shared.table_id result.1 }
        ensures who { (view_of result.1.member.mutator).who ≡ (view_of self.entry.member.mutator).who }
        ensures settled { retry_of (view_of result.1.member.mutator).who (view_of result.1.member.mutator).mine ≡ None }
    {
        let Own {
            standing,
            member,
            ..
        } = self;
        (standing, member.rest(standing))
    }
}
