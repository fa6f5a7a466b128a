//! A member comes to rest, and who has it then begins and stops in its place. It waits for nobody.
ghost use Rattle.std.specs.Prelude.{◌≡◌, ◌+◌, false, true, if◌then◌else◌};
ghost use Rattle.tide_model.specs.Prefix.{IsPrefix};
ghost use Rattle.tide_mutator.specs.calls.Viewed.{view_of};
ghost use Rattle.tide_server.specs.Members.{IsMemberOf, caller_of};
ghost use Rattle.tide_server.specs.Rests.{IsRestingOf};

use crate::member::Member;
use crate::parts::Offered;
use crate::resting::Resting;
use crate::standing::Standing;
use tide_posts::HeapShapes;

impl Member {
    /// Stops in the midst of its part, and posts its note, which tells whether calls of its share are left. It waits for
    /// nobody and wakes nobody: where its keeper may wait, `rouse` follows.
    pub fn break_off<S: HeapShapes>(&mut self, standing: &Standing<S>)
        requires of { IsMemberOf standing.now.heap.key.layout standing.now.heap.table.shared.table_id
            standing.now.hands.shared.table_id self.old }
        requires stays { (view_of self.old.mutator).left ≡ false }
        requires works { self.old.works ≡ true }
        ensures of { IsMemberOf standing.now.heap.key.layout standing.now.heap.table.shared.table_id
            standing.now.hands.shared.table_id self.new }
        ensures rests { self.new.works ≡ false }
        ensures same { caller_of self.new ≡ caller_of self.old }
        ensures seen { (view_of self.new.mutator).seen ≡ (view_of self.old.mutator).seen }
        ensures posted { self.new.seat.seat.me.0.given ≡ self.old.seat.seat.me.0.given + 1 }
        ensures took { self.new.seat.seat.me.0.taken ≡ self.old.seat.seat.me.0.taken }
    {
        if self.is_over() {
            self.stop_over(standing);
            return;
        }
        self.stop_early(standing);
    }

    /// Rests. In the midst of a part it hands its note in before, with calls of its share left or not.
    pub fn rest<S: HeapShapes>(self, standing: &Standing<S>) -> Resting
        requires of { IsMemberOf standing.now.heap.key.layout standing.now.heap.table.shared.table_id
            standing.now.hands.shared.table_id self }
        requires stays { (view_of self.mutator).left ≡ false }
        ensures of { IsRestingOf standing.now.heap.key.layout standing.now.heap.table.shared.table_id
            standing.now.hands.shared.table_id result }
        ensures same { caller_of result.member ≡ caller_of self }
        ensures seen { (view_of result.member.mutator).seen ≡ (view_of self.mutator).seen }
        ensures posted { result.member.seat.seat.me.0.given
            ≡ self.seat.seat.me.0.given + (if self.works then 1 else 0) }
        ensures took { result.member.seat.seat.me.0.taken ≡ self.seat.seat.me.0.taken }
    {
        let mut member = self;
        if !member.works {
            return Resting::new(member);
        }
        member.break_off(standing);
        member.rouse(standing);
        Resting::new(member)
    }
}

impl Resting {
    /// Begins the next part in its place, where the ticket of it lies there, and hands its note in, with all calls of
    /// its share left. Says whether it did. Who has it calls this at once, since a ticket may lie there already, and
    /// then before each turn of the keeper.
    pub fn attend<S: HeapShapes>(&mut self, standing: &Standing<S>) -> bool
        requires of { IsRestingOf standing.now.heap.key.layout standing.now.heap.table.shared.table_id
            standing.now.hands.shared.table_id self.old }
        ensures of { IsRestingOf standing.now.heap.key.layout standing.now.heap.table.shared.table_id
            standing.now.hands.shared.table_id self.new }
        ensures same { caller_of self.new.member ≡ caller_of self.old.member }
        ensures seen { IsPrefix (view_of self.old.member.mutator).seen (view_of self.new.member.mutator).seen }
        ensures posted { self.new.member.seat.seat.me.0.given
            ≡ self.old.member.seat.seat.me.0.given + (if result then 1 else 0) }
        ensures took { self.new.member.seat.seat.me.0.taken
            ≡ self.old.member.seat.seat.me.0.taken + (if result then 1 else 0) }
    {
        // An end is posted to helpers alone.
        let Offered::Begun = self.member.offer(standing) else {
            return false;
        };
        self.member.come_early(standing);
        true
    }
}
