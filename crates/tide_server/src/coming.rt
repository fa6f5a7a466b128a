//! A member hands its note in and wakes its keeper. It waits for nobody.
ghost use Rattle.std.specs.Prelude.{◌≡◌, ◌+◌, false, true};
ghost use Rattle.tide_mutator.specs.calls.Viewed.{view_of};
ghost use Rattle.tide_server.specs.Members.{IsMemberOf, MayEnd, MayMake, caller_of};

use crate::member::Member;
use crate::standing::Standing;
use tide_posts::HeapShapes;

impl Member {
    /// Wakes the keeper, if it waits for its note.
    pub fn rouse<S: HeapShapes>(&self, standing: &Standing<S>)
        requires of { IsMemberOf standing.now.heap.key.layout standing.now.heap.table.shared.table_id
            standing.now.hands.shared.table_id self.now }
    {
        self.seat.rouse(&standing.hands.shared);
    }

    /// Stops, where its share of the part is over, and posts its note.
    pub fn hand_in<S: HeapShapes>(&mut self, standing: &Standing<S>)
        requires of { IsMemberOf standing.now.heap.key.layout standing.now.heap.table.shared.table_id
            standing.now.hands.shared.table_id self.old }
        requires stays { (view_of self.old.mutator).left ≡ false }
        requires works { self.old.works ≡ true }
        requires over { MayEnd self.old }
        ensures of { IsMemberOf standing.now.heap.key.layout standing.now.heap.table.shared.table_id
            standing.now.hands.shared.table_id self.new }
        ensures rests { self.new.works ≡ false }
        ensures same { caller_of self.new ≡ caller_of self.old }
        ensures seen { (view_of self.new.mutator).seen ≡ (view_of self.old.mutator).seen }
        ensures posted { self.new.seat.seat.me.0.given ≡ self.old.seat.seat.me.0.given + 1 }
        ensures took { self.new.seat.seat.me.0.taken ≡ self.old.seat.seat.me.0.taken }
    {
        self.stop_over(standing);
        self.rouse(standing);
    }

    /// Comes early to a freeze: it stops with calls of its share left, and posts its note, which tells so.
    pub fn come_early<S: HeapShapes>(&mut self, standing: &Standing<S>)
        requires of { IsMemberOf standing.now.heap.key.layout standing.now.heap.table.shared.table_id
            standing.now.hands.shared.table_id self.old }
        requires stays { (view_of self.old.mutator).left ≡ false }
        requires works { self.old.works ≡ true }
        requires left { MayMake self.old }
        ensures of { IsMemberOf standing.now.heap.key.layout standing.now.heap.table.shared.table_id
            standing.now.hands.shared.table_id self.new }
        ensures rests { self.new.works ≡ false }
        ensures same { caller_of self.new ≡ caller_of self.old }
        ensures seen { (view_of self.new.mutator).seen ≡ (view_of self.old.mutator).seen }
        ensures posted { self.new.seat.seat.me.0.given ≡ self.old.seat.seat.me.0.given + 1 }
        ensures took { self.new.seat.seat.me.0.taken ≡ self.old.seat.seat.me.0.taken }
    {
        self.stop_early(standing);
        self.rouse(standing);
    }
}
