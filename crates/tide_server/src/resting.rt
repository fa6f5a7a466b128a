//! `Resting`: a member that rests. It makes no call.
ghost use Rattle.std.specs.Prelude.{◌≡◌, false};
ghost use Rattle.tide_mutator.specs.calls.Viewed.{view_of};

use crate::member::Member;

/// A member that rests: one whose thread is about to wait for something else, or to end. Its registers and its claims
/// stay roots. It may go to another thread.
#[derive(Drop)]
pub struct Resting {
    pub(crate) member: Member,
    ghost parked: { member.works ≡ false },
}

impl Resting {
    /// A member that has begun no part rests.
    pub(crate) fn new(member: Member) -> Resting
        requires parked { member.works ≡ false }
        ensures { result.member ≡ member }
    {
        Resting { member }
    }

    /// The number of its mutator, which counts from 0.
    pub fn number(&self) -> usize
        ensures { result ≡ (view_of self.now.member.mutator).who }
    {
        self.member.number()
    }

    /// Its member wakes, and is as it was when it came to rest, but for what it has seen.
    pub fn wake(self) -> Member
        ensures same { result ≡ self.member }
        ensures parked { result.works ≡ false }
    {
        let Resting { member, .. } = self;
        member
    }
}
