//! `Beds`: where members lie that rest, so that a keeper begins and stops in their place.
ghost use Rattle.std.specs.Prelude.{◌≡◌, IfErr, IfSome, false};
ghost use Rattle.tide_mutator.specs.calls.Viewed.{view_of};
ghost use Rattle.tide_server.specs.Members.{IsMemberOf};
ghost use Rattle.tide_server.specs.Rests.{IsRestingOf, LiesThere};

use crate::keeper::Keeper;
use crate::member::Member;
use crate::resting::Resting;
use crate::standing::Standing;
use std::alloc::Global;
use std::sync::{Condvar, Mutex, Wait};
use tide_model::Memory;
use tide_posts::HeapShapes;

/// A member that lies in a bed, with its heap.
#[derive(Drop)]
struct Lying<'h, S: HeapShapes> {
    standing: &'h Standing<S>,
    resting: Resting,
    ghost of: { LiesThere standing.now.heap.key.layout standing.now.heap.table.shared.table_id
        standing.now.hands.shared.table_id resting },
}

impl<'h, S: HeapShapes> Lying<'h, S> {
    /// Begins and stops in its place, where a ticket lies there.
    fn attend(&mut self) {
        self.resting.attend(self.standing);
    }
}

/// A member that has woken, with its heap.
#[derive(Drop)]
pub struct Woken<'h, S: HeapShapes> {
    pub standing: &'h Standing<S>,
    pub member: Member,
}

/// Beds in which members of one heap lie that rest, by their numbers. Threads share them by `&`.
#[derive(Drop)]
pub struct Beds<'h, S: HeapShapes> {
    beds: Mutex<Vec<Option<Lying<'h, S>>>>,
    /// Somebody has woken.
    woken: Condvar,
}

impl<'h, S: HeapShapes> Beds<'h, S> {
    /// So many beds, which are empty. It takes memory for them, and no other call does.
    pub fn new(alloc: Global, count: usize) -> Result<Beds<'h, S>, Memory> {
        let mut beds = Vec::new(alloc);
        for _ in 0..count {
            beds.push(None)?;
        }
        Ok(Beds {
            beds: Mutex::new(beds),
            woken: Condvar::new(),
        })
    }

    /// Lays a member that rests in the bed of its number. It comes back where there is no such bed, or another lies there.
    pub fn lay<R: Wait>(
        &self,
        rt: &R,
        standing: &'h Standing<S>,
        resting: Resting,
    ) -> Result<(), Resting>
        requires of { IsRestingOf standing.now.heap.key.layout standing.now.heap.table.shared.table_id
            standing.now.hands.shared.table_id resting }
        ensures back { IfErr result (λ same. same ≡ resting) }
    {
        let mut beds = self.beds.lock(rt);
        let Some(bed) = beds.get_mut(resting.number()) else {
            return Err(resting);
        };
        if bed.is_some() {
            return Err(resting);
        }
        let mut lying = Lying { standing, resting };
        // a ticket that was posted before it lay there is seen by nobody else
        lying.attend();
        *bed = Some(lying);
        Ok(())
    }

    /// The member that lies in the bed of this number wakes, where one does.
    pub fn wake<R: Wait>(&self, rt: &R, number: usize) -> Option<Woken<'h, S>>
        ensures of { IfSome result (λ woken. IsMemberOf woken.standing.now.heap.key.layout
            woken.standing.now.heap.table.shared.table_id woken.standing.now.hands.shared.table_id woken.member) }
        ensures stays { IfSome result (λ woken. (view_of woken.member.mutator).left ≡ false) }
        ensures parked { IfSome result (λ woken. woken.member.works ≡ false) }
        ensures who { IfSome result (λ woken. (view_of woken.member.mutator).who ≡ number) }
    {
        let mut beds = self.beds.lock(rt);
        let bed = beds.get_mut(number)?;
        if bed.as_ref()?.resting.number() != number {
            return None;
        }
        let Lying {
            standing,
            resting,
            ..
        } = bed.take()?;
        self.woken.notify_all();
        Some(Woken {
            standing,
            member: resting.wake(),
        })
    }
}

/// How many lie in these beds.
fn lie_there<S: HeapShapes>(beds: &[Option<Lying<'_, S>>]) -> usize {
    beds.iter().filter(|bed| bed.is_some()).count()
}

impl Keeper {
    /// How many mutators have not left for good, as far as notes tell that are in.
    fn active_count<S: HeapShapes>(&self, standing: &Standing<S>) -> usize {
        let mutators = usize::from(standing.heap.layout().mutators());
        self.left
            .iter()
            .take(mutators)
            .filter(|has_left| !**has_left)
            .count()
    }

    /// Begins and stops in the place of each that lies in a bed: so before each turn. Where all members lie there that
    /// have not left, it first waits until one of them has woken, maybe for ever.
    pub fn attend<R: Wait, S: HeapShapes>(
        &self,
        rt: &R,
        standing: &Standing<S>,
        beds: &Beds<'_, S>,
    ) {
        let active = self.active_count(standing);
        let all_lie = |beds: &mut Vec<Option<Lying<'_, S>>>| {
            let count = lie_there(beds);
            count > 0 && count >= active
        };
        let mut lying = beds.woken.wait_while(rt, beds.beds.lock(rt), all_lie);
        for bed in lying.iter_mut() {
            if let Some(one) = bed {
                one.attend();
            }
        }
    }
}
