//! A member that sleeps in a bed, while its thread waits for something else.
ghost use Rattle.embed_standing.specs.Playing.{MayCall};
ghost use Rattle.std.specs.Prelude.{◌≡◌, false};
ghost use Rattle.tide.specs.tide_mutator.calls.Viewed.{view_of};
ghost use Rattle.tide.specs.tide_server.Members.{IsMemberOf};

use crate::sleeper::working::{Told, ask, finds};
use std::sync::Wait;
use std::sync::atomic::Ordering;
use std::thread::yield_now;
use tide::{Beds, FreePass, Member, Op, Reply, Shapes, Standing};

/// Waits for something else, as in the system: here until the three that work have left.
fn wait_in_the_system<R: Wait>(rt: &R, told: &Told) {
    for _ in rt.forever() {
        if told.left.load(Ordering::SeqCst) == 3 {
            return;
        }
        yield_now();
    }
}

/// A member that has woken looks for its cell, and leaves. That it may, its type doesn't say.
fn look<R: Wait>(
    rt: &R,
    standing: &Standing<Shapes>,
    member: &mut Member,
    born: Option<Reply>,
    told: &Told,
)
    requires of { IsMemberOf standing.now.heap.key.layout standing.now.heap.table.shared.table_id
        standing.now.hands.shared.table_id member.old }
    requires stays { (view_of member.old.mutator).left ≡ false }
{
    if member.retries() || member.claims() > 0 {
        return;
    }
    let is_there = finds(rt, standing, member, born);
    if member.leave(rt, standing, &FreePass).is_ok() && is_there {
        told.found.fetch_add(1, Ordering::SeqCst);
    }
}

/// Makes a cell, and sleeps with it in a register for as long as it waits in the system. Then it looks for that cell.
pub(crate) fn sleep<'h, R: Wait>(
    rt: &R,
    standing: &'h Standing<Shapes>,
    beds: &Beds<'h, Shapes>,
    mut member: Member,
    told: &Told,
)
    requires may { MayCall standing.now.heap.key.layout standing.now.heap.table.shared.table_id
        standing.now.hands.shared.table_id member }
{
    let born = ask(rt, standing, &mut member, Op::Alloc { dst: 0, class: 0 });
    let number = member.number();
    if let Err(resting) = beds.lay(rt, standing, member.rest(standing)) {
        // no bed has its number: it stays awake
        look(rt, standing, &mut resting.wake(), born, told);
        return;
    }
    wait_in_the_system(rt, told);
    let Some(mut woken) = beds.wake(rt, number) else {
        return;
    };
    look(rt, woken.standing, &mut woken.member, born, told);
}
