//! Members that rest in beds: the keeper begins and stops in the place of each that lies there.
ghost use Rattle.embed_standing.specs.Playing.{HasRoomForScripts, MayCall};
ghost use Rattle.std.specs.Prelude.{◌≡◌, [], IfSome, None, true};
ghost use Rattle.tide.specs.tide_model.Script.{retry_of};
ghost use Rattle.tide.specs.tide_mutator.calls.Viewed.{view_of};
ghost use Rattle.tide.specs.tide_mutator.owed.Standing.{claims_of};

use crate::cells::{finds_cell, make_cell};
use crate::row::Row;
use crate::tally::Tally;
use std::marker::Sync;
use std::sync::Wait;
use std::thread::{Threads, join, yield_now};
use tide::{Beds, Layout, Member, Memory, Reply, Shapes, Standing, Woken};

/// Whether a member claims no cell and has nothing to try again.
fn is_settled(member: &Member) -> bool
    ensures bare { result ≡ true → claims_of (view_of member.now.mutator) ≡ [] }
    ensures settled { result ≡ true →
        retry_of (view_of member.now.mutator).who (view_of member.now.mutator).mine ≡ None }
{
    member.claims() == 0 && !member.retries()
}

/// Whether a layout has as many registers and strong handles as the scripts name.
fn has_room_for_scripts(layout: &Layout) -> bool
    ensures { result ≡ true → HasRoomForScripts layout.now }
{
    layout.registers() >= 4 && layout.strong() >= 2
}

/// The member that lies in the bed of this number wakes, and may make any call of a script. `None` where it may not, or
/// none lies there.
fn wake<'h, R: Wait>(rt: &R, beds: &Beds<'h, Shapes>, number: usize) -> Option<Woken<'h, Shapes>>
    ensures may { IfSome result (λ woken. MayCall woken.standing.now.heap.key.layout
        woken.standing.now.heap.table.shared.table_id woken.standing.now.hands.shared.table_id woken.member) }
    ensures room { IfSome result (λ woken. HasRoomForScripts woken.standing.now.heap.key.layout) }
{
    let woken = beds.wake(rt, number)?;
    if !is_settled(&woken.member) {
        return None;
    }
    if !has_room_for_scripts(woken.standing.layout()) {
        return None;
    }
    Some(woken)
}

/// A member makes a cell and rests, and lies down in its bed with it once the keeper has gone round the beds so often.
/// Answers what its call was answered.
fn lie_down_with_a_cell<'h, R: Wait>(
    rt: &R,
    standing: &'h Standing<Shapes>,
    beds: &Beds<'h, Shapes>,
    mut member: Member,
    rounds: u64,
    tally: &Tally,
) -> Result<Reply, Memory>
    requires may { MayCall standing.now.heap.key.layout standing.now.heap.table.shared.table_id
        standing.now.hands.shared.table_id member }
    requires room { HasRoomForScripts standing.now.heap.key.layout }
{
    let born = make_cell(rt, standing, &mut member, tally)?;
    let resting = member.rest(standing);
    tally.await_rounds(rt, rounds);
    if beds.lay(rt, standing, resting).is_err() {
        tally.add_wrong();
    }
    Ok(born)
}

/// The member in the bed of this number wakes, looks for its cell, and leaves. Says whether it found it.
fn wake_and_leave<R: Wait>(
    rt: &R,
    beds: &Beds<'_, Shapes>,
    number: usize,
    born: Reply,
    tally: &Tally,
) -> Result<bool, Memory> {
    let Some(woken) = wake(rt, beds, number) else {
        return Ok(false);
    };
    let Woken {
        standing,
        mut member,
    } = woken;
    let is_found = finds_cell(rt, standing, &mut member, born, tally)?;
    member.leave(rt, standing, tally)?;
    Ok(is_found)
}

/// Lies down with a cell, behind so many rounds of the keeper, until the others have left. Then it finds it and leaves.
/// Says whether it found it.
pub fn lie_until_the_others_left<'h, R: Wait>(
    rt: &R,
    standing: &'h Standing<Shapes>,
    beds: &Beds<'h, Shapes>,
    member: Member,
    rounds: u64,
    row: &Row,
    tally: &Tally,
) -> Result<bool, Memory>
    requires may { MayCall standing.now.heap.key.layout standing.now.heap.table.shared.table_id
        standing.now.hands.shared.table_id member }
    requires room { HasRoomForScripts standing.now.heap.key.layout }
{
    let number = member.number();
    let born = lie_down_with_a_cell(rt, standing, beds, member, rounds, tally)?;
    tally.await_left(rt, u64::from(row.members).saturating_sub(1));
    wake_and_leave(rt, beds, number, born, tally)
}

/// Lies down with a cell on a thread that ends then. For fifty parts it lies there; then this thread takes it from its
/// bed, finds the cell and leaves. Says whether it found it.
pub fn lie_from_thread_to_thread<'h, R: Threads + Wait + Sync>(
    rt: &R,
    standing: &'h Standing<Shapes>,
    beds: &Beds<'h, Shapes>,
    member: Member,
    tally: &Tally,
) -> Result<bool, Memory>
    requires may { MayCall standing.now.heap.key.layout standing.now.heap.table.shared.table_id
        standing.now.hands.shared.table_id member }
    requires room { HasRoomForScripts standing.now.heap.key.layout }
{
    let number = member.number();
    let (born, ()) = join(
        rt,
        || -> Result<Reply, Memory>
            requires { HasRoomForScripts standing.now.heap.key.layout
                × MayCall standing.now.heap.key.layout standing.now.heap.table.shared.table_id
                standing.now.hands.shared.table_id member }
        { lie_down_with_a_cell(rt, standing, beds, member, 0, tally) },
        || {},
    );
    tally.await_parts(rt, 50);
    wake_and_leave(rt, beds, number, born?, tally)
}

/// Lies there for a while. Every eighth time it first waits until all members have lain down as often, so that all lie
/// there at once.
fn stay_a_while<R: Wait>(rt: &R, time: u32, row: &Row, tally: &Tally) {
    tally.add_lain();
    if time % 8 == 0 {
        let all = u64::from(row.members).saturating_mul(u64::from(time));
        tally.await_lain(rt, all);
    }
    for _ in 0..50 {
        yield_now();
    }
}

/// Makes cells, rests in its bed for a while after each, and then finds it; at last it leaves. Says whether it found
/// all.
pub fn rest_by_turns<'h, R: Wait>(
    rt: &R,
    standing: &'h Standing<Shapes>,
    beds: &Beds<'h, Shapes>,
    member: Member,
    row: &Row,
    tally: &Tally,
) -> Result<bool, Memory>
    requires may { MayCall standing.now.heap.key.layout standing.now.heap.table.shared.table_id
        standing.now.hands.shared.table_id member }
    requires room { HasRoomForScripts standing.now.heap.key.layout }
{
    let number = member.number();
    let mut is_right = true;
    let mut at = standing;
    let mut awake = member;
    for n in 0..row.calls {
        let born = lie_down_with_a_cell(rt, at, beds, awake, 0, tally)?;
        stay_a_while(rt, n + 1, row, tally);
        let Some(woken) = wake(rt, beds, number) else {
            return Ok(false);
        };
        at = woken.standing;
        awake = woken.member;
        let is_found = finds_cell(rt, at, &mut awake, born, tally)?;
        is_right = is_right && is_found;
    }
    awake.leave(rt, at, tally)?;
    Ok(is_right)
}
