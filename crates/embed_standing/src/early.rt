//! A member that comes early to freezes which another one wants.
ghost use Rattle.embed_standing.specs.Playing.{HasRoomForScripts, MayCall};

use crate::playing::ask_next;
use crate::row::Row;
use crate::tally::Tally;
use std::sync::Wait;
use std::thread::yield_now;
use tide::{Member, Memory, Shapes, Standing};

/// How often a member polls for a freeze at most. In each turn the processor is left to others.
const TURNS: u32 = 10_000_000;

/// Polls until a freeze is wanted, and comes early to it. Says whether it did.
fn comes_early(standing: &Standing<Shapes>, member: &mut Member) -> bool
    requires may { MayCall standing.now.heap.key.layout standing.now.heap.table.shared.table_id
        standing.now.hands.shared.table_id member.old }
    ensures may { MayCall standing.now.heap.key.layout standing.now.heap.table.shared.table_id
        standing.now.hands.shared.table_id member.new }
{
    for _ in 0..TURNS {
        if member.poll(standing) {
            if !member.works() || member.is_over() {
                return false;
            }
            member.come_early(standing);
            return true;
        }
        yield_now();
    }
    false
}

/// Makes its calls, comes early to a freeze after each, and leaves. Says whether each was answered as the script has
/// it, and each freeze was wanted.
pub fn come_early_after_each<R: Wait>(
    rt: &R,
    standing: &Standing<Shapes>,
    member: &mut Member,
    who: usize,
    row: &Row,
    tally: &Tally,
) -> Result<bool, Memory>
    requires may { MayCall standing.now.heap.key.layout standing.now.heap.table.shared.table_id
        standing.now.hands.shared.table_id member.old }
    requires room { HasRoomForScripts standing.now.heap.key.layout }
{
    let mut is_right = true;
    for n in 0..row.calls_of(who) {
        let is_answered = ask_next(rt, standing, member, who, n, row, tally)?;
        is_right = is_right && is_answered && comes_early(standing, member);
    }
    member.leave(rt, standing, tally)?;
    Ok(is_right)
}

/// Makes calls until another member has left, and leaves. Says whether each was answered as the script has it.
pub fn call_until_one_left<R: Wait>(
    rt: &R,
    standing: &Standing<Shapes>,
    member: &mut Member,
    who: usize,
    row: &Row,
    tally: &Tally,
) -> Result<bool, Memory>
    requires may { MayCall standing.now.heap.key.layout standing.now.heap.table.shared.table_id
        standing.now.hands.shared.table_id member.old }
    requires room { HasRoomForScripts standing.now.heap.key.layout }
{
    let mut is_right = true;
    for n in 0..row.calls_of(who) {
        if tally.has_one_left() {
            break;
        }
        let is_answered = ask_next(rt, standing, member, who, n, row, tally)?;
        is_right = is_right && is_answered;
    }
    member.leave(rt, standing, tally)?;
    Ok(is_right)
}
