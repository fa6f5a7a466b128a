//! The members and the helpers of a row, each on a thread of its own.
ghost use Rattle.embed_standing.specs.Playing.{HasRoomForScripts, MayCall, MayEachCall};
ghost use Rattle.std.specs.Prelude.{◌≡◌, All, IfOk, IfSome, Some, map};
ghost use Rattle.tide.specs.tide_server.Helpers.{IsHelperOf};

use crate::early::{call_until_one_left, come_early_after_each};
use crate::lying::{lie_from_thread_to_thread, lie_until_the_others_left, rest_by_turns};
use crate::playing::{make_calls, play_helper};
use crate::row::{Rests, Row};
use crate::tally::Tally;
use std::alloc::Global;
use std::marker::Sync;
use std::sync::Wait;
use std::thread;
use std::thread::{Threads, join};
use tide::{Beds, Helper, Member, Memory, Shapes, Standing};

/// A member plays as the row has it, and leaves. Says whether each call was answered as expected.
fn play_as_the_row_has_it<'h, R: Threads + Wait + Sync>(
    rt: &R,
    standing: &'h Standing<Shapes>,
    beds: &Beds<'h, Shapes>,
    mut member: Member,
    who: usize,
    row: &Row,
    tally: &Tally,
) -> Result<bool, Memory>
    requires may { MayCall standing.now.heap.key.layout standing.now.heap.table.shared.table_id
        standing.now.hands.shared.table_id member }
    requires room { HasRoomForScripts standing.now.heap.key.layout }
{
    match row.rests {
        Rests::UntilTheOthersLeft(rounds) if row.is_last(who) => {
            lie_until_the_others_left(rt, standing, beds, member, rounds, row, tally)
        }
        Rests::FromThreadToThread if row.is_last(who) => {
            lie_from_thread_to_thread(rt, standing, beds, member, tally)
        }
        Rests::ByTurns => rest_by_turns(rt, standing, beds, member, row, tally),
        Rests::ComesEarly if who == 1 => {
            come_early_after_each(rt, standing, &mut member, who, row, tally)
        }
        Rests::ComesEarly => call_until_one_left(rt, standing, &mut member, who, row, tally),
        _ => make_calls(rt, standing, &mut member, who, row, tally),
    }
}

/// A member plays and leaves, and tells that it left, and where not all was as expected.
fn play_member<'h, R: Threads + Wait + Sync>(
    rt: &R,
    standing: &'h Standing<Shapes>,
    beds: &Beds<'h, Shapes>,
    member: Member,
    who: usize,
    row: &Row,
    tally: &Tally,
)
    requires may { MayCall standing.now.heap.key.layout standing.now.heap.table.shared.table_id
        standing.now.hands.shared.table_id member }
    requires room { HasRoomForScripts standing.now.heap.key.layout }
{
    if play_as_the_row_has_it(rt, standing, beds, member, who, row, tally) != Ok(true) {
        tally.add_wrong();
    }
    tally.add_left();
}

/// The same members, each to be taken by its thread.
pub fn to_be_taken(alloc: Global, members: Vec<Member>) -> Result<Vec<Option<Member>>, Memory>
    ensures same { IfOk result (λ made. made.items ≡ map Some members.items) }
{
    let mut made = Vec::new(alloc);
    for member in members {
        made.push(Some(member))?;
    }
    Ok(made)
}

/// Each member plays and leaves, on a thread of its own.
fn play_members<'h, R: Threads + Wait + Sync>(
    rt: &R,
    standing: &'h Standing<Shapes>,
    beds: &Beds<'h, Shapes>,
    mut members: Vec<Option<Member>>,
    row: &Row,
    tally: &Tally,
)
    requires may { MayEachCall standing.now.heap.key.layout standing.now.heap.table.shared.table_id
        standing.now.hands.shared.table_id members.items }
    requires room { HasRoomForScripts standing.now.heap.key.layout }
{
    let count = members.len();
    if count > 0 {
        thread::for_each_mut(
            rt,
            members.as_mut_slice(),
            count,
            &|who, place|
                requires { HasRoomForScripts standing.now.heap.key.layout
                    × IfSome place.old (MayCall standing.now.heap.key.layout standing.now.heap.table.shared.table_id
                    standing.now.hands.shared.table_id) }
            {
                if let Some(member) = place.take() {
                    play_member(rt, standing, beds, member, who, row, tally);
                }
            },
        );
    }
}

/// Each helper works until no part is opened any more, on a thread of its own.
fn play_helpers<R: Threads + Wait + Sync>(
    rt: &R,
    standing: &Standing<Shapes>,
    mut helpers: Vec<Helper>,
    row: &Row,
    tally: &Tally,
)
    requires of { All (λ helper. IsHelperOf standing.now.heap.key.layout standing.now.heap.table.shared.table_id
        standing.now.hands.shared.table_id helper) helpers.items }
{
    let count = helpers.len();
    if count > 0 {
        thread::for_each_mut(
            rt,
            helpers.as_mut_slice(),
            count,
            &|_, helper|
                requires { IsHelperOf standing.now.heap.key.layout standing.now.heap.table.shared.table_id
                    standing.now.hands.shared.table_id helper.old }
            { play_helper(rt, standing, helper, row, tally) },
        );
    }
}

/// The members and the helpers play side by side.
pub fn play_others<'h, R: Threads + Wait + Sync>(
    rt: &R,
    standing: &'h Standing<Shapes>,
    beds: &Beds<'h, Shapes>,
    members: Vec<Option<Member>>,
    helpers: Vec<Helper>,
    row: &Row,
    tally: &Tally,
)
    requires may { MayEachCall standing.now.heap.key.layout standing.now.heap.table.shared.table_id
        standing.now.hands.shared.table_id members.items }
    requires of { All (λ helper. IsHelperOf standing.now.heap.key.layout standing.now.heap.table.shared.table_id
        standing.now.hands.shared.table_id helper) helpers.items }
    requires room { HasRoomForScripts standing.now.heap.key.layout }
{
    join(
        rt,
        || -> ()
            requires { HasRoomForScripts standing.now.heap.key.layout
                × MayEachCall standing.now.heap.key.layout standing.now.heap.table.shared.table_id
                standing.now.hands.shared.table_id members.items }
        { play_members(rt, standing, beds, members, row, tally) },
        || -> ()
            requires { All (λ helper. IsHelperOf standing.now.heap.key.layout
                standing.now.heap.table.shared.table_id standing.now.hands.shared.table_id helper) helpers.items }
        { play_helpers(rt, standing, helpers, row, tally) },
    );
}
