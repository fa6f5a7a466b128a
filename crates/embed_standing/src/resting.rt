//! A member that rests beside others, and wakes on a thread of its own.
ghost use Rattle.embed_standing.specs.Playing.{HasRoomForScripts, MayCall, MayEachCall, MayWake};
ghost use Rattle.std.specs.Prelude.{◌≡◌, All, IfOk, IfSome, true};
ghost use Rattle.tide.specs.tide_server.Helpers.{IsHelperOf};
ghost use Rattle.tide.specs.tide_server.Keepers.{KeeperStands};
ghost use Rattle.tide.specs.tide_server.Turned.{IsFinished};
ghost use Rattle.tide.specs.tide_shape.Lists.{lists_of};

use crate::cells::{finds_cell, make_cell};
use crate::others::play_others;
use crate::playing::{Kept, keep};
use crate::row::Row;
use crate::tally::Tally;
use std::marker::Sync;
use std::sync::Wait;
use std::thread::{Threads, join};
use tide::{Beds, Helper, Keeper, Member, Memory, Reply, Report, Resting, Shapes, Standing, Turn};

/// What the first cell of the heap is answered to be.
const FIRST_CELL: Reply = Reply::Born(0);

/// A keeper that turned while a member rested.
#[derive(Drop)]
struct Attended {
    keeper: Keeper,
    report: Report,
    resting: Resting,
    /// How many turns it made.
    turns: u64,
    /// The next part is open.
    is_open: bool,
}

/// A member makes a cell, the first of the heap, and rests with it in a register.
pub fn rest_with_a_cell<R: Wait>(
    rt: &R,
    standing: &Standing<Shapes>,
    mut member: Member,
    tally: &Tally,
) -> Result<Resting, Memory>
    requires may { MayCall standing.now.heap.key.layout standing.now.heap.table.shared.table_id
        standing.now.hands.shared.table_id member }
    requires room { HasRoomForScripts standing.now.heap.key.layout }
    ensures may { IfOk result (MayWake standing.now.heap.key.layout standing.now.heap.table.shared.table_id
        standing.now.hands.shared.table_id) }
{
    let born = make_cell(rt, standing, &mut member, tally)?;
    if born != FIRST_CELL {
        tally.add_wrong();
    }
    Ok(member.rest(standing))
}

/// The keeper makes so many turns, and before each it begins and stops in the place of who rests.
fn keep_beside<R: Wait>(
    rt: &R,
    standing: &Standing<Shapes>,
    mut keeper: Keeper,
    mut report: Report,
    mut resting: Resting,
    turns: u64,
) -> Attended
    requires stands { KeeperStands standing.now.heap.key.layout standing.now.heap.table.shared.table_id
        standing.now.hands.shared.table_id keeper }
    requires may { MayWake standing.now.heap.key.layout standing.now.heap.table.shared.table_id
        standing.now.hands.shared.table_id resting }
    ensures stands { result.is_open ≡ true → KeeperStands standing.now.heap.key.layout
        standing.now.heap.table.shared.table_id standing.now.hands.shared.table_id result.keeper }
    ensures may { MayWake standing.now.heap.key.layout standing.now.heap.table.shared.table_id
        standing.now.hands.shared.table_id result.resting }
{
    let mut made = 0u64;
    for _ in 0..turns {
        resting.attend(standing);
        let Ok(turn) = keeper.turn(rt, standing, &mut report) else {
            continue;
        };
        made = made.saturating_add(1);
        let Turn::Opened = turn else {
            return Attended {
                keeper,
                report,
                resting,
                turns: made,
                is_open: false,
            };
        };
    }
    Attended {
        keeper,
        report,
        resting,
        turns: made,
        is_open: true,
    }
}

/// Wakes, looks for its cell, and leaves. Says whether it found it.
fn finds_its_cell<R: Wait>(
    rt: &R,
    standing: &Standing<Shapes>,
    resting: Resting,
    tally: &Tally,
) -> Result<bool, Memory>
    requires may { MayWake standing.now.heap.key.layout standing.now.heap.table.shared.table_id
        standing.now.hands.shared.table_id resting }
    requires room { HasRoomForScripts standing.now.heap.key.layout }
{
    let mut member = resting.wake();
    let is_found = finds_cell(rt, standing, &mut member, FIRST_CELL, tally)?;
    member.leave(rt, standing, tally)?;
    Ok(is_found)
}

/// Wakes, looks for its cell, and leaves.
fn wake_and_leave<R: Wait>(rt: &R, standing: &Standing<Shapes>, resting: Resting, tally: &Tally)
    requires may { MayWake standing.now.heap.key.layout standing.now.heap.table.shared.table_id
        standing.now.hands.shared.table_id resting }
    requires room { HasRoomForScripts standing.now.heap.key.layout }
{
    if finds_its_cell(rt, standing, resting, tally) != Ok(true) {
        tally.add_wrong();
    }
}

/// The keeper makes so many turns while a member rests, and then until no mutator is active, while that one
/// has woken on another thread.
fn keep_until_it_wakes<R: Threads + Wait + Sync, A: Fn(&Keeper) + Sync>(
    rt: &R,
    standing: &Standing<Shapes>,
    attend: &A,
    keeper: Keeper,
    report: Report,
    resting: Resting,
    turns: u64,
    tally: &Tally,
) -> Kept
    requires rounds { (k : _) → A.pre attend.now k }
    requires stands { KeeperStands standing.now.heap.key.layout standing.now.heap.table.shared.table_id
        standing.now.hands.shared.table_id keeper }
    requires may { MayWake standing.now.heap.key.layout standing.now.heap.table.shared.table_id
        standing.now.hands.shared.table_id resting }
    requires room { HasRoomForScripts standing.now.heap.key.layout }
    ensures finished { result.is_over ≡ true → IsFinished standing.now.heap.key.layout
        (lists_of standing.now.heap.key.shapes) standing.now.heap.table.shared.table_id result.keeper }
{
    let attended = keep_beside(rt, standing, keeper, report, resting, turns);
    let Attended {
        keeper,
        report,
        resting,
        turns,
        is_open,
    } = attended;
    if !is_open {
        tally.add_wrong();
        return Kept {
            keeper,
            report,
            turns,
            is_over: false,
        };
    }
    let (kept, ()) = join(
        rt,
        || -> Kept
            requires { ((k : _) → A.pre attend.now k)
                × KeeperStands standing.now.heap.key.layout standing.now.heap.table.shared.table_id
                standing.now.hands.shared.table_id keeper }
            ensures { result.is_over ≡ true → IsFinished standing.entry.now.heap.key.layout
                (lists_of standing.entry.now.heap.key.shapes) standing.entry.now.heap.table.shared.table_id
                result.keeper }
        { keep(rt, standing, keeper, report, attend, false) },
        || -> ()
            requires { HasRoomForScripts standing.now.heap.key.layout
                × MayWake standing.now.heap.key.layout standing.now.heap.table.shared.table_id
                standing.now.hands.shared.table_id resting }
        { wake_and_leave(rt, standing, resting, tally) },
    );
    Kept {
        turns: turns.saturating_add(kept.turns),
        ..kept
    }
}

/// The keeper turns beside a member that rests and the others, until that one wakes, and then until no mutator is
/// active.
fn play_while_it_rests<'h, R: Threads + Wait + Sync, A: Fn(&Keeper) + Sync>(
    rt: &R,
    standing: &'h Standing<Shapes>,
    beds: &Beds<'h, Shapes>,
    attend: &A,
    keeper: Keeper,
    report: Report,
    members: Vec<Option<Member>>,
    helpers: Vec<Helper>,
    resting: Resting,
    turns: u64,
    row: &Row,
    tally: &Tally,
) -> Kept
    requires rounds { (k : _) → A.pre attend.now k }
    requires stands { KeeperStands standing.now.heap.key.layout standing.now.heap.table.shared.table_id
        standing.now.hands.shared.table_id keeper }
    requires may { MayEachCall standing.now.heap.key.layout standing.now.heap.table.shared.table_id
        standing.now.hands.shared.table_id members.items }
    requires of { All (λ helper. IsHelperOf standing.now.heap.key.layout standing.now.heap.table.shared.table_id
        standing.now.hands.shared.table_id helper) helpers.items }
    requires rests { MayWake standing.now.heap.key.layout standing.now.heap.table.shared.table_id
        standing.now.hands.shared.table_id resting }
    requires room { HasRoomForScripts standing.now.heap.key.layout }
    ensures finished { result.is_over ≡ true → IsFinished standing.now.heap.key.layout
        (lists_of standing.now.heap.key.shapes) standing.now.heap.table.shared.table_id result.keeper }
{
    let (kept, ()) = join(
        rt,
        || -> Kept
            requires { HasRoomForScripts standing.now.heap.key.layout
                × ((k : _) → A.pre attend.now k)
                × KeeperStands standing.now.heap.key.layout standing.now.heap.table.shared.table_id
                standing.now.hands.shared.table_id keeper
                × MayWake standing.now.heap.key.layout standing.now.heap.table.shared.table_id
                standing.now.hands.shared.table_id resting }
            ensures { result.is_over ≡ true → IsFinished standing.entry.now.heap.key.layout
                (lists_of standing.entry.now.heap.key.shapes) standing.entry.now.heap.table.shared.table_id
                result.keeper }
        { keep_until_it_wakes(rt, standing, attend, keeper, report, resting, turns, tally) },
        || -> ()
            requires { HasRoomForScripts standing.now.heap.key.layout
                × MayEachCall standing.now.heap.key.layout standing.now.heap.table.shared.table_id
                standing.now.hands.shared.table_id members.items
                × All (λ helper. IsHelperOf standing.now.heap.key.layout standing.now.heap.table.shared.table_id
                standing.now.hands.shared.table_id helper) helpers.items }
        { play_others(rt, standing, beds, members, helpers, row, tally) },
    );
    kept
}

/// The last member makes a cell, and rests with it; the keeper turns beside it and the others until it wakes, and then
/// until no mutator is active. Without members nobody plays.
pub fn play_beside_one_that_rests<'h, R: Threads + Wait + Sync, A: Fn(&Keeper) + Sync>(
    rt: &R,
    standing: &'h Standing<Shapes>,
    beds: &Beds<'h, Shapes>,
    attend: &A,
    keeper: Keeper,
    report: Report,
    mut members: Vec<Option<Member>>,
    helpers: Vec<Helper>,
    turns: u64,
    row: &Row,
    tally: &Tally,
) -> Result<Option<Kept>, Memory>
    requires rounds { (k : _) → A.pre attend.now k }
    requires stands { KeeperStands standing.now.heap.key.layout standing.now.heap.table.shared.table_id
        standing.now.hands.shared.table_id keeper }
    requires may { MayEachCall standing.now.heap.key.layout standing.now.heap.table.shared.table_id
        standing.now.hands.shared.table_id members.items }
    requires of { All (λ helper. IsHelperOf standing.now.heap.key.layout standing.now.heap.table.shared.table_id
        standing.now.hands.shared.table_id helper) helpers.items }
    requires room { HasRoomForScripts standing.now.heap.key.layout }
    ensures finished { IfOk result (λ found. IfSome found (λ kept. kept.is_over ≡ true →
        IsFinished standing.now.heap.key.layout (lists_of standing.now.heap.key.shapes)
        standing.now.heap.table.shared.table_id kept.keeper)) }
{
    let Some(Some(sleeper)) = members.pop() else {
        return Ok(None);
    };
    let resting = rest_with_a_cell(rt, standing, sleeper, tally)?;
    Ok(Some(play_while_it_rests(
        rt, standing, beds, attend, keeper, report, members, helpers, resting, turns, row, tally,
    )))
}
