//! What each actor of a row does in its thread.
ghost use Rattle.embed_standing.specs.Playing.{HasRoomForScripts, IsScriptCall, MayCall};
ghost use Rattle.std.specs.Prelude.{◌≡◌, ◌≢◌, IfOk, Ok, OnErr, OnOk, false, true};
ghost use Rattle.tide.specs.tide_model.Caller.{MakesCall};
ghost use Rattle.tide.specs.tide_model.Lawful.{FitsLayout};
ghost use Rattle.tide.specs.tide_model.Script.{is_full_reply};
ghost use Rattle.tide.specs.tide_model.declared.op.Op.TheVariants.{Retire};
ghost use Rattle.tide.specs.tide_mutator.calls.Called.{is_of_claims};
ghost use Rattle.tide.specs.tide_mutator.calls.Viewed.{view_of};
ghost use Rattle.tide.specs.tide_mutator.owed.Standing.{claims_of};
ghost use Rattle.tide.specs.tide_server.Helpers.{IsHelperOf};
ghost use Rattle.tide.specs.tide_server.Keepers.{KeeperStands};
ghost use Rattle.tide.specs.tide_server.Members.{IsMemberOf, Retries};
ghost use Rattle.tide.specs.tide_server.Turned.{IsFinished};
ghost use Rattle.tide.specs.tide_server.declared.turning.Turn.TheVariants as Turn;
ghost use Rattle.tide.specs.tide_shape.Lists.{lists_of};

use crate::polling;
use crate::row::Row;
use crate::tally::Tally;
use std::sync::Wait;
use std::thread::yield_now;
use tide::{
    FreePass, Helper, Keeper, Member, Memory, Op, Refusal, Reply, Report, Shapes, Standing, Turn,
    Turnstile, Worked,
};

/// Whether a reply is a refusal for want of room.
fn is_full(reply: Reply) -> bool
    ensures { result ≡ is_full_reply reply }
{
    matches!(reply, Reply::Refused(Refusal::Full { .. }))
}

/// Makes a call, waiting as the row has it.
fn call<R: Wait, T: Turnstile>(
    rt: &R,
    standing: &Standing<Shapes>,
    member: &mut Member,
    op: Op,
    turnstile: &T,
    polls: bool,
) -> Result<Reply, Memory>
    requires of { IsMemberOf standing.now.heap.key.layout standing.now.heap.table.shared.table_id
        standing.now.hands.shared.table_id member.old }
    requires stays { (view_of member.old.mutator).left ≡ false }
    requires fits { FitsLayout standing.now.heap.key.layout op }
    requires goes_on { op ≢ Retire }
    requires retries { Retries (view_of member.old.mutator) op }
    ensures of { IsMemberOf standing.now.heap.key.layout standing.now.heap.table.shared.table_id
        standing.now.hands.shared.table_id member.new }
    ensures makes { IfOk result (λ reply. MakesCall standing.now.heap.key.layout
        (lists_of standing.now.heap.key.shapes) (view_of member.old.mutator).who op reply
        (view_of member.old.mutator).seen (view_of member.new.mutator).seen
        (view_of member.old.mutator).mine (view_of member.new.mutator).mine) }
    ensures stays { (view_of member.new.mutator).left ≡ false }
    ensures claims { is_of_claims op ≡ false →
        claims_of (view_of member.new.mutator) ≡ claims_of (view_of member.old.mutator) }
{
    if polls {
        return Ok(polling::call(rt, standing, member, op, turnstile));
    }
    member.call(rt, standing, op, turnstile)
}

/// Makes a call, and tries it again where it was refused for room.
pub fn ask<R: Wait, T: Turnstile>(
    rt: &R,
    standing: &Standing<Shapes>,
    member: &mut Member,
    op: Op,
    turnstile: &T,
    polls: bool,
) -> Result<Reply, Memory>
    requires may { MayCall standing.now.heap.key.layout standing.now.heap.table.shared.table_id
        standing.now.hands.shared.table_id member.old }
    requires fits { IsScriptCall standing.now.heap.key.layout op }
    ensures may { OnOk result (MayCall standing.now.heap.key.layout standing.now.heap.table.shared.table_id
        standing.now.hands.shared.table_id member.new) }
{
    let reply = call(rt, standing, member, op, turnstile, polls)?;
    if is_full(reply) {
        let again = call(rt, standing, member, op, turnstile, polls)?;
        return Ok(again);
    }
    Ok(reply)
}

/// Makes the call of the script with this number. Says whether it was answered as the script has it.
pub fn ask_next<R: Wait>(
    rt: &R,
    standing: &Standing<Shapes>,
    member: &mut Member,
    who: usize,
    n: u32,
    row: &Row,
    tally: &Tally,
) -> Result<bool, Memory>
    requires may { MayCall standing.now.heap.key.layout standing.now.heap.table.shared.table_id
        standing.now.hands.shared.table_id member.old }
    requires room { HasRoomForScripts standing.now.heap.key.layout }
    ensures may { OnOk result (MayCall standing.now.heap.key.layout standing.now.heap.table.shared.table_id
        standing.now.hands.shared.table_id member.new) }
{
    let op = row.script.call_of(who, n);
    let reply = ask(rt, standing, member, op, tally, row.polls)?;
    match row.script.reply_to(who, n) {
        Some(wanted) => Ok(reply == wanted),
        None => Ok(true),
    }
}

/// Makes its calls, and leaves. Says whether each was answered as the script has it.
pub fn make_calls<R: Wait>(
    rt: &R,
    standing: &Standing<Shapes>,
    member: &mut Member,
    who: usize,
    row: &Row,
    tally: &Tally,
) -> Result<bool, Memory>
    requires may { MayCall standing.now.heap.key.layout standing.now.heap.table.shared.table_id
        standing.now.hands.shared.table_id member.old }
    requires room { HasRoomForScripts standing.now.heap.key.layout }
{
    let mut is_right = true;
    for n in 0..row.calls_of(who) {
        let is_answered = ask_next(rt, standing, member, who, n, row, tally)?;
        is_right = is_right && is_answered;
    }
    if row.polls {
        polling::come_to_work(rt, standing, member);
        member.retire(standing, tally);
        return Ok(is_right);
    }
    member.leave(rt, standing, tally)?;
    Ok(is_right)
}

/// Takes part in one part, waiting as the row has it.
fn work<R: Wait>(
    rt: &R,
    standing: &Standing<Shapes>,
    helper: &mut Helper,
    polls: bool,
) -> Result<Worked, Memory>
    requires of { IsHelperOf standing.now.heap.key.layout standing.now.heap.table.shared.table_id
        standing.now.hands.shared.table_id helper.old }
    ensures of { IsHelperOf standing.now.heap.key.layout standing.now.heap.table.shared.table_id
        standing.now.hands.shared.table_id helper.new }
{
    if polls {
        return Ok(polling::work(rt, standing, helper, &FreePass));
    }
    helper.work(rt, standing, &FreePass)
}

/// A helper works until no part is opened any more, and tells each part that it took part in.
pub fn play_helper<R: Wait>(
    rt: &R,
    standing: &Standing<Shapes>,
    helper: &mut Helper,
    row: &Row,
    tally: &Tally,
)
    requires of { IsHelperOf standing.now.heap.key.layout standing.now.heap.table.shared.table_id
        standing.now.hands.shared.table_id helper.old }
{
    for _ in rt.forever() {
        match work(rt, standing, helper, row.polls) {
            Ok(Worked::Again) => tally.add_part(),
            Ok(Worked::Over) => return,
            Err(_) => {
                tally.add_wrong();
                return;
            }
        }
    }
    unreachable!()
}

/// A keeper whose last turn opened no part, with its report.
#[derive(Drop)]
pub struct Kept {
    pub keeper: Keeper,
    pub report: Report,
    /// How many turns it made.
    pub turns: u64,
    /// No mutator was active any more.
    pub is_over: bool,
}

/// Makes the next turn: the keeper attends to who lies in a bed and waits for the notes, or it polls for them.
fn next_turn<R: Wait, A: Fn(&Keeper)>(
    rt: &R,
    standing: &Standing<Shapes>,
    keeper: &mut Keeper,
    report: &mut Report,
    attend: &A,
    polls: bool,
) -> Result<Turn, Memory>
    requires rounds { (k : _) → A.pre attend.now k }
    requires stands { KeeperStands standing.now.heap.key.layout standing.now.heap.table.shared.table_id
        standing.now.hands.shared.table_id keeper.old }
    ensures opened { result ≡ Ok Turn.Opened → KeeperStands standing.now.heap.key.layout
        standing.now.heap.table.shared.table_id standing.now.hands.shared.table_id keeper.new }
    ensures over { result ≡ Ok Turn.Over → IsFinished standing.now.heap.key.layout
        (lists_of standing.now.heap.key.shapes) standing.now.heap.table.shared.table_id keeper.new }
    ensures waits { OnErr result (KeeperStands standing.now.heap.key.layout
        standing.now.heap.table.shared.table_id standing.now.hands.shared.table_id keeper.new) }
{
    if !polls {
        attend(&*keeper);
        return keeper.turn(rt, standing, report);
    }
    for _ in rt.forever() {
        if let Some(turn) = keeper.try_turn(standing, report)? {
            return Ok(turn);
        }
        yield_now();
    }
    unreachable!()
}

/// The keeper turns until no part is opened any more, and attends before each turn to who lies in a bed. A turn for
/// which memory was wanting it makes again.
pub fn keep<R: Wait, A: Fn(&Keeper)>(
    rt: &R,
    standing: &Standing<Shapes>,
    mut keeper: Keeper,
    mut report: Report,
    attend: &A,
    polls: bool,
) -> Kept
    requires rounds { (k : _) → A.pre attend.now k }
    requires stands { KeeperStands standing.now.heap.key.layout standing.now.heap.table.shared.table_id
        standing.now.hands.shared.table_id keeper }
    ensures finished { result.is_over ≡ true → IsFinished standing.now.heap.key.layout
        (lists_of standing.now.heap.key.shapes) standing.now.heap.table.shared.table_id result.keeper }
{
    let mut turns = 0u64;
    for _ in rt.forever() {
        let Ok(turn) = next_turn(rt, standing, &mut keeper, &mut report, attend, polls) else {
            continue;
        };
        turns = turns.saturating_add(1);
        let is_over = match turn {
            Turn::Opened => continue,
            Turn::Over => true,
            Turn::Spent => false,
        };
        return Kept {
            keeper,
            report,
            turns,
            is_over,
        };
    }
    unreachable!()
}
