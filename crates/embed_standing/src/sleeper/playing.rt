//! All play at once, each on a thread of its own.
ghost use Rattle.embed_standing.specs.Playing.{MayCall};
ghost use Rattle.std.specs.Prelude.{◌≡◌, All, IfSome};
ghost use Rattle.tide.specs.tide_server.Helpers.{IsHelperOf};
ghost use Rattle.tide.specs.tide_server.Keepers.{KeeperStands};
ghost use Rattle.tide.specs.tide_server.Turned.{IsFinished};
ghost use Rattle.tide.specs.tide_shape.Lists.{lists_of};

use crate::sleeper::keeping::{Kept, help, keep};
use crate::sleeper::sleeping::sleep;
use crate::sleeper::working::{Told, work};
use std::marker::Sync;
use std::sync::Wait;
use std::thread::{Threads, for_each_mut, join};
use tide::{Beds, Helper, Keeper, Member, Report, Shapes, Standing};

/// Three members and two helpers work side by side, each on a thread of its own.
fn work_all<R: Threads + Wait + Sync>(
    rt: &R,
    standing: &Standing<Shapes>,
    mut members: Vec<Member>,
    mut helpers: Vec<Helper>,
    told: &Told,
)
    requires may { All (λ member. MayCall standing.now.heap.key.layout standing.now.heap.table.shared.table_id
        standing.now.hands.shared.table_id member) members.items }
    requires of { All (λ helper. IsHelperOf standing.now.heap.key.layout standing.now.heap.table.shared.table_id
        standing.now.hands.shared.table_id helper) helpers.items }
{
    join(
        rt,
        || -> ()
            requires { All (λ member. MayCall standing.now.heap.key.layout standing.now.heap.table.shared.table_id
                standing.now.hands.shared.table_id member) members.items }
        {
            for_each_mut(
                rt,
                members.as_mut_slice(),
                3,
                &|_, member|
                    requires { MayCall standing.now.heap.key.layout standing.now.heap.table.shared.table_id
                        standing.now.hands.shared.table_id member.old }
                { work(rt, standing, member, told) },
            );
        },
        || -> ()
            requires { All (λ helper. IsHelperOf standing.now.heap.key.layout
                standing.now.heap.table.shared.table_id standing.now.hands.shared.table_id helper) helpers.items }
        {
            for_each_mut(
                rt,
                helpers.as_mut_slice(),
                2,
                &|_, helper|
                    requires { IsHelperOf standing.now.heap.key.layout standing.now.heap.table.shared.table_id
                        standing.now.hands.shared.table_id helper.old }
                { help(rt, standing, helper) },
            );
        },
    );
}

/// The fourth member sleeps beside the others.
fn play_others<'h, R: Threads + Wait + Sync>(
    rt: &R,
    standing: &'h Standing<Shapes>,
    beds: &Beds<'h, Shapes>,
    sleeper: Member,
    members: Vec<Member>,
    helpers: Vec<Helper>,
    told: &Told,
)
    requires sleeps { MayCall standing.now.heap.key.layout standing.now.heap.table.shared.table_id
        standing.now.hands.shared.table_id sleeper }
    requires may { All (λ member. MayCall standing.now.heap.key.layout standing.now.heap.table.shared.table_id
        standing.now.hands.shared.table_id member) members.items }
    requires of { All (λ helper. IsHelperOf standing.now.heap.key.layout standing.now.heap.table.shared.table_id
        standing.now.hands.shared.table_id helper) helpers.items }
{
    join(
        rt,
        || -> ()
            requires { MayCall standing.now.heap.key.layout standing.now.heap.table.shared.table_id
                standing.now.hands.shared.table_id sleeper }
        { sleep(rt, standing, beds, sleeper, told) },
        || -> ()
            requires { All (λ member. MayCall standing.now.heap.key.layout standing.now.heap.table.shared.table_id
                standing.now.hands.shared.table_id member) members.items
                × All (λ helper. IsHelperOf standing.now.heap.key.layout standing.now.heap.table.shared.table_id
                standing.now.hands.shared.table_id helper) helpers.items }
        { work_all(rt, standing, members, helpers, told) },
    );
}

/// The keeper turns beside all members and helpers. It attends by a closure of a type of its own: of what a closure
/// answers that holds beds, whose type names a lifetime, no clause tells.
fn play_all<'h, R: Threads + Wait + Sync, A: Fn(&Keeper) + Sync>(
    rt: &R,
    standing: &'h Standing<Shapes>,
    beds: &Beds<'h, Shapes>,
    attend: &A,
    keeper: Keeper,
    report: Report,
    sleeper: Member,
    members: Vec<Member>,
    helpers: Vec<Helper>,
    told: &Told,
) -> Option<Kept>
    requires rounds { (k : _) → A.pre attend.now k }
    requires stands { KeeperStands standing.now.heap.key.layout standing.now.heap.table.shared.table_id
        standing.now.hands.shared.table_id keeper }
    requires sleeps { MayCall standing.now.heap.key.layout standing.now.heap.table.shared.table_id
        standing.now.hands.shared.table_id sleeper }
    requires may { All (λ member. MayCall standing.now.heap.key.layout standing.now.heap.table.shared.table_id
        standing.now.hands.shared.table_id member) members.items }
    requires of { All (λ helper. IsHelperOf standing.now.heap.key.layout standing.now.heap.table.shared.table_id
        standing.now.hands.shared.table_id helper) helpers.items }
    ensures finished { IfSome result (λ kept. IsFinished standing.now.heap.key.layout
        (lists_of standing.now.heap.key.shapes) standing.now.heap.table.shared.table_id kept.keeper) }
{
    let (kept, ()) = join(
        rt,
        || -> Option<Kept>
            requires { ((k : _) → A.pre attend.now k)
                × KeeperStands standing.now.heap.key.layout standing.now.heap.table.shared.table_id
                standing.now.hands.shared.table_id keeper }
            ensures { IfSome result (λ kept. IsFinished standing.entry.now.heap.key.layout
                (lists_of standing.entry.now.heap.key.shapes) standing.entry.now.heap.table.shared.table_id
                kept.keeper) }
        { keep(rt, standing, attend, keeper, report) },
        || -> ()
            requires { MayCall standing.now.heap.key.layout standing.now.heap.table.shared.table_id
                standing.now.hands.shared.table_id sleeper
                × All (λ member. MayCall standing.now.heap.key.layout standing.now.heap.table.shared.table_id
                standing.now.hands.shared.table_id member) members.items
                × All (λ helper. IsHelperOf standing.now.heap.key.layout standing.now.heap.table.shared.table_id
                standing.now.hands.shared.table_id helper) helpers.items }
        { play_others(rt, standing, beds, sleeper, members, helpers, told) },
    );
    kept
}

/// All play, the last member as the one that sleeps. `None` where there is none, or no more part could be opened.
pub(crate) fn play<'h, R: Threads + Wait + Sync, A: Fn(&Keeper) + Sync>(
    rt: &R,
    standing: &'h Standing<Shapes>,
    beds: &Beds<'h, Shapes>,
    attend: &A,
    keeper: Keeper,
    report: Report,
    mut members: Vec<Member>,
    helpers: Vec<Helper>,
    told: &Told,
) -> Option<Kept>
    requires rounds { (k : _) → A.pre attend.now k }
    requires stands { KeeperStands standing.now.heap.key.layout standing.now.heap.table.shared.table_id
        standing.now.hands.shared.table_id keeper }
    requires may { All (λ member. MayCall standing.now.heap.key.layout standing.now.heap.table.shared.table_id
        standing.now.hands.shared.table_id member) members.items }
    requires of { All (λ helper. IsHelperOf standing.now.heap.key.layout standing.now.heap.table.shared.table_id
        standing.now.hands.shared.table_id helper) helpers.items }
    ensures finished { IfSome result (λ kept. IsFinished standing.now.heap.key.layout
        (lists_of standing.now.heap.key.shapes) standing.now.heap.table.shared.table_id kept.keeper) }
{
    let sleeper = members.pop()?;
    play_all(
        rt, standing, beds, attend, keeper, report, sleeper, members, helpers, told,
    )
}
