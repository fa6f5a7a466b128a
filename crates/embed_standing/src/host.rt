//! A host of a standing heap: it opens one, and the keeper plays beside the members and the helpers.
ghost use Rattle.embed_standing.specs.Playing.{HasRoomForScripts, MayCall, MayEachCall, MayPlay};
ghost use Rattle.std.specs.Prelude.{◌≡◌, All, IfOk, IfSome, true};
ghost use Rattle.tide.specs.tide_server.Helpers.{IsHelperOf};
ghost use Rattle.tide.specs.tide_server.Keepers.{KeeperStands};
ghost use Rattle.tide.specs.tide_server.Turned.{IsFinished};
ghost use Rattle.tide.specs.tide_shape.Lists.{lists_of};

use crate::others::{play_others, to_be_taken};
use crate::playing::{Kept, keep};
use crate::resting::play_beside_one_that_rests;
use crate::row::{Rests, Row};
use crate::tally::Tally;
use std::alloc::Global;
use std::marker::Sync;
use std::sync::Wait;
use std::thread::{Threads, join};
use tide::{
    Beds, Helper, Keeper, Layout, Member, Memory, Opened, Paths, Report, Shapes, Standing, Start,
    open,
};

/// The keeper turns until no mutator is active, beside the members and the helpers.
fn play_all<'h, R: Threads + Wait + Sync, A: Fn(&Keeper) + Sync>(
    rt: &R,
    standing: &'h Standing<Shapes>,
    beds: &Beds<'h, Shapes>,
    attend: &A,
    keeper: Keeper,
    report: Report,
    members: Vec<Option<Member>>,
    helpers: Vec<Helper>,
    row: &Row,
    tally: &Tally,
) -> Kept
    requires rounds { (k : _) → A.pre attend.now k }
    requires stands { KeeperStands standing.now.heap.key.layout standing.now.heap.table.shared.table_id
        standing.now.hands.shared.table_id keeper }
    requires may { MayEachCall standing.now.heap.key.layout standing.now.heap.table.shared.table_id
        standing.now.hands.shared.table_id members.items }
    requires of { All (λ helper. IsHelperOf standing.now.heap.key.layout standing.now.heap.table.shared.table_id
        standing.now.hands.shared.table_id helper) helpers.items }
    requires room { HasRoomForScripts standing.now.heap.key.layout }
    ensures finished { result.is_over ≡ true → IsFinished standing.now.heap.key.layout
        (lists_of standing.now.heap.key.shapes) standing.now.heap.table.shared.table_id result.keeper }
{
    let (kept, ()) = join(
        rt,
        || -> Kept
            requires { ((k : _) → A.pre attend.now k)
                × KeeperStands standing.now.heap.key.layout standing.now.heap.table.shared.table_id
                standing.now.hands.shared.table_id keeper }
            ensures { result.is_over ≡ true → IsFinished standing.entry.now.heap.key.layout
                (lists_of standing.entry.now.heap.key.shapes) standing.entry.now.heap.table.shared.table_id
                result.keeper }
        { keep(rt, standing, keeper, report, attend, row.polls) },
        || -> ()
            requires { HasRoomForScripts standing.now.heap.key.layout
                × MayEachCall standing.now.heap.key.layout standing.now.heap.table.shared.table_id
                standing.now.hands.shared.table_id members.items
                × All (λ helper. IsHelperOf standing.now.heap.key.layout standing.now.heap.table.shared.table_id
                standing.now.hands.shared.table_id helper) helpers.items }
        { play_others(rt, standing, beds, members, helpers, row, tally) },
    );
    kept
}

/// All play at once, one at rest where the row says so. `None` where one should rest and there is none.
fn play<R: Threads + Wait + Sync>(
    rt: &R,
    alloc: Global,
    standing: &Standing<Shapes>,
    keeper: Keeper,
    report: Report,
    members: Vec<Member>,
    helpers: Vec<Helper>,
    row: &Row,
    tally: &Tally,
) -> Result<Option<Kept>, Memory>
    requires stands { KeeperStands standing.now.heap.key.layout standing.now.heap.table.shared.table_id
        standing.now.hands.shared.table_id keeper }
    requires may { All (λ member. MayCall standing.now.heap.key.layout standing.now.heap.table.shared.table_id
        standing.now.hands.shared.table_id member) members.items }
    requires of { All (λ helper. IsHelperOf standing.now.heap.key.layout standing.now.heap.table.shared.table_id
        standing.now.hands.shared.table_id helper) helpers.items }
    requires room { HasRoomForScripts standing.now.heap.key.layout }
    ensures finished { IfOk result (λ found. IfSome found (λ kept. kept.is_over ≡ true →
        IsFinished standing.now.heap.key.layout (lists_of standing.now.heap.key.shapes)
        standing.now.heap.table.shared.table_id kept.keeper)) }
{
    let members = to_be_taken(alloc, members)?;
    let beds = Beds::new(alloc, usize::from(row.members))?;
    let attend = |keeper: &Keeper| {
        keeper.attend(rt, standing, &beds);
        tally.add_round();
    };
    if let Rests::InTheKeepersHands(turns) = row.rests {
        return play_beside_one_that_rests(
            rt, standing, &beds, &attend, keeper, report, members, helpers, turns, row, tally,
        );
    }
    Ok(Some(play_all(
        rt, standing, &beds, &attend, keeper, report, members, helpers, row, tally,
    )))
}

/// What was seen of a heap that is over.
#[derive(Drop)]
pub struct Seen {
    pub report: Report,
    /// How many turns the keeper made.
    pub turns: u64,
    /// In how many parts helpers took part, all together.
    pub parts: u64,
    /// Each member was answered as its script has it, and each helper came to the end.
    pub is_right: bool,
    /// Some mutator stopped early.
    pub stopped: bool,
}

/// Opens a heap for the actors of a row. `None` only where its shapes were refused.
fn open_for(alloc: Global, row: &Row) -> Result<Option<Opened<Shapes>>, Memory>
    ensures opened { IfOk result (λ found. IfSome found (λ made. MayPlay made.standing.heap.key.layout
        made.standing.heap.table.shared.table_id made.standing.hands.shared.table_id made.keeper
        made.members.items made.helpers.items)) }
{
    let layout = Layout::new(
        [1, 1, 0, 0, 1],
        [1, 0, 0, 0, 0],
        4,
        2,
        2,
        row.members,
        row.helpers,
    );
    let Ok(shapes) = Shapes::new(alloc, &Paths::new(alloc)) else {
        return Ok(None);
    };
    let start = Start::new(alloc, layout, shapes)?;
    Ok(Some(open(alloc, start, row.pacing)?))
}

/// Opens a heap, plays the row on it, and closes it. `None` where no heap was opened, or it wasn't over.
pub fn run<R: Threads + Wait + Sync>(
    rt: &R,
    alloc: Global,
    row: &Row,
) -> Result<Option<Seen>, Memory> {
    let report = Report::new(alloc, 0, 0)?;
    let Some(opened) = open_for(alloc, row)? else {
        return Ok(None);
    };
    let Opened {
        standing,
        keeper,
        members,
        helpers,
    } = opened;
    let tally = Tally::new(row.meets);
    let played = play(
        rt, alloc, &standing, keeper, report, members, helpers, row, &tally,
    )?;
    let Some(kept) = played else {
        return Ok(None);
    };
    let Kept {
        keeper,
        report,
        turns,
        is_over,
    } = kept;
    if !is_over {
        return Ok(None);
    }
    let stopped = keeper.has_stopped();
    drop(keeper.finish(standing));
    Ok(Some(Seen {
        report,
        turns,
        parts: tally.parts(),
        is_right: tally.is_right(),
        stopped,
    }))
}
