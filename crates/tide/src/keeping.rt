//! What helpers and the keeper do until all members have left.
ghost use Rattle.std.specs.Prelude.{◌≡◌, ◌+◌, []};
ghost use Rattle.tide.specs.Counted.{HasCounted};
ghost use Rattle.tide.specs.Watched.{HasWatched};
ghost use Rattle.tide_server.specs.Helpers.{IsHelperOf};
ghost use Rattle.tide_server.specs.Keepers.{KeeperStands, view_of};
ghost use Rattle.tide_server.specs.Turned.{IsFinished};
ghost use Rattle.tide_server.specs.tide_model.Periods.{open_count};
ghost use Rattle.tide_server.specs.tide_shape.Lists.{lists_of};

use crate::stats::Tally;
use std::sync::Wait;
use std::thread::yield_now;
use tide_server::{FreePass, Helper, Keeper, Report, Shapes, Standing, Turn, Worked};

/// Marks beside the members, until no part is opened any more.
pub(crate) fn help<R: Wait>(rt: &R, standing: &Standing<Shapes>, helper: &mut Helper)
    requires of { IsHelperOf standing.now.heap.key.layout standing.now.heap.table.shared.table_id
        standing.now.hands.shared.table_id helper.old }
{
    for _ in rt.forever() {
        if helper.work(rt, standing, &FreePass) != Ok(Worked::Again) {
            return;
        }
    }
}

/// A keeper whose last turn answered that it is over, what it counted, and who watched.
#[derive(Drop)]
pub(crate) struct Kept<W> {
    pub(crate) keeper: Keeper,
    pub(crate) tally: Tally,
    pub(crate) watch: W,
}

/// Waits for ever.
fn wait_for_ever<R: Wait>(rt: &R) -> ! {
    for _ in rt.forever() {
        yield_now();
    }
    unreachable!()
}

/// Turns until all members have left, attends before each turn to who rests, and behind it shows the report to who
/// watches and empties it. A turn for which memory was wanting it makes again. Where no more part can be opened it waits
/// for ever, as members do.
pub(crate) fn keep<R: Wait, A: Fn(&Keeper), W: FnMut(&Report)>(
    rt: &R,
    standing: &Standing<Shapes>,
    attend: &A,
    mut watch: W,
    mut keeper: Keeper,
    mut report: Report,
) -> Kept<W>
    requires rounds { A.IsAlwaysCallable attend.now }
    requires watches { W.IsAlwaysCallable watch }
    requires stands { KeeperStands standing.now.heap.key.layout standing.now.heap.table.shared.table_id
        standing.now.hands.shared.table_id keeper }
    requires empty { report.cycles ≡ [] }
    ensures finished { IsFinished standing.now.heap.key.layout (lists_of standing.now.heap.key.shapes)
        standing.now.heap.table.shared.table_id result.keeper }
    ensures pacing { result.keeper.books.pacing ≡ keeper.books.pacing }
    ensures counted { HasCounted standing.now.heap.key.layout (view_of keeper).start (view_of result.keeper).seen
        (view_of keeper).period (open_count (view_of result.keeper).seen + 1) result.tally }
    ensures watched { HasWatched W.FnMut standing.now.heap.key.layout (view_of keeper).start
        (view_of result.keeper).seen (view_of keeper).period (open_count (view_of result.keeper).seen + 1) watch
        result.watch }
{
    let mut tally = Tally::new();
    for _ in rt.forever() {
        attend(&keeper);
        let Ok(turn) = keeper.turn(rt, standing, &mut report) else {
            continue;
        };
        tally.add(&report);
        watch(&report);
        report.forget();
        match turn {
            Turn::Opened => continue,
            Turn::Over => return Kept {
                keeper,
                tally,
                watch,
            },
            Turn::Spent => wait_for_ever(rt),
        }
    }
    unreachable!()
}
