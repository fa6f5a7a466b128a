//! What the helpers and the keeper do until no part is opened any more.
ghost use Rattle.std.specs.Prelude.{◌≡◌, IfSome};
ghost use Rattle.tide.specs.tide_server.Helpers.{IsHelperOf};
ghost use Rattle.tide.specs.tide_server.Keepers.{KeeperStands};
ghost use Rattle.tide.specs.tide_server.Turned.{IsFinished};
ghost use Rattle.tide.specs.tide_shape.Lists.{lists_of};

use std::sync::Wait;
use tide::{FreePass, Helper, Keeper, Report, Shapes, Standing, Turn, Worked};

/// Marks beside the members, until no part is opened any more.
pub(crate) fn help<R: Wait>(rt: &R, standing: &Standing<Shapes>, helper: &mut Helper)
    requires of { IsHelperOf standing.now.heap.key.layout standing.now.heap.table.shared.table_id
        standing.now.hands.shared.table_id helper.old }
{
    for _ in rt.forever() {
        if helper.work(rt, standing, &FreePass) != Ok(Worked::Again) {
            return;
        }
    }
}

/// A keeper whose last turn answered that it is over, and how many cells were freed.
#[derive(Drop)]
pub(crate) struct Kept {
    pub(crate) keeper: Keeper,
    pub(crate) freed: u64,
}

/// Turns until no mutator is active, attends before each turn to who lies in a bed, and empties the report behind it. A
/// turn for which memory was wanting it makes again. `None` where no more part can be opened.
pub(crate) fn keep<R: Wait, A: Fn(&Keeper)>(
    rt: &R,
    standing: &Standing<Shapes>,
    attend: &A,
    mut keeper: Keeper,
    mut report: Report,
) -> Option<Kept>
    requires rounds { (k : _) → A.pre attend.now k }
    requires stands { KeeperStands standing.now.heap.key.layout standing.now.heap.table.shared.table_id
        standing.now.hands.shared.table_id keeper }
    ensures finished { IfSome result (λ kept. IsFinished standing.now.heap.key.layout
        (lists_of standing.now.heap.key.shapes) standing.now.heap.table.shared.table_id kept.keeper) }
{
    let mut freed = 0u64;
    for _ in rt.forever() {
        attend(&keeper);
        let Ok(turn) = keeper.turn(rt, standing, &mut report) else {
            continue;
        };
        freed = freed.saturating_add(u64::from(report.id_count()));
        report.forget();
        match turn {
            Turn::Opened => continue,
            Turn::Over => return Some(Kept { keeper, freed }),
            Turn::Spent => return None,
        }
    }
    unreachable!()
}
