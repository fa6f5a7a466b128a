//! Opens a heap, plays on it, and closes it.
ghost use Rattle.embed_standing.specs.Playing.{MayPlay};
ghost use Rattle.std.specs.Prelude.{◌≡◌, IfSome};

use crate::sleeper::keeping::Kept;
use crate::sleeper::playing::play;
use crate::sleeper::working::{CELLS, Told};
use std::alloc::Global;
use std::marker::Sync;
use std::sync::Wait;
use std::sync::atomic::{AtomicU64, Ordering};
use std::thread::Threads;
use tide::{Beds, Keeper, Layout, Opened, Pacing, Paths, Report, Shapes, Start, open};

/// Opens a heap of 64 cells of two slots, and 64 tables that nobody makes, for four members and two helpers. Its cycles
/// begin after 32 births.
fn open_heap(alloc: Global) -> Option<Opened<Shapes>>
    ensures opened { IfSome result (λ made. MayPlay made.standing.heap.key.layout
        made.standing.heap.table.shared.table_id made.standing.hands.shared.table_id made.keeper
        made.members.items made.helpers.items) }
{
    let layout = Layout::new([1, 0, 0, 0, 1], [0, 0, 0, 0, 0], 4, 2, 0, 4, 2);
    let pacing = Pacing {
        calls: 16,
        visits: 16,
        headroom: 1000,
        trigger: 32,
    };
    let shapes = Shapes::new(alloc, &Paths::new(alloc)).ok()?;
    let start = Start::new(alloc, layout, shapes).ok()?;
    open(alloc, start, pacing).ok()
}

/// Plays, and closes the heap. Whether each member found each cell that it had made, and each cell was freed by then.
pub fn sleeper_finds_its_cell<R: Threads + Wait + Sync>(rt: &R, alloc: Global) -> Option<bool> {
    let report = Report::new(alloc, 0, 0).ok()?;
    let Opened {
        standing,
        keeper,
        members,
        helpers,
    } = open_heap(alloc)?;
    let told = Told {
        left: AtomicU64::new(0),
        found: AtomicU64::new(0),
    };
    let beds = Beds::new(alloc, members.len()).ok()?;
    let attend = |keeper: &Keeper| keeper.attend(rt, &standing, &beds);
    let kept = play(
        rt, &standing, &beds, &attend, keeper, report, members, helpers, &told,
    )?;
    drop(beds);
    let Kept { keeper, freed } = kept;
    drop(keeper.finish(standing));
    let found = told.found.load(Ordering::SeqCst);
    Some(found == 4 && freed == 3 * u64::from(CELLS) + 1)
}
