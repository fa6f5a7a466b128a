//! What a member does that works: calls, one after another, and then its leave.
ghost use Rattle.embed_standing.specs.Playing.{MayCall};
ghost use Rattle.std.specs.Prelude.{◌≡◌, ◌≢◌, false};
ghost use Rattle.tide.specs.tide_model.declared.op.Op.TheVariants.{Retire};
ghost use Rattle.tide.specs.tide_mutator.calls.Called.{is_of_claims};

use std::sync::Wait;
use std::sync::atomic::{AtomicU64, Ordering};
use tide::{FreePass, Member, Op, Reply, Shapes, Standing, Val, fits};

/// How many cells each member makes that works.
pub(crate) const CELLS: u32 = 1000;

/// What the members tell.
#[derive(Drop)]
pub(crate) struct Told {
    /// How many that work have left.
    pub(crate) left: AtomicU64,
    /// How many members found each cell that they had made.
    pub(crate) found: AtomicU64,
}

/// Makes a call, and once more where it was refused for room. `None` where the operation is none of this heap.
pub(crate) fn ask<R: Wait>(
    rt: &R,
    standing: &Standing<Shapes>,
    member: &mut Member,
    op: Op,
) -> Option<Reply>
    requires may { MayCall standing.now.heap.key.layout standing.now.heap.table.shared.table_id
        standing.now.hands.shared.table_id member.old }
    requires claims { is_of_claims op ≡ false }
    requires goes_on { op ≢ Retire }
    ensures may { MayCall standing.now.heap.key.layout standing.now.heap.table.shared.table_id
        standing.now.hands.shared.table_id member.new }
{
    if !fits(standing.layout(), op) {
        return None;
    }
    let reply = member.call(rt, standing, op, &FreePass).ok()?;
    if !member.retries() {
        return Some(reply);
    }
    member.call(rt, standing, op, &FreePass).ok()
}

/// Stores the reference of the first register in that cell's own slot, reads it from there, and lets both go. Says
/// whether it is the cell that was born.
pub(crate) fn finds<R: Wait>(
    rt: &R,
    standing: &Standing<Shapes>,
    member: &mut Member,
    born: Option<Reply>,
) -> bool
    requires may { MayCall standing.now.heap.key.layout standing.now.heap.table.shared.table_id
        standing.now.hands.shared.table_id member.old }
    ensures may { MayCall standing.now.heap.key.layout standing.now.heap.table.shared.table_id
        standing.now.hands.shared.table_id member.new }
{
    ask(
        rt,
        standing,
        member,
        Op::Put {
            src: 0,
            slot: 0,
            val: 0,
        },
    );
    let seen = ask(
        rt,
        standing,
        member,
        Op::Get {
            dst: 1,
            src: 0,
            slot: 0,
        },
    );
    ask(rt, standing, member, Op::Drop { dst: 0 });
    ask(rt, standing, member, Op::Drop { dst: 1 });
    match (born, seen) {
        (Some(Reply::Born(cell)), Some(Reply::Seen(Val::Cell(found)))) => found == cell,
        _ => false,
    }
}

/// Makes cells, one after another, finds each, and leaves.
pub(crate) fn work<R: Wait>(rt: &R, standing: &Standing<Shapes>, member: &mut Member, told: &Told)
    requires may { MayCall standing.now.heap.key.layout standing.now.heap.table.shared.table_id
        standing.now.hands.shared.table_id member.old }
{
    let mut found = 0u32;
    for _ in 0..CELLS {
        let born = ask(rt, standing, member, Op::Alloc { dst: 0, class: 0 });
        if finds(rt, standing, member, born) {
            found = found.saturating_add(1);
        }
    }
    if member.leave(rt, standing, &FreePass).is_ok() && found == CELLS {
        told.found.fetch_add(1, Ordering::SeqCst);
    }
    told.left.fetch_add(1, Ordering::SeqCst);
}
