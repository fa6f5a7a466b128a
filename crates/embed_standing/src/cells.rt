//! A member makes a cell, and finds it again.
ghost use Rattle.embed_standing.specs.Playing.{HasRoomForScripts, MayCall};
ghost use Rattle.std.specs.Prelude.{OnOk};

use crate::playing::ask;
use crate::tally::Tally;
use std::sync::Wait;
use tide::{Member, Memory, Op, Reply, Shapes, Standing, Val};

/// Makes a cell, and keeps it in a register. Answers what that was answered.
pub fn make_cell<R: Wait>(
    rt: &R,
    standing: &Standing<Shapes>,
    member: &mut Member,
    tally: &Tally,
) -> Result<Reply, Memory>
    requires may { MayCall standing.now.heap.key.layout standing.now.heap.table.shared.table_id
        standing.now.hands.shared.table_id member.old }
    requires room { HasRoomForScripts standing.now.heap.key.layout }
    ensures may { OnOk result (MayCall standing.now.heap.key.layout standing.now.heap.table.shared.table_id
        standing.now.hands.shared.table_id member.new) }
{
    let alloc = Op::Alloc { dst: 0, class: 0 };
    ask(rt, standing, member, alloc, tally, false)
}

/// Whether it is one cell that was born and that was seen.
fn is_same_cell(born: Reply, seen: Reply) -> bool {
    match (born, seen) {
        (Reply::Born(made), Reply::Seen(Val::Cell(found))) => made == found,
        _ => false,
    }
}

/// Puts the cell in its register into that cell's own slot, and reads it from there. Says whether that is the cell
/// which it had made, as it was answered then.
pub fn finds_cell<R: Wait>(
    rt: &R,
    standing: &Standing<Shapes>,
    member: &mut Member,
    born: Reply,
    tally: &Tally,
) -> Result<bool, Memory>
    requires may { MayCall standing.now.heap.key.layout standing.now.heap.table.shared.table_id
        standing.now.hands.shared.table_id member.old }
    requires room { HasRoomForScripts standing.now.heap.key.layout }
    ensures may { OnOk result (MayCall standing.now.heap.key.layout standing.now.heap.table.shared.table_id
        standing.now.hands.shared.table_id member.new) }
{
    let put = Op::Put {
        src: 0,
        slot: 0,
        val: 0,
    };
    let get = Op::Get {
        dst: 1,
        src: 0,
        slot: 0,
    };
    ask(rt, standing, member, put, tally, false)?;
    let seen = ask(rt, standing, member, get, tally, false)?;
    Ok(is_same_cell(born, seen))
}
