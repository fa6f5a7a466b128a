//! Parts of a mutator that fills a class of cells, with a visitor beside it. It looks at no answer.
ghost use Rattle.embed_heap.specs.visitor.Shares.{HasOpened};
ghost use Rattle.std.specs.Prelude.{IfSome};

use crate::visitor::Shared;
use std::alloc::Global;
use std::marker::Sync;
use std::thread::Threads;
use tide::{Memory, Op};

/// How many cells the mutator links in a part.
const LINKS: u32 = 333;

/// The calls that put so many cells before the one in register 0, each of which holds the one behind it.
fn links(alloc: Global, count: u32) -> Result<Vec<Op>, Memory> {
    let mut ops = Vec::new(alloc);
    for _link in 0..count {
        ops.push(Op::Alloc { dst: 1, class: 0 })?;
        ops.push(Op::Put {
            src: 1,
            slot: 0,
            val: 0,
        })?;
        ops.push(Op::Move { dst: 0, src: 1 })?;
    }
    Ok(ops)
}

/// Makes these calls in so many parts, in each of them all, and does after each what the schedule asks for.
fn repeat<R: Threads + Sync>(rt: &R, mut shared: Shared, ops: &[Op], parts: u32) -> Option<Shared>
    requires opened { HasOpened shared }
    ensures opened { IfSome result HasOpened }
{
    for _part in 0..parts {
        let mut done = shared.run_part(rt, ops);
        done.shared.next(false)?;
        shared = done.shared;
    }
    Some(shared)
}

/// Links so many cells, part by part: the last one is in register 0. Cycles begin by themselves meanwhile.
pub fn fill<R: Threads + Sync>(rt: &R, alloc: Global, shared: Shared, cells: u32) -> Option<Shared>
    requires opened { HasOpened shared }
    ensures opened { IfSome result HasOpened }
{
    let whole = links(alloc, LINKS).ok()?;
    let rest = links(alloc, cells % LINKS).ok()?;
    let filled = repeat(rt, shared, whole.as_slice(), cells / LINKS)?;
    repeat(rt, filled, rest.as_slice(), 1)
}
