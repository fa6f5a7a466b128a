//! How long snapshots of large heaps take, by the clock. The times go to the error output, since no two are the same.
use crate::snapshot::large::Large;
use crate::snapshot::shot::workload_of;
use check_heap::number;
use std::alloc::Global;
use std::io;
use std::io::Eprint;
use std::time::{Clock, Duration, Instant};

/// Takes a snapshot of a large heap once. Answers how long that took, or `None` where a cell isn't as far as it should
/// be.
fn time_one<R: Clock>(rt: &R, alloc: Global, large: &mut Large) -> io::Result<Option<Duration>> {
    let Some(load) = workload_of(alloc, "")? else {
        return Ok(None);
    };
    let start = Instant::now(rt)?;
    let Some(shot) = large.shot(alloc, load)? else {
        return Ok(None);
    };
    let took = start.elapsed(rt)?;
    if large.is_as_far(&shot) {
        Ok(Some(took))
    } else {
        Ok(None)
    }
}

/// Takes so many snapshots of the heap of this kind, of so many blocks a class, and tells the least time of one, in
/// nanoseconds: that of `take`, and of the look before it at the shapes that the words name. Answers whether the words
/// say such a heap, all of whose cells are as far as they should be.
pub fn time_large<R: Clock + Eprint>(
    rt: &R,
    alloc: Global,
    kind: &str,
    blocks: &str,
    times: &str,
) -> io::Result<bool> {
    let (Some(mut large), Some(times)) = (Large::new(alloc, kind, blocks)?, number(times)) else {
        return Ok(false);
    };
    let mut least = Duration::MAX;
    for _time in 0..times {
        match time_one(rt, alloc, &mut large)? {
            Some(took) => least = least.min(took),
            None => return Ok(false),
        }
    }
    let least = least.as_nanos();
    eprintln!(rt; "{kind} {blocks} {least}")?;
    Ok(true)
}
