//! Starting a heap for two mutators.
use crate::two_mutators::pair::run_pair;
use crate::two_mutators::working::Replies;
use std::alloc::Global;
use std::marker::Sync;
use std::thread::Threads;
use tide::{Layout, Paths, Shapes, Start};

/// Starts a small heap, runs a part of two mutators on it, and answers what each found. `None` where memory ran out.
pub fn run<R: Threads + Sync>(rt: &R, alloc: Global) -> Option<(Replies, Replies)> {
    let layout = Layout::new([1, 0, 0, 0, 1], [1, 0, 0, 0, 0], 4, 2, 2, 2, 0);
    let shapes = Shapes::new(alloc, &Paths::new(alloc)).ok()?;
    let Start {
        heap,
        collector,
        mut mutators,
        visitors: _,
    } = Start::new(alloc, layout, shapes).ok()?;
    let (Some(other), Some(one)) = (mutators.pop(), mutators.pop()) else {
        return None;
    };
    let ran = run_pair(rt, heap, collector, one, other);
    Some(ran.found)
}
