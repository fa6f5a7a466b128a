//! A caller of one's own of shapes that threads grow: two threads grow one table, and a heap is opened over what they
//! made.
//!
//! It is a library that a program hands its runtime: `fn main(rt: HostRuntime)` calls `adds_in_order(&rt, rt.alloc())`.

mod growing;
mod working;

use growing::settled;
use std::alloc::Global;
use std::marker::Sync;
use std::sync::Wait;
use std::thread::Threads;
use tide::{Refusal, Reply};
use working::run;

/// Runs a mutator on a heap over a table that two threads grew by the keys 0 and 1. Answers whether its cell took key 0
/// first and key 1 then, and took no key 1 before.
pub fn adds_in_order<R: Threads + Wait + Sync>(rt: &R, alloc: Global) -> bool {
    let Some(shapes) = settled(rt, alloc) else {
        return false;
    };
    matches!(
        run(alloc, shapes),
        Some((Reply::Refused(Refusal::NoShape), Reply::Done, Reply::Done))
    )
}
