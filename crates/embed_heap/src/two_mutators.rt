//! A caller of one's own of the heap that threads share: two mutators run in two threads, and each reads again what it
//! stored.
//!
//! It is a library that a program hands its runtime: `fn main(rt: HostRuntime)` calls
//! `both_find_seven(&rt, rt.alloc())`.

mod working;
// these stand on those listed before
mod pair;
// these stand on those listed before
mod starting;

use starting::run;
use std::alloc::Global;
use std::marker::Sync;
use std::thread::Threads;
use tide::{Reply, Val};
use working::Replies;

/// A mutator read the number that it had stored, and an operation that doesn't fit its heap was not made.
fn is_seven(found: Replies) -> bool {
    matches!(found.seen, Some(Reply::Seen(Val::Int(7)))) && found.foreign.is_none()
}

/// Runs two mutators on a heap of their own, and answers whether each found the number that it had stored, and made no
/// call of an operation on a register that it doesn't have.
pub fn both_find_seven<R: Threads + Sync>(rt: &R, alloc: Global) -> bool {
    match run(rt, alloc) {
        Some((first, second)) => is_seven(first) && is_seven(second),
        None => false,
    }
}
