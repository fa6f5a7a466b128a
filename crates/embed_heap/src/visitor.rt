//! A visitor of one's own: while a cycle marks, a mutator and a `Visitor` run in two threads.
//!
//! It is a library that a program hands its runtime: `fn main(rt: HostRuntime)` calls `four_are_kept(&rt, rt.alloc())`.
//! A part of both (`beside`) is what each does from its ticket to its note (`working`, `visiting`); between two parts
//! the collector does what the schedule asks for (`collecting`).

mod shared;
mod visiting;
mod working;
// these stand on those listed before
mod beside;
mod collecting;
mod starting;
// these stand on those listed before
mod running;

use running::{Seen, run_cycle};
pub use shared::Shared;
pub use starting::{layout, start, start_over};
use std::alloc::Global;
use std::marker::Sync;
use std::thread::Threads;
use tide::{Paths, Reply, Shapes, Val};
pub use working::{MutatorAfterPart, make_calls};

/// The cycle that began after the first part ended after the second one: the visitor made some cell black in it, it
/// kept the four cells of the chain, and emptied the weak handle to the fifth one.
fn is_kept(seen: Seen) -> bool {
    let emptied = matches!(seen.weak, Some(Reply::Seen(Val::Empty)));
    let is_first = seen.cycle == 1 && seen.mark_version == 1;
    is_first && seen.visits > 0 && seen.kept == Some(4) && emptied
}

/// A mutator links four cells and lets a fifth one go, a cycle begins, and a visitor marks what its first pause left,
/// beside the mutator. Answers whether the cycle ended then, kept all four, and emptied the weak handle to the fifth.
pub fn four_are_kept<R: Threads + Sync>(rt: &R, alloc: Global) -> bool {
    let Ok(shapes) = Shapes::new(alloc, &Paths::new(alloc)) else {
        return false;
    };
    match start(alloc, shapes) {
        Ok(Some(shared)) => run_cycle(rt, shared).is_some_and(is_kept),
        _ => false,
    }
}
