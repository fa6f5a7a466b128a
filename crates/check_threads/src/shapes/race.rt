//! Threads that grow the same paths in different orders, and what they come to.
//!
//! There are a thousand paths of three keys: 0 to 9, then 10 to 19, then 20 to 29. Each thread takes them in steps of
//! its own, which have no divisor with 1000, from a path of its own on.
ghost use Rattle.std.specs.Prelude.{◌≡◌, ◌<◌, ◌≤◌, [], ◌∷◌, ◌++◌, All, IfOk, OnOk, length};

use crate::shapes::meeting::Meeting;
use crate::shapes::table::next_of;
use check_heap::{number_text, tell};
use std::alloc::{AllocError, Global};
use std::marker::Sync;
use std::sync::Wait;
use std::thread;
use std::thread::Threads;
use tide_grow_shape::{GrowShapes, Grower, Settled, settle};
use tide_model::Memory;

/// How many paths there are.
const PATHS: u32 = 1000;

/// In which steps each thread takes them.
const STEPS: [u32; 16] = [1, 3, 7, 9, 11, 13, 17, 19, 21, 23, 27, 29, 31, 33, 37, 39];

/// The keys of a path.
fn path(number: u32) -> (u32, u32, u32)
    ensures { (result.0 < 30) × (result.1 < 30) × (result.2 < 30) }
{
    (number / 100 % 10, 10 + number / 10 % 10, 20 + number % 10)
}

/// Grows a path, and answers whether that was done.
fn grow_path<R: Wait>(
    rt: &R,
    alloc: Global,
    meeting: &Meeting,
    table: &GrowShapes,
    grower: &mut Grower,
    keys: (u32, u32, u32),
) -> bool
    requires own { grower.old.table ≡ table.now }
    requires keys { table.now.keys ≡ 30 }
    requires few { (keys.0 < 30) × (keys.1 < 30) × (keys.2 < 30) }
    ensures { grower.new.table ≡ table.now }
{
    grower.holds_together();
    let Ok(first) = grower.grow_at(rt, meeting, alloc, table, 0, keys.0) else {
        return false;
    };
    let Ok(second) = grower.grow_at(rt, meeting, alloc, table, first, keys.1) else {
        return false;
    };
    grower
        .grow_at(rt, meeting, alloc, table, second, keys.2)
        .is_ok()
}

/// One thread grows all paths, up to the first that it is refused.
fn grow_all<R: Wait>(
    rt: &R,
    alloc: Global,
    meeting: &Meeting,
    table: &GrowShapes,
    thread: usize,
    grower: &mut Grower,
)
    requires own { grower.old.table ≡ table.now }
    requires keys { table.now.keys ≡ 30 }
    requires thread { thread < 16 }
    ensures { grower.new.table ≡ table.now }
{
    let step = u64::from(STEPS[thread]);
    let mut number = 61 * thread as u64;
    for _turn in 0..PATHS {
        number = (number + step) % 1000;
        if !grow_path(rt, alloc, meeting, table, grower, path(number as u32)) {
            return;
        }
    }
}

/// Each grower grows all paths, on a thread of its own.
fn race<R: Threads + Wait + Sync>(
    rt: &R,
    alloc: Global,
    meeting: &Meeting,
    table: &GrowShapes,
    growers: &mut [Grower],
)
    requires own { All (λ grower. grower.table ≡ table.now) growers.old }
    requires keys { table.now.keys ≡ 30 }
    requires few { length growers.old ≤ 16 }
    ensures { All (λ grower. grower.table ≡ table.now) growers.new }
{
    let count = growers.len();
    if count > 0 {
        thread::for_each_mut(
            rt,
            growers,
            count,
            &|place, grower|
                requires { (grower.old.table ≡ table.now) × (table.now.keys ≡ 30) × (place < 16) }
                ensures { grower.new.table ≡ table.entry.now }
            { grow_all(rt, alloc, meeting, table, place, grower) },
        );
    }
}

/// One grower more.
fn put(growers: &mut Vec<Grower>, grower: Grower) -> Result<(), Memory>
    ensures { OnOk result (growers.new.items ≡ growers.old.items ++ grower ∷ []) }
{
    match growers.push(grower) {
        Ok(()) => Ok(()),
        Err(_) => Err(Memory),
    }
}

/// So many growers of a table.
fn growers_of(alloc: Global, table: &GrowShapes, count: u32) -> Result<Vec<Grower>, Memory>
    ensures own { IfOk result (λ growers. All (λ grower. grower.table ≡ table.now) growers.items) }
    ensures count { IfOk result (λ growers. length growers.items ≡ count) }
{
    let mut growers = Vec::new(alloc);
    for _place in 0..count {
        put(&mut growers, table.grower(alloc)?)?;
    }
    Ok(growers)
}

/// The shape of a path in a settled table.
fn settled_path(settled: &Settled, keys: (u32, u32, u32)) -> Option<u32> {
    let first = next_of(settled, 0, keys.0)?;
    let second = next_of(settled, first, keys.1)?;
    next_of(settled, second, keys.2)
}

/// Whether a grower knows a shape by these keys.
fn knows(grower: &Grower, shape: u32, keys: (u32, u32, u32)) -> bool {
    match grower.keys(shape) {
        Some(known) => known == [keys.0, keys.1, keys.2].as_slice(),
        None => false,
    }
}

/// Whether the settled table has each path, and each grower knows its shape by the keys of the path.
fn are_settled(settled: &Settled, growers: &[Grower]) -> bool {
    for number in 0..PATHS {
        let keys = path(number);
        let Some(shape) = settled_path(settled, keys) else {
            return false;
        };
        if !growers.iter().all(|grower| knows(grower, shape, keys)) {
            return false;
        }
    }
    true
}

/// Has so many threads grow all paths of a new table, and tells what is not as expected.
pub fn check_race<R: Threads + Wait + Sync>(
    rt: &R,
    alloc: Global,
    findings: &mut String,
    threads: u32,
) -> Result<bool, AllocError>
    requires few { threads ≤ 16 }
{
    let meeting = Meeting::new(alloc, threads)?;
    let Ok(table) = GrowShapes::new(alloc, 30) else {
        return Err(AllocError);
    };
    let Ok(mut growers) = growers_of(alloc, &table, threads) else {
        return Err(AllocError);
    };
    race(rt, alloc, &meeting, &table, growers.as_mut_slice());
    let Ok(settled) = settle(alloc, &table, growers.as_slice()) else {
        return Err(AllocError);
    };
    if meeting.met() < threads as u64 {
        let met = number_text(alloc, meeting.met())?;
        tell(findings, &["threads that met: ", met.as_str()])?;
        return Ok(false);
    }
    if !are_settled(&settled, growers.as_slice()) {
        tell(
            findings,
            &["a path is not settled, or a thread knows other keys of its shape"],
        )?;
        return Ok(false);
    }
    Ok(true)
}
