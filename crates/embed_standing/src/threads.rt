//! Threads of a host: each builds a list and hands it to the next one by a strong handle, keeps what it is handed under
//! a key, and cuts a cell off its root stack, which the next full cycle frees.

use std::alloc::Global;
use std::marker::Sync;
use std::sync::Wait;
use std::sync::atomic::{AtomicU64, Ordering};
use std::thread::{Threads, yield_now};
use tide::{Host, Memory, Paths, Sizes, Src, Stop, Thread, Val};

/// How many threads the host has.
const THREADS: u8 = 3;

/// How many cells the list of each has.
const CELLS: u32 = 40;

/// Under this key an object has the number of its thread, and under the next one a list.
const OWNER: u32 = 0;

const LIST: u32 = 1;

/// Builds a list of numbers from one on. Each cell has a number and the cell before; the last one is in register 0.
fn build<R: Wait>(rt: &R, thread: &mut Thread<'_, '_>, first: u32) -> Result<(), Stop> {
    for n in 0..CELLS {
        thread.new_cell(rt, 1, 0)?;
        thread.put(rt, 1, 0, Src::Int(first.saturating_add(n)))?;
        thread.put(rt, 1, 1, Src::Reg(0))?;
        thread.set(rt, 0, Src::Reg(1))?;
    }
    Ok(())
}

/// Adds up the list in a register, which holds what its first cell refers to then.
fn add_up<R: Wait>(rt: &R, thread: &mut Thread<'_, '_>, register: u8) -> Result<u64, Stop> {
    let mut sum = 0u64;
    for _ in 0..CELLS {
        if let Val::Int(n) = thread.get(rt, 1, register, 0)? {
            sum = sum.saturating_add(u64::from(n));
        }
        thread.get(rt, register, register, 1)?;
    }
    Ok(sum)
}

/// The first number of a thread's list.
fn first_of(number: u8) -> u32 {
    u32::from(number) * 1000
}

/// What the list of a thread comes to.
fn sum_of(number: u8) -> u64 {
    let mut sum = 0u64;
    for n in 0..CELLS {
        sum = sum.saturating_add(u64::from(first_of(number).saturating_add(n)));
    }
    sum
}

/// Builds a list, and leaves it in a strong handle.
fn hand_on<R: Wait>(rt: &R, thread: &mut Thread<'_, '_>, number: u8) -> Result<(), Stop> {
    build(rt, thread, first_of(number))?;
    thread.set_strong(rt, u16::from(number), Src::Reg(0))
}

/// Waits until each thread has left its list.
fn await_all<R: Wait>(rt: &R, handed: &AtomicU64) {
    for _ in rt.forever() {
        if handed.load(Ordering::SeqCst) >= u64::from(THREADS) {
            return;
        }
        yield_now();
    }
    unreachable!()
}

/// Hands a list on, and rests until all have. Then it adds up the list of the thread before, whose last cell is in
/// register 0 at the end. Says whether it is that list.
fn pass_lists<R: Wait>(
    rt: &R,
    thread: &mut Thread<'_, '_>,
    number: u8,
    handed: &AtomicU64,
) -> Result<bool, Stop> {
    let left = hand_on(rt, thread, number);
    handed.fetch_add(1, Ordering::SeqCst);
    thread.rest(rt, || await_all(rt, handed));
    left?;
    let before = if number == 0 { THREADS - 1 } else { number - 1 };
    let list = thread.get_strong(rt, 0, u16::from(before))?;
    thread.set(rt, 2, Src::Reg(0))?;
    let sum = add_up(rt, thread, 2)?;
    let is_whole = thread.peek(0) == list && thread.peek(2) == Val::Empty;
    Ok(is_whole && sum == sum_of(before))
}

/// Keeps the list of register 0 under a key of an object. Says whether the key was absent before, and has the list then.
fn keep_under_a_key<R: Wait>(
    rt: &R,
    thread: &mut Thread<'_, '_>,
    number: u8,
) -> Result<bool, Stop> {
    let list = thread.peek(0);
    let owner = u32::from(number);
    thread.new_cell(rt, 2, 0)?;
    thread.set_key(rt, 2, OWNER, Src::Int(owner))?;
    let before = thread.get_key(rt, 3, 2, LIST)?;
    thread.set_key(rt, 2, LIST, Src::Reg(0))?;
    let found = thread.get_key(rt, 0, 2, LIST)?;
    let is_owner = thread.get_key(rt, 2, 2, OWNER)? == Some(Val::Int(owner));
    Ok(is_owner && before.is_none() && found == Some(list))
}

/// Pushes a cell, which a full cycle keeps, and cuts it off again. Says whether the next one frees it: a weak handle is
/// empty then.
fn cut_what_it_pushed<R: Wait>(
    rt: &R,
    thread: &mut Thread<'_, '_>,
    number: u8,
) -> Result<bool, Stop> {
    let weak = u16::from(number);
    let height = thread.height();
    thread.push(rt, Src::Int(7))?;
    let cell = thread.new_cell(rt, 1, 0)?;
    let place = thread.push(rt, Src::Reg(1))?;
    thread.set(rt, 1, Src::Empty)?;
    thread.set_weak(rt, weak, Src::Reg(place))?;
    thread.collect(rt)?;
    let is_kept = thread.get_weak(rt, 1, weak)? == cell && thread.peek(place) == cell;
    thread.set(rt, 1, Src::Empty)?;
    thread.cut(rt, height)?;
    thread.collect(rt)?;
    let is_freed = thread.get_weak(rt, 1, weak)? == Val::Empty;
    Ok(is_kept && is_freed && thread.height() == height && thread.peek(place) == Val::Empty)
}

/// What a thread does. Says whether all came as expected.
fn play<R: Wait>(rt: &R, thread: &mut Thread<'_, '_>, handed: &AtomicU64) -> Result<bool, Stop> {
    let number = (thread.number() % usize::from(THREADS)) as u8;
    let is_passed = pass_lists(rt, thread, number, handed)?;
    let is_found = keep_under_a_key(rt, thread, number)?;
    let is_freed = cut_what_it_pushed(rt, thread, number)?;
    Ok(is_passed && is_found && is_freed)
}

/// The path of an object's keys.
fn paths(alloc: Global) -> Result<Paths, Memory> {
    let mut path = Vec::new(alloc);
    path.push(OWNER)?;
    path.push(LIST)?;
    let mut paths = Paths::new(alloc);
    paths.push(path)?;
    Ok(paths)
}

/// A heap of 512 cells of two slots, whose cycles begin after 50 births.
fn sizes() -> Sizes {
    Sizes {
        cells: [8, 0, 0, 0, 0],
        arrays: [1, 0, 0, 0, 0],
        registers: 4,
        stack: 2,
        strong: 3,
        weak: 3,
        members: THREADS,
        helpers: 1,
        calls: 64,
        visits: 16,
        headroom: 1000,
        trigger: 50,
    }
}

/// Three threads and a helper. All is freed at the end but the lists, which the strong handles hold still.
pub fn lists_are_handed_on<R: Threads + Wait + Sync>(rt: &R, alloc: Global) -> Option<bool> {
    let paths = paths(alloc).ok()?;
    let Ok(host) = Host::open(alloc, sizes(), &paths) else {
        return None;
    };
    let handed = AtomicU64::new(0);
    let play_each = |thread: &mut Thread<'_, '_>| play(rt, thread, &handed) == Ok(true);
    let Ok(ran) = host.run(rt, alloc, &play_each) else {
        return None;
    };
    let are_right = ran.answers.as_slice() == [true; 3].as_slice();
    Some(are_right && ran.stats.kept == 3 * CELLS && ran.stats.freed == 6)
}
