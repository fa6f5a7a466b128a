//! The table of a row: two growers, each of whose calls is made on a thread of its own, and then the settled table.
ghost use Rattle.std.specs.Prelude.{◌≡◌, ◌≢◌, ◌<◌, None};
ghost use Rattle.tide_grow_shape.specs.growers.Grown.{known_keys};

use std::alloc::Global;
use std::marker::Sync;
use std::sync::Wait;
use std::thread::{Threads, join_mut};
use tide_grow_shape::{GrowRefused, GrowShapes, Grower, Settled, growers_agree, settle};
use tide_model::Memory;
use tide_shape::ShapeTable;

/// Which of the two growers.
#[derive(Clone, Copy)]
pub enum Who {
    First,
    Second,
}

/// A table with its two growers.
#[derive(Drop)]
pub struct Growing {
    table: GrowShapes,
    first: Grower,
    second: Grower,
    ghost first_own: { first.table ≡ table },
    ghost second_own: { second.table ≡ table },
}

/// What a call of a grower came to.
#[derive(Clone, Copy)]
pub enum Came {
    Grown(u32),
    Refused(GrowRefused),
    /// The grower doesn't know the shape, or the table doesn't have the key.
    Unasked,
}

/// Makes a call of a grower on a thread of its own.
fn on_thread<R: Threads + Wait + Sync>(
    rt: &R,
    alloc: Global,
    table: &GrowShapes,
    grower: &mut Grower,
    shape: u32,
    key: u32,
) -> Result<u32, GrowRefused>
    requires own { grower.old.table ≡ table.now }
    requires known { known_keys grower.old.known shape ≢ None }
    requires key { key < table.now.keys }
    ensures { grower.new.table ≡ table.now }
{
    let (grown, _) = join_mut(
        rt,
        &mut || -> Result<u32, GrowRefused>
            requires { (grower.now.table ≡ table.now) × (known_keys grower.now.known shape ≢ None)
                × (key < table.now.keys) }
            ensures { grower.exit.now.table ≡ grower.entry.now.table }
        { grower.grow(rt, alloc, table, shape, key) },
        &mut || {},
    );
    grown
}

/// Makes a call of a grower, where its conditions are met.
fn grown<R: Threads + Wait + Sync>(
    rt: &R,
    alloc: Global,
    table: &GrowShapes,
    grower: &mut Grower,
    shape: u32,
    key: u32,
) -> Came
    requires { grower.old.table ≡ table.now }
    ensures { grower.new.table ≡ table.now }
{
    if grower.keys(shape).is_none() || key >= table.keys() {
        return Came::Unasked;
    }
    match on_thread(rt, alloc, table, grower, shape, key) {
        Ok(child) => Came::Grown(child),
        Err(refused) => Came::Refused(refused),
    }
}

impl Growing {
    /// A table of so many keys, whose shapes have numbers to `last`, with two growers.
    pub fn new(alloc: Global, keys: u32, last: u32) -> Result<Growing, Memory> {
        let table = GrowShapes::with_last(alloc, keys, last)?;
        let first = table.grower(alloc)?;
        let second = table.grower(alloc)?;
        Ok(Growing {
            table,
            first,
            second,
        })
    }

    /// A call of a grower.
    pub fn grow<R: Threads + Wait + Sync>(
        &mut self,
        rt: &R,
        alloc: Global,
        who: Who,
        shape: u32,
        key: u32,
    ) -> Came {
        match who {
            Who::First => grown(rt, alloc, &self.table, &mut self.first, shape, key),
            Who::Second => grown(rt, alloc, &self.table, &mut self.second, shape, key),
        }
    }

    fn grower(&self, who: Who) -> &Grower {
        match who {
            Who::First => &self.first,
            Who::Second => &self.second,
        }
    }

    /// The keys of a shape, where the grower knows it.
    pub fn keys(&self, who: Who, shape: u32) -> Option<&[u32]> {
        self.grower(who).keys(shape)
    }

    /// How many keys a shape has, where the grower knows it.
    pub fn count(&self, who: Who, shape: u32) -> Option<u32> {
        let grower = self.grower(who);
        if grower.keys(shape).is_none() {
            return None;
        }
        Some(grower.count(shape))
    }

    /// The key at a place of a shape, where the grower knows the shape, and it has the place.
    pub fn key_at(&self, who: Who, shape: u32, place: u32) -> Option<u32> {
        let grower = self.grower(who);
        if grower.keys(shape).is_none() || place >= grower.count(shape) {
            return None;
        }
        Some(grower.key_at(shape, place))
    }

    /// The settled table of both.
    pub fn settle(self, alloc: Global) -> Result<Settled, Memory> {
        let Growing {
            table,
            first,
            second,
        } = self;
        growers_agree(&table, &first, &second);
        settle(alloc, &table, &[first, second])
    }
}

/// The next shape in a settled table, where it has the number.
pub fn next_of(settled: &Settled, shape: u32, key: u32) -> Option<u32> {
    if (shape as u64) < settled.len() {
        settled.next(shape, key)
    } else {
        None
    }
}

/// The place of a key in a settled table, where it has the number.
pub fn place_of(settled: &Settled, shape: u32, key: u32) -> Option<u32> {
    if (shape as u64) < settled.len() {
        settled.place(shape, key)
    } else {
        None
    }
}

/// The key at a place in a settled table, where it has the number and the place.
pub fn key_at(settled: &Settled, shape: u32, place: u32) -> Option<u32> {
    if (shape as u64) < settled.len() && place < settled.count(shape) {
        Some(settled.key_at(shape, place))
    } else {
        None
    }
}
