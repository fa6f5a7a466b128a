//! Two threads grow one table, which is then settled.
ghost use Rattle.std.specs.Prelude.{◌≡◌, ◌<◌, IfSome};

use std::alloc::Global;
use std::marker::Sync;
use std::sync::Wait;
use std::thread::{Threads, join};
use tide::{GrowShapes, Grower, Settled, settle};

/// A grower's calls in its thread: it grows the empty shape by the key 0, and what it got by the key 1.
fn grow<R: Wait>(rt: &R, alloc: Global, table: &GrowShapes) -> Option<Grower>
    requires { table.now.keys ≡ 2 }
    ensures { IfSome result (λ grower. grower.table ≡ table.now) }
{
    let mut grower = table.grower(alloc).ok()?;
    grower.holds_together();
    let Ok(first) = grower.grow(rt, alloc, table, 0, 0) else {
        return None;
    };
    grower.grow(rt, alloc, table, first, 1).ok()?;
    Some(grower)
}

/// The table of what two growers know, where there are both.
fn settled_of(
    alloc: Global,
    table: &GrowShapes,
    one: Option<Grower>,
    other: Option<Grower>,
) -> Option<Settled>
    requires one { IfSome one (λ grower. grower.table ≡ table.now) }
    requires other { IfSome other (λ grower. grower.table ≡ table.now) }
{
    let Some(one) = one else {
        return None;
    };
    let Some(other) = other else {
        return None;
    };
    settle(alloc, table, &[one, other]).ok()
}

/// Grows a table in two threads, and settles it.
pub fn settled<R: Threads + Wait + Sync>(rt: &R, alloc: Global) -> Option<Settled> {
    let table = GrowShapes::new(alloc, 2).ok()?;
    let (one, other) = join(
        rt,
        || -> Option<Grower>
            requires { table.keys ≡ 2 }
            ensures { IfSome result (λ grower. grower.table ≡ table) }
        { grow(rt, alloc, &table) },
        || -> Option<Grower>
            requires { table.keys ≡ 2 }
            ensures { IfSome result (λ grower. grower.table ≡ table) }
        { grow(rt, alloc, &table) },
    );
    settled_of(alloc, &table, one, other)
}
