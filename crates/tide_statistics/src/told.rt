//! What a freeze tells of what it did, and how a log takes it.
ghost use Rattle.std.specs.Prelude.{◌≡◌, ◌+◌, ◌-◌, ◌<◌, ◌^◌, ◌≤◌, sum, OnOk};
ghost use Rattle.tide_statistics.specs.Told.{since_end_with, with_begun, with_freeze, with_on, with_pause};

use crate::log::CycleLog;
use tide_model::Memory;

/// A pause: how many cells it made black, and whether its cycle ended behind it.
#[derive(Clone, Copy)]
pub struct PauseTold {
    pub visits: u32,
    pub ended: bool,
}

/// A cycle that began: its kind, and the pause that it had at once.
#[derive(Clone, Copy)]
pub struct BegunTold {
    pub full: bool,
    pub pause: PauseTold,
}

/// A freeze: how the cycle that marked went on, if one did, and the cycle that began, if one did.
#[derive(Clone, Copy)]
pub struct FreezeTold {
    pub went_on: Option<PauseTold>,
    pub begun: Option<BegunTold>,
}

/// Tells a log of a pause, and of the end behind it, if its cycle ended once so many cells were born in it.
fn tell_pause(log: &mut CycleLog, told: PauseTold, born: u32) -> Result<(), Memory>
    requires few { log.old.paused + told.visits < 2 ^ 64 }
    requires parts { log.old.parts < 2 ^ 64 - 1 }
    ensures { OnOk result (log.new ≡ with_pause log.old told born) }
{
    log.pause(told.visits);
    if told.ended {
        log.end(born)?;
    }
    Ok(())
}

/// Tells a log how the cycle that marked went on, if one did.
fn tell_on(log: &mut CycleLog, told: Option<PauseTold>, in_cycle: u32) -> Result<(), Memory>
    requires few { log.old.paused + 2 ^ 32 ≤ 2 ^ 64 }
    requires parts { log.old.parts < 2 ^ 64 - 1 }
    ensures { OnOk result (log.new ≡ with_on log.old told in_cycle) }
{
    match told {
        Some(pause) => tell_pause(log, pause, in_cycle),
        None => Ok(()),
    }
}

/// Tells a log of the cycle that began, if one did, where so many cells were born since the last end.
fn tell_begun(log: &mut CycleLog, told: Option<BegunTold>, since_end: u32) -> Result<(), Memory>
    requires few { log.old.begun < 2 ^ 64 - 1 }
    ensures { OnOk result (log.new ≡ with_begun log.old told since_end) }
{
    match told {
        Some(begun) => {
            log.begin(begun.full, since_end);
            tell_pause(log, begun.pause, 0)
        }
        None => Ok(()),
    }
}

/// How many cells were born since the last end, once the cycle that marked went on.
fn since_end_after(told: Option<PauseTold>, since_end: u32) -> u32
    ensures { result ≡ since_end_with told since_end }
{
    match told {
        Some(pause) if pause.ended => 0,
        _ => since_end,
    }
}

/// Tells a log of a freeze: how many cells visitors made black for it, all together, and what it did. Before it so many
/// cells were born since the last end, and since the cycle that marks began.
pub fn tell_freeze(
    log: &mut CycleLog,
    visited: u64,
    told: FreezeTold,
    since_end: u32,
    in_cycle: u32,
) -> Result<(), Memory>
    requires visited { log.old.visited + visited < 2 ^ 64 }
    requires paused { log.old.paused + 2 ^ 32 ≤ 2 ^ 64 }
    requires begun { log.old.begun < 2 ^ 64 - 1 }
    requires parts { log.old.parts < 2 ^ 64 - 1 }
    ensures { OnOk result (log.new ≡ with_freeze log.old visited told since_end in_cycle) }
{
    log.visit(visited);
    tell_on(log, told.went_on, in_cycle)?;
    let since_end = since_end_after(told.went_on, since_end);
    tell_begun(log, told.begun, since_end)
}
